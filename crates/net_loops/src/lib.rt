// Check 9 over a net's wiring, with an order in which what drives a gate without a register stands before it.
#![tactic(auto)]

ghost use Rattle.std.specs.Prelude.{◌≡◌, ℕ, ◌<◌, length, get_or, if◌then◌else◌};
ghost use Rattle.net_model.specs.Wired.{Wires};
ghost use Rattle.sequences.specs.Tests.{Tells};
ghost use Rattle.net_loops.specs.Placing.{OpenPin, Placing, PlaceGate, PlaceSweep, Placed, PlaceCheck};

use limits::PINS;
use net_marks::{Wiring, all_marked, known, zero};

// Whether pin j of gate g has no register and a source that is not known.
fn open_pin(w: Wiring, seen: &[usize], g: usize, j: usize) -> bool
    requires { Wires w.inputs w.gates w.pins.now w.sources.now w.counts.now × (g < w.gates) × (j < get_or w.pins.now g 0) × (length seen.now ≡ w.gates) }
    ensures { Tells result (OpenPin w.entry.inputs seen.now w.entry.sources.now w.entry.counts.now g j) }
{
    let at = PINS * g + j;
    w.counts[at] == 0 && !known(w.inputs, seen, w.sources[at])
}

// Whether gate g has an open pin.
fn has_open_pin(w: Wiring, seen: &[usize], g: usize) -> bool
    requires { Wires w.inputs w.gates w.pins.now w.sources.now w.counts.now × (g < w.gates) × (length seen.now ≡ w.gates) }
    ensures { Tells result ((j : ℕ) × (j < get_or w.entry.pins.now g 0) × OpenPin w.entry.inputs seen.now w.entry.sources.now w.entry.counts.now g j) }
{
    (0..w.pins[g]).any(|j| open_pin(w, seen, g, j))
}

// Places gate g behind the `placed` gates so far if all its sources without registers are known: whether it is newly placed.
fn place_gate(w: Wiring, seen: &mut [usize], order: &mut [usize], placed: usize, g: usize) -> bool
    requires { Wires w.inputs w.gates w.pins.now w.sources.now w.counts.now × (g < w.gates) × Placing w.inputs w.gates w.pins.now w.sources.now w.counts.now seen.old order.old placed }
    ensures { PlaceGate w.entry.inputs w.entry.gates w.entry.pins.now w.entry.sources.now w.entry.counts.now seen.old order.old seen.new order.new placed g (if result then 1 else 0) }
{
    if seen[g] != 0 {
        return false;
    }
    if has_open_pin(w, seen, g) {
        return false;
    }
    seen[g] = placed + 1;
    order[placed] = g;
    true
}

// One sweep over all gates: how many are newly placed.
fn place_sweep(w: Wiring, seen: &mut [usize], order: &mut [usize], placed: usize) -> usize
    requires { Wires w.inputs w.gates w.pins.now w.sources.now w.counts.now × Placing w.inputs w.gates w.pins.now w.sources.now w.counts.now seen.old order.old placed }
    ensures { PlaceSweep w.entry.inputs w.entry.gates w.entry.pins.now w.entry.sources.now w.entry.counts.now seen.old seen.new order.new placed w.entry.gates result }
{
    let mut new = 0;
    for g in 0..w.gates {
        if place_gate(w, seen, order, placed + new, g) {
            new += 1;
        }
    }
    new
}

// Sweeps until nothing is newly placed.
fn place_all(w: Wiring, seen: &mut [usize], order: &mut [usize])
    requires { Wires w.inputs w.gates w.pins.now w.sources.now w.counts.now × Placing w.inputs w.gates w.pins.now w.sources.now w.counts.now seen.old order.old 0 }
    ensures { Placed w.entry.inputs w.entry.gates w.entry.pins.now w.entry.sources.now w.entry.counts.now seen.new order.new }
{
    let mut new = place_sweep(w, seen, order, 0);
    let mut placed = new;
    while 0 < new {
        new = place_sweep(w, seen, order, placed);
        placed += new;
    }
}

// Check 9: whether every loop has a register. If so, order has the gates so that what drives a gate without a register stands before it.
pub fn check_loops(
    inputs: usize,
    gates: usize,
    pins: &[usize],
    sources: &[usize],
    counts: &[usize],
    seen: &mut [usize],
    order: &mut [usize],
) -> bool
    requires { Wires inputs gates pins.now sources.now counts.now × (length seen.old ≡ gates) × (length order.old ≡ gates) }
    ensures { PlaceCheck inputs gates pins.now sources.now counts.now seen.new order.new result }
{
    zero(seen);
    let w = Wiring {
        inputs,
        gates,
        pins,
        sources,
        counts,
    };
    place_all(w, seen, order);
    all_marked(seen, gates)
}
