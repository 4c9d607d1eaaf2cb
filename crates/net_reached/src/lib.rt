// Check 10 over a net's wiring, with a rank and an input pin of each gate.
#![tactic(auto)]

ghost use Rattle.std.specs.Prelude.{◌≡◌, ℕ, ◌+◌, ◌-◌, ◌*◌, ◌≤◌, ◌<◌, length, get_or, MatchOption, if◌then◌else◌};
ghost use Rattle.net_model.specs.Arrays.{stride};
ghost use Rattle.net_model.specs.Wired.{Wires};
ghost use Rattle.sequences.specs.Tests.{First, Tells};
ghost use Rattle.net_reached.specs.Reaching.{Behind, Falls, Reaching, ReachGate, ReachSweep, Shut, ReachCheck};

use limits::PINS;
use net_marks::{Wiring, all_marked, zero};

// Whether a node is an input, or a marked gate with a rank below the level.
fn near(inputs: usize, seen: &[usize], ranks: &[usize], node: usize, level: usize) -> bool
    requires { (node < inputs + length seen.now) × (length ranks.now ≡ length seen.now) }
    ensures { Tells result (Falls inputs seen.now ranks.now node level) }
{
    node < inputs || (seen[node - inputs] != 0 && ranks[node - inputs] < level)
}

// The first pin of gate g whose source is near.
fn first_near(w: Wiring, seen: &[usize], ranks: &[usize], g: usize, level: usize) -> Option<usize>
    requires { Wires w.inputs w.gates w.pins.now w.sources.now w.counts.now × (g < w.gates) × (length seen.now ≡ w.gates) × (length ranks.now ≡ w.gates) }
    ensures { MatchOption result ((j : ℕ) → j < get_or w.entry.pins.now g 0 → ¬ Falls w.entry.inputs seen.now ranks.now (get_or w.entry.sources.now (stride * g + j) 0) level) (λ i. (i < get_or w.entry.pins.now g 0) × First (λ j. Falls w.entry.inputs seen.now ranks.now (get_or w.entry.sources.now (stride * g + j) 0) level) (get_or w.entry.pins.now g 0) i) }
{
    (0..w.pins[g]).find(|j| near(w.inputs, seen, ranks, w.sources[PINS * g + *j], level))
}

// The rank of a gate that reads this node: 0 behind an input, else 1 more than the node's.
fn rank_behind(inputs: usize, gates: usize, ranks: &[usize], node: usize) -> usize
    requires { (node < inputs + length ranks.now) × (inputs ≤ node → get_or ranks.now (node - inputs) 0 < gates) }
    ensures { Behind inputs ranks.now node result }
{
    if node < inputs {
        0
    } else {
        ranks[node - inputs] + 1
    }
}

// Marks gate g if it reads a near node: whether it is newly marked.
fn reach_gate(w: Wiring, seen: &mut [usize], ranks: &mut [usize], g: usize, level: usize) -> bool
    requires { Wires w.inputs w.gates w.pins.now w.sources.now w.counts.now × (g < w.gates) × Reaching w.inputs w.gates w.pins.now w.sources.now w.counts.now seen.old ranks.old }
    ensures { ReachGate w.entry.inputs w.entry.gates w.entry.pins.now w.entry.sources.now w.entry.counts.now seen.old seen.new ranks.new g level (if result then 1 else 0) }
{
    if seen[g] != 0 {
        return false;
    }
    match first_near(w, seen, ranks, g, level) {
        None => false,
        Some(j) => {
            ranks[g] = rank_behind(w.inputs, w.gates, ranks, w.sources[PINS * g + j]);
            seen[g] = j + 1;
            true
        }
    }
}

// One sweep over all gates, which looks at ranks below a level: how many are newly marked.
fn reach_sweep(w: Wiring, seen: &mut [usize], ranks: &mut [usize], level: usize) -> usize
    requires { Wires w.inputs w.gates w.pins.now w.sources.now w.counts.now × Reaching w.inputs w.gates w.pins.now w.sources.now w.counts.now seen.old ranks.old }
    ensures { ReachSweep w.entry.inputs w.entry.gates w.entry.pins.now w.entry.sources.now w.entry.counts.now seen.old seen.new ranks.new w.entry.gates level result }
{
    let mut new = 0;
    for g in 0..w.gates {
        if reach_gate(w, seen, ranks, g, level) {
            new += 1;
        }
    }
    new
}

// Level by level, until one marks nothing new: gates near an input are marked first.
fn reach_levels(w: Wiring, seen: &mut [usize], ranks: &mut [usize])
    requires { Wires w.inputs w.gates w.pins.now w.sources.now w.counts.now × Reaching w.inputs w.gates w.pins.now w.sources.now w.counts.now seen.old ranks.old }
    ensures { Reaching w.entry.inputs w.entry.gates w.entry.pins.now w.entry.sources.now w.entry.counts.now seen.new ranks.new }
{
    let mut level = 0;
    let mut new = 1;
    while 0 < new {
        new = reach_sweep(w, seen, ranks, level);
        if level < w.gates {
            level += 1;
        }
    }
}

// Sweeps over all ranks until nothing is newly marked.
fn reach_all(w: Wiring, seen: &mut [usize], ranks: &mut [usize])
    requires { Wires w.inputs w.gates w.pins.now w.sources.now w.counts.now × Reaching w.inputs w.gates w.pins.now w.sources.now w.counts.now seen.old ranks.old }
    ensures { Reaching w.entry.inputs w.entry.gates w.entry.pins.now w.entry.sources.now w.entry.counts.now seen.new ranks.new × ((g : ℕ) → g < w.entry.gates → Shut w.entry.inputs w.entry.pins.now w.entry.sources.now seen.new g) }
{
    let mut new = reach_sweep(w, seen, ranks, w.gates);
    while 0 < new {
        new = reach_sweep(w, seen, ranks, w.gates);
    }
}

// Check 10: whether every gate is reached from an input. Each gate's mark is then 1 more than the place of a pin that reads an input or a gate of smaller rank.
pub fn check_reached(
    inputs: usize,
    gates: usize,
    pins: &[usize],
    sources: &[usize],
    counts: &[usize],
    seen: &mut [usize],
    ranks: &mut [usize],
) -> bool
    requires { Wires inputs gates pins.now sources.now counts.now × (length seen.old ≡ gates) × (length ranks.old ≡ gates) }
    ensures { ReachCheck inputs gates pins.now sources.now counts.now seen.new ranks.new result }
{
    zero(seen);
    let w = Wiring {
        inputs,
        gates,
        pins,
        sources,
        counts,
    };
    reach_levels(w, seen, ranks);
    reach_all(w, seen, ranks);
    all_marked(seen, gates)
}
