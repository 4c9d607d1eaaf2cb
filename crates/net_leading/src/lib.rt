// Check 11 over a net's wiring, with the fewest registers from each gate to an output.
#![tactic(auto)]

ghost use Rattle.std.specs.Prelude.{◌≡◌, ◌+◌, ◌<◌, length, get_or, if◌then◌else◌};
ghost use Rattle.net_model.specs.Wired.{Wires};
ghost use Rattle.sequences.specs.Tests.{Tells};
ghost use Rattle.net_marks.specs.Marks.{Marked, Low};
ghost use Rattle.net_leading.specs.Heading.{Told, Heading, PushPins, PushOuts, HeadGate, PushSweep, Headed, Counted, HeadCheck};

use limits::PINS;
use net_marks::{Ends, Wiring, all_marked, zero};

// Whether a node is an input or a gate with a mark of at most this value.
fn settled(inputs: usize, seen: &[usize], node: usize, value: usize) -> bool
    requires { node < inputs + length seen.now }
    ensures { Tells result (Low inputs seen.now node value) }
{
    if node < inputs {
        return true;
    }
    let mark = seen[node - inputs];
    mark != 0 && mark <= value
}

// Puts a value at a gate without a mark or with a larger one: whether it did.
fn push(inputs: usize, seen: &mut [usize], node: usize, value: usize) -> bool
    requires { node < inputs + length seen.old }
    ensures { Told inputs seen.old seen.new node value (if result then 1 else 0) }
{
    if settled(inputs, seen, node, value) {
        return false;
    }
    seen[node - inputs] = value;
    true
}

// Marks what the marked gate g reads, or lowers its mark: how often.
fn push_pins(w: Wiring, e: Ends, seen: &mut [usize], g: usize) -> usize
    requires { Wires w.inputs w.gates w.pins.now w.sources.now w.counts.now × Counted w.gates e.outputs w.pins.now w.counts.now e.outs.now e.delays.now w.inputs × (g < w.gates) × Marked seen.old g × Heading w.inputs w.gates e.outputs w.pins.now w.sources.now w.counts.now e.outs.now e.delays.now seen.old }
    ensures { PushPins w.entry.inputs w.entry.gates e.entry.outputs w.entry.pins.now w.entry.sources.now w.entry.counts.now e.entry.outs.now e.entry.delays.now seen.old seen.new g (get_or w.entry.pins.now g 0) result }
{
    let base = seen[g];
    let mut new = 0;
    for j in 0..w.pins[g] {
        let at = PINS * g + j;
        if push(w.inputs, seen, w.sources[at], base + w.counts[at]) {
            new += 1;
        }
    }
    new
}

// The same for gate g, if it is marked.
fn head_gate(w: Wiring, e: Ends, seen: &mut [usize], g: usize) -> usize
    requires { Wires w.inputs w.gates w.pins.now w.sources.now w.counts.now × Counted w.gates e.outputs w.pins.now w.counts.now e.outs.now e.delays.now w.inputs × (g < w.gates) × Heading w.inputs w.gates e.outputs w.pins.now w.sources.now w.counts.now e.outs.now e.delays.now seen.old }
    ensures { HeadGate w.entry.inputs w.entry.gates e.entry.outputs w.entry.pins.now w.entry.sources.now w.entry.counts.now e.entry.outs.now e.entry.delays.now seen.old seen.new g result }
{
    if seen[g] == 0 {
        0
    } else {
        push_pins(w, e, seen, g)
    }
}

// One sweep over all gates: how many marks are new or lower.
fn head_sweep(w: Wiring, e: Ends, seen: &mut [usize]) -> usize
    requires { Wires w.inputs w.gates w.pins.now w.sources.now w.counts.now × Counted w.gates e.outputs w.pins.now w.counts.now e.outs.now e.delays.now w.inputs × Heading w.inputs w.gates e.outputs w.pins.now w.sources.now w.counts.now e.outs.now e.delays.now seen.old }
    ensures { PushSweep w.entry.inputs w.entry.gates e.entry.outputs w.entry.pins.now w.entry.sources.now w.entry.counts.now e.entry.outs.now e.entry.delays.now seen.old seen.new w.entry.gates result }
{
    let mut new = 0;
    for g in 0..w.gates {
        new += head_gate(w, e, seen, g);
    }
    new
}

// Sweeps until no mark is new or lower.
fn head_all(w: Wiring, e: Ends, seen: &mut [usize])
    requires { Wires w.inputs w.gates w.pins.now w.sources.now w.counts.now × Counted w.gates e.outputs w.pins.now w.counts.now e.outs.now e.delays.now w.inputs × Heading w.inputs w.gates e.outputs w.pins.now w.sources.now w.counts.now e.outs.now e.delays.now seen.old }
    ensures { Headed w.entry.inputs w.entry.gates e.entry.outputs w.entry.pins.now w.entry.sources.now w.entry.counts.now e.entry.outs.now e.entry.delays.now seen.old seen.new }
{
    let mut new = 1;
    while 0 < new {
        new = head_sweep(w, e, seen);
    }
}

// Marks what the outputs read.
fn push_outputs(w: Wiring, e: Ends, seen: &mut [usize]) -> usize
    requires { Wires w.inputs w.gates w.pins.now w.sources.now w.counts.now × Counted w.gates e.outputs w.pins.now w.counts.now e.outs.now e.delays.now w.inputs × Heading w.inputs w.gates e.outputs w.pins.now w.sources.now w.counts.now e.outs.now e.delays.now seen.old }
    ensures { PushOuts w.entry.inputs w.entry.gates e.entry.outputs w.entry.pins.now w.entry.sources.now w.entry.counts.now e.entry.outs.now e.entry.delays.now seen.old seen.new e.entry.outputs result }
{
    let mut new = 0;
    for i in 0..e.outputs {
        if push(w.inputs, seen, e.outs[i], e.delays[i] + 1) {
            new += 1;
        }
    }
    new
}

// Check 11: whether every gate leads to an output. Each gate's mark is then 1 more than the fewest registers on a path from it to an output, the output's own among them.
pub fn check_leading(
    inputs: usize,
    gates: usize,
    outputs: usize,
    pins: &[usize],
    sources: &[usize],
    counts: &[usize],
    outs: &[usize],
    delays: &[usize],
    seen: &mut [usize],
) -> bool
    requires { Wires inputs gates pins.now sources.now counts.now × Counted gates outputs pins.now counts.now outs.now delays.now inputs × (length seen.old ≡ gates) }
    ensures { HeadCheck inputs gates outputs pins.now sources.now counts.now outs.now delays.now seen.new result }
{
    zero(seen);
    let w = Wiring {
        inputs,
        gates,
        pins,
        sources,
        counts,
    };
    let e = Ends {
        outputs,
        outs,
        delays,
    };
    push_outputs(w, e, seen);
    head_all(w, e, seen);
    all_marked(seen, gates)
}
