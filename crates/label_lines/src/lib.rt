// The longest line of gates without registers between them: a LUT for each gate alone meets that period.
#![tactic(auto)]

ghost use Rattle.std.specs.Prelude.{◌≡◌, true, max, ◌*◌, ◌≤◌, ◌<◌, length, get_or};
ghost use Rattle.net_model.specs.Arrays.{stride};
ghost use Rattle.net_model.specs.Wired.{Wires};
ghost use Rattle.label_visit.specs.LabelVisits.{wiring};
ghost use Rattle.label_pass.specs.Passes.{order_in, Ordered};
ghost use Rattle.label_lines.specs.Lines.{DepthsRead, Deepest, DepthsHeld, Rises, LongestTold};

use cut_circuit::Extent;
use label_pass::nth;
use label_pins::Pins;
use limits::{NODES, PINS};

// The depth of the source of the pin at place i, or d where that is greater or the pin has a register.
fn deeper(pins: Pins, depths: &[usize], i: usize, d: usize) -> usize
    requires { (i < length pins.sources.now) × (i < length pins.counts.now) × (get_or pins.sources.now i 0 < length depths.now) }
    ensures least { d ≤ result }
    ensures above { get_or pins.entry.counts.now i 0 ≡ 0 → get_or depths.now (get_or pins.entry.sources.now i 0) 0 ≤ result }
{
    if pins.counts[i] == 0 {
        d.max(depths[pins.sources[i]])
    } else {
        d
    }
}

// The greatest depth of a source of n pins from place at on, those with registers left out.
fn deepest(pins: Pins, depths: &[usize], at: usize, n: usize) -> usize
    requires { DepthsRead pins.sources.now pins.counts.now depths.now at n }
    ensures { Deepest pins.entry.sources.now pins.entry.counts.now depths.now at n result }
{
    let mut d = 0;
    for j in 0..n {
        d = deeper(pins, depths, at + j, d);
    }
    d
}

// The same over the pins of gate g in the net's slice.
fn deepest_source(s: Extent, net: &[usize], depths: &[usize], g: usize) -> usize
    requires { DepthsHeld s net.now depths.now × (g < s.gates) }
    ensures { Deepest (wiring s net.now).sources (wiring s net.now).counts depths.now (stride * g) (get_or net.now g 0) result }
{
    let a = 2 * s.gates;
    let b = (2 + PINS) * s.gates;
    let pins = Pins {
        sources: &net[a..],
        counts: &net[b..],
    };
    deepest(pins, depths, PINS * g, net[g])
}

// Gate g 1 deeper than what it reads, up to the number of gates.
fn deepen(s: Extent, net: &[usize], depths: &mut [usize], g: usize)
    requires { DepthsHeld s net.now depths.old × (g < s.gates) }
{
    let d = deepest_source(s, net, depths, g);
    if d < s.gates {
        depths[s.inputs + g] = d + 1;
    }
}

// The same for all gates, in the order.
fn deepen_all(s: Extent, net: &[usize], depths: &mut [usize])
    requires { DepthsHeld s net.now depths.old × Ordered (wiring s net.now) (order_in s net.now) }
{
    for i in 0..s.gates {
        deepen(s, net, depths, nth(s, net, i));
    }
}

// Whether gate g is deeper than what it reads without registers, and at most as deep as there are gates.
fn rises(s: Extent, net: &[usize], depths: &[usize], g: usize) -> bool
    requires { DepthsHeld s net.now depths.now × (g < s.gates) }
    ensures { result ≡ true → Rises (wiring s net.now) depths.now g }
{
    let d = deepest_source(s, net, depths, g);
    let e = depths[s.inputs + g];
    d < e && e <= s.gates
}

// The greatest depth, at least `least`, where every gate is deeper than what it reads; else the number of gates.
fn greatest(s: Extent, net: &[usize], depths: &[usize], least: usize) -> usize
    requires { DepthsHeld s net.now depths.now × (least ≤ s.gates) }
    ensures { LongestTold (wiring s net.now) least result }
{
    let mut most = least;
    for g in 0..s.gates {
        if !rises(s, net, depths, g) {
            return s.gates;
        }
        most = most.max(depths[s.inputs + g]);
    }
    most
}

// The longest line, at least `least`.
pub fn longest_line(s: Extent, net: &[usize], least: usize) -> usize
    requires { Wires s.inputs s.gates net.now (wiring s net.now).sources (wiring s net.now).counts × Ordered (wiring s net.now) (order_in s net.now) × (least ≤ s.gates) }
    ensures { LongestTold (wiring s net.now) least result }
{
    if s.inputs <= NODES && s.gates <= NODES - s.inputs {
        let mut depths = [0usize; NODES];
        deepen_all(s, net, &mut depths);
        return greatest(s, net, &depths, least);
    }
    s.gates
}
