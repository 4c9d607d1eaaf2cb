// The labels at the start: a floor for each gate, 1 − φ times the registers on a path from an input that goes along the order.
#![tactic(auto)]

ghost use Rattle.std.specs.Prelude.{◌≡◌, ◌+◌, ◌*◌, ◌≤◌, ◌<◌, pos, ◌-ℤ◌, length};
ghost use Rattle.signed.specs.Range.{Small, room};
ghost use Rattle.label_visit.specs.LabelVisits.{wiring, Ready};
ghost use Rattle.label_pass.specs.Passes.{order_in, Ordered};
ghost use Rattle.label_start.specs.Starts.{Filled, Started, PinsRead, Floored, Startable, Begun};

use cut_circuit::Extent;
use label_aim::Aim;
use label_pass::nth;
use label_visit::{higher, highest, raise};
use signed::minus;

// Writes z from one place up to another.
fn fill(labels: &mut [i64], from: usize, to: usize, z: i64)
    requires { (from ≤ to) × (to ≤ length labels.old) }
    ensures { Filled labels.old labels.new from to z }
{
    labels[from..to].fill(z);
}

// 1 at the inputs, low at the gates.
fn begin(labels: &mut [i64], inputs: usize, gates: usize, low: i64)
    requires { (length labels.old ≡ inputs + gates) × Small low }
    ensures { Started inputs gates labels.new low }
{
    fill(labels, 0, inputs, 1);
    fill(labels, inputs, inputs + gates, low);
}

// The floor of all labels: 1 − φ·m.
fn floor(phi: usize, m: usize) -> i64
    requires { phi * m ≤ room }
    ensures { result ≡ (pos 1 -ℤ pos (phi * m)) }
{
    minus(1, phi * m)
}

// The floor of gate g raised to the highest of its pins.
fn lift(s: Extent, net: &[usize], labels: &mut [i64], a: Aim, g: usize)
    requires { PinsRead s net.now a.phi a.k × Ready s labels.old a.phi a.k × (g < s.gates) × Floored (wiring s net.now) a.k a.phi labels.old }
    ensures { Floored (wiring s net.now) a.k a.phi labels.new }
{
    let v = s.inputs + g;
    let p = highest(s, net, labels, a.phi, g);
    if higher(labels, v, p) {
        return;
    }
    raise(labels, v, p);
}

// The same for all gates, in the order.
fn lift_all(s: Extent, net: &[usize], labels: &mut [i64], a: Aim)
    requires { PinsRead s net.now a.phi a.k × Ready s labels.old a.phi a.k × Ordered (wiring s net.now) (order_in s net.now) × Floored (wiring s net.now) a.k a.phi labels.old }
    ensures { Floored (wiring s net.now) a.k a.phi labels.new }
{
    for i in 0..s.gates {
        lift(s, net, labels, a, nth(s, net, i));
    }
}

// Floors at the gates, 0 at the inputs.
pub fn floors(s: Extent, net: &[usize], labels: &mut [i64], a: Aim)
    requires { Startable s net.now labels.old a.phi a.k × Ordered (wiring s net.now) (order_in s net.now) }
    ensures { Begun (wiring s net.now) a.k a.phi labels.new }
{
    let m = s.border / a.k;
    let low = floor(a.phi, m);
    begin(labels, s.inputs, s.gates, low);
    lift_all(s, net, labels, a);
    fill(labels, 0, s.inputs, 0);
}
