// One visit of a gate: its label raised to what every labelling reaches, unless nothing can change or it would pass its ceiling.
#![tactic(auto)]

ghost use Rattle.std.specs.Prelude.{◌≡◌, true, false, ◌+◌, ◌*◌, ◌≤◌, ◌<◌, pos, ◌+ℤ◌, length, get_or, set, ◌≤ℤ◌, ◌<ℤ◌};
ghost use Rattle.net_model.specs.PackedNet.{tops_at};
ghost use Rattle.signed.specs.Range.{Small, room, label_in};
ghost use Rattle.cut_circuit.specs.Packed.{packed_of};
ghost use Rattle.cut_question.specs.Separating.{AtRest};
ghost use Rattle.label_aim.specs.Aims.{mode_of, rise_in};
ghost use Rattle.label_visit.specs.LabelVisits.{wiring, tops_in, PinsFit, PinMax, Raised, Ready, Ceilings, Answered, Visited};

use cut_circuit::Extent;
use cut_forced::Query;
use cut_kept::serves;
use cut_question::question;
use label_aim::{Aim, narrowed, too_high};
use label_pins::{Pins, best_pin, pin_height};
use limits::PINS;
use signed::{no_higher, plus_one, whole};

// A label would pass its gate's ceiling.
#[derive(Clone, Copy, Debug, PartialEq, Eq)]
pub struct PastCeiling;

// Raises a label to p: whether it was lower.
pub fn raise(labels: &mut [i64], v: usize, p: i64) -> bool
    requires { (v < length labels.old) × Small (label_in labels.old v) × (label_in labels.old v ≤ℤ p) }
    ensures { Raised labels.old labels.new v p result }
{
    if labels[v] < p {
        labels[v] = p;
        true
    } else {
        false
    }
}

// One above p.
fn lift(labels: &mut [i64], v: usize, p: i64)
    requires { (v < length labels.old) × Small p }
    ensures { labels.new ≡ set labels.old v (p +ℤ pos 1) }
{
    labels[v] = plus_one(p);
}

// Whether p is below the ceiling.
fn below(p: i64, top: usize) -> bool
    requires { Small p × (top ≤ room) }
    ensures yes { result ≡ true → p <ℤ pos top }
    ensures no { result ≡ false → pos top ≤ℤ p }
{
    let t = whole(top);
    no_higher(p, 0, t)
}

// Gate g's own ceiling, in periods.
fn own_top(s: Extent, net: &[usize], g: usize) -> usize
    requires { tops_at s.inputs s.gates + g < length net.now }
    ensures { result ≡ get_or net.now (tops_at s.inputs s.gates + g) 0 }
{
    net[(2 + 3 * PINS) * s.gates + (s.inputs + s.gates) + s.gates + g]
}

// The ceiling of gate g, in periods: one for all gates, or its own.
pub fn top_of(s: Extent, net: &[usize], cap: Option<usize>, g: usize) -> usize
    requires { (g < s.gates) × (s.gates ≤ length (tops_in s net.now cap)) }
    ensures { result ≡ get_or (tops_in s net.now cap) g 0 }
{
    match cap {
        Some(top) => top,
        None => own_top(s, net, g),
    }
}

// Whether gate g has a k-cut no higher than p whose cone suits the mode. A kept cut that is low enough is one.
fn ask(
    s: Extent,
    net: &[usize],
    slots: &mut [u32],
    table: &mut [u8],
    list: &mut [u32],
    stack: &mut [u32],
    counts: &mut [u32],
    members: &mut [u32],
    labels: &[i64],
    a: Aim,
    g: usize,
    p: i64,
) -> bool
    requires at_rest { AtRest (packed_of s net.now slots.old) table.old list.old stack.old counts.old members.old }
    requires ready { Ready s labels.now a.phi a.k × (g < s.gates) × Small p }
    ensures at_rest_2 { AtRest (packed_of s net.now slots.new) table.new list.new stack.new counts.new members.new }
    ensures answered { Answered (mode_of a.forward) (rise_in s a) (wiring s net.now) a.k a.phi labels.now g p result }
{
    if too_high(s, a, p) {
        return false;
    }
    let e = narrowed(s, a, p);
    let q = Query {
        phi: a.phi,
        k: a.k,
        gate: g,
        height: p,
    };
    if serves(e, members, labels, q) {
        return true;
    }
    question(
        e, net, slots, table, list, stack, counts, members, labels, q,
    )
}

// Gate g, whose pins' largest is p: its label becomes p, or p + 1 where there is no k-cut of height p, unless it would pass its ceiling.
fn try_label(
    s: Extent,
    net: &[usize],
    slots: &mut [u32],
    table: &mut [u8],
    list: &mut [u32],
    stack: &mut [u32],
    counts: &mut [u32],
    members: &mut [u32],
    labels: &mut [i64],
    a: Aim,
    g: usize,
    p: i64,
) -> Result<bool, PastCeiling>
    requires at_rest { AtRest (packed_of s net.now slots.old) table.old list.old stack.old counts.old members.old }
    requires ready { Ready s labels.old a.phi a.k × (g < s.gates) × Ceilings (wiring s net.now) a.phi (tops_in s net.now a.cap) }
    requires pin_max { PinMax (wiring s net.now) labels.old a.phi g p × (label_in labels.old (s.inputs + g) ≤ℤ p) × Small p }
    ensures at_rest_2 { AtRest (packed_of s net.now slots.new) table.new list.new stack.new counts.new members.new }
    ensures visited { Visited (mode_of a.forward) (rise_in s a) (wiring s net.now) a.k a.phi (tops_in s net.now a.cap) labels.old labels.new g result }
{
    let v = s.inputs + g;
    let top = a.phi * top_of(s, net, a.cap, g);
    if below(p, top + 1) {
        let rose = raise(labels, v, p);
        if ask(
            s, net, slots, table, list, stack, counts, members, labels, a, g, p,
        ) {
            return Ok(rose);
        }
        if below(p, top) {
            lift(labels, v, p);
            return Ok(true);
        }
    }
    Err(PastCeiling)
}

// The largest of gate g's pins.
pub fn highest(s: Extent, net: &[usize], labels: &[i64], phi: usize, g: usize) -> i64
    requires { PinsFit s net.now labels.now phi g }
    ensures { PinMax (wiring s net.now) labels.now phi g result }
{
    let a = 2 * s.gates;
    let b = (2 + PINS) * s.gates;
    let at = PINS * g;
    let pins = Pins {
        sources: &net[a..],
        counts: &net[b..],
    };
    let best = best_pin(pins, labels, phi, at, net[g]);
    pin_height(pins, labels, phi, at + best)
}

// One visit of gate g: whether its label rose, or that it would pass its ceiling. Where it did not rise nothing can change.
pub fn visit(
    s: Extent,
    net: &[usize],
    slots: &mut [u32],
    table: &mut [u8],
    list: &mut [u32],
    stack: &mut [u32],
    counts: &mut [u32],
    members: &mut [u32],
    labels: &mut [i64],
    a: Aim,
    g: usize,
) -> Result<bool, PastCeiling>
    requires at_rest { AtRest (packed_of s net.now slots.old) table.old list.old stack.old counts.old members.old }
    requires ready { Ready s labels.old a.phi a.k × (g < s.gates) × Ceilings (wiring s net.now) a.phi (tops_in s net.now a.cap) }
    ensures at_rest_2 { AtRest (packed_of s net.now slots.new) table.new list.new stack.new counts.new members.new }
    ensures visited { Visited (mode_of a.forward) (rise_in s a) (wiring s net.now) a.k a.phi (tops_in s net.now a.cap) labels.old labels.new g result }
{
    let v = s.inputs + g;
    let p = highest(s, net, labels, a.phi, g);
    if higher(labels, v, p) {
        return Ok(false);
    }
    try_label(
        s, net, slots, table, list, stack, counts, members, labels, a, g, p,
    )
}

// Whether a label is higher than p.
pub fn higher(labels: &[i64], v: usize, p: i64) -> bool
    requires { (v < length labels.now) × Small (label_in labels.now v) }
    ensures yes { result ≡ true → p <ℤ label_in labels.now v }
    ensures no { result ≡ false → label_in labels.now v ≤ℤ p }
{
    p < labels[v]
}
