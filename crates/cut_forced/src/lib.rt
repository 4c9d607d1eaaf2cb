// The forced set of a gate and a threshold: grown by a work list, taken back, and the copies counted that it reads outside it.
#![tactic(auto)]

ghost use Rattle.std.specs.Prelude.{◌≡◌, true, false, [], ◌+◌, ◌-◌, ◌*◌, ◌/◌, ◌%◌, ◌≤◌, ◌<◌};
ghost use Rattle.cut_circuit.specs.Circuit.{feeder, pins_of};
ghost use Rattle.limits.specs.Limits.{most_k, most_pins};
ghost use Rattle.net_model.specs.Copies.{copy};
ghost use Rattle.label_theory.specs.Labels.{Low};
ghost use Rattle.signed.specs.Range.{label_in};
ghost use Rattle.cut_circuit.specs.Packed.{packed_of, SlotAsked};
ghost use Rattle.cut_forced.specs.Asked.{unforced};
ghost use Rattle.cut_forced.specs.Slots.{holding, Unmarked};
ghost use Rattle.cut_forced.specs.Outside.{OneMore, OutsideAsked, PinsOutside, FewAsked, FewTold};
ghost use Rattle.cut_forced.specs.Forcing.{target, HoldAsked, Added, AddAsked, LowAsked, PinAsked, PinTold, MemberAsked, MemberTold, GrowAsked, GrowTold, ForceAsked, ForceTold, SameFrom, Listed};

use cut_circuit::{Extent, Wires, is_forced, number_at, pins_of, put_number, source};
use limits::SLOTS;
use signed::no_higher;

// A question: has the gate a k-cut of at most this height, for period phi?
#[derive(Clone, Copy)]
pub struct Query {
    pub phi: usize,
    pub k: usize,
    pub gate: usize,
    pub height: i64,
}

// What is asked of a net: the question, and the labels that answer it.
#[derive(Clone, Copy)]
pub struct Ask<'a> {
    pub s: Extent,
    pub net: &'a [usize],
    pub labels: &'a [i64],
    pub q: Query,
}

// Whether the copy y is low enough for a leaf.
pub fn low(width: usize, labels: &[i64], phi: usize, h: i64, y: usize) -> bool
    requires { LowAsked width labels.now phi y }
    ensures yes { result ≡ true → Low phi (label_in labels.now) h (copy (y / width) (y % width)) }
    ensures no { result ≡ false → ¬ Low phi (label_in labels.now) h (copy (y / width) (y % width)) }
{
    let u = y / width;
    let l = labels[u];
    no_higher(l, phi * (y % width), h)
}

// Puts d into slot n of gate g, and counts it.
fn hold(gates: usize, slots: &mut [u32], g: usize, n: usize, d: usize)
    requires { HoldAsked gates slots.old g n d }
    ensures { slots.new ≡ holding gates slots.old g n d }
{
    put_number(slots, gates + SLOTS * g + n, d);
    put_number(slots, g, n + 1);
}

// Adds the forced copy y to the m members, unless it is one: how many there are then. Where y is a terminal, or one more of its gate than k, there is no cut, and m stay.
fn add(
    s: Extent,
    slots: &mut [u32],
    members: &mut [u32],
    k: usize,
    m: usize,
    y: usize,
) -> Result<usize, usize>
    requires { AddAsked s.inputs s.gates s.width s.border k slots.old members.old m y }
    ensures { Added s.inputs s.gates s.width s.border k slots.old members.old m y slots.new members.new result }
{
    if is_forced(s, slots, y) {
        return Ok(m);
    }
    let u = y / s.width;
    let d = y % s.width;
    if u < s.inputs {
        return Err(m);
    }
    if s.border < d {
        return Err(m);
    }
    let g = u - s.inputs;
    let n = number_at(slots, g);
    if k <= n {
        return Err(m);
    }
    hold(s.gates, slots, g, n, d);
    put_number(members, m, y);
    Ok(m + 1)
}

// Looks at pin j of the member x: its source may be a leaf, or is forced.
fn force_pin(
    a: Ask,
    slots: &mut [u32],
    members: &mut [u32],
    m: usize,
    x: usize,
    j: usize,
) -> Result<usize, usize>
    requires { PinAsked (unforced a) a.labels.now a.q.phi a.q.k slots.old members.old m x j }
    ensures { PinTold a.entry.s.inputs a.entry.s.gates a.entry.s.width a.entry.s.border a.entry.labels.now a.entry.q.phi a.entry.q.height a.entry.q.k slots.old members.old m (feeder (unforced a.entry) x j) slots.new members.new result }
{
    let y = source(a.s, a.net, x, j);
    if low(a.s.width, a.labels, a.q.phi, a.q.height, y) {
        return Ok(m);
    }
    add(a.s, slots, members, a.q.k, m, y)
}

// Looks at all pins of the member x.
fn force_pins(
    a: Ask,
    slots: &mut [u32],
    members: &mut [u32],
    m: usize,
    x: usize,
) -> Result<usize, usize>
    requires { MemberAsked (unforced a) a.labels.now a.q.phi a.q.height a.q.k slots.old members.old m x }
    ensures { MemberTold (unforced a.entry) a.entry.labels.now a.entry.q.phi a.entry.q.height a.entry.q.k slots.old members.old m x slots.new members.new result }
{
    let n = pins_of(a.s, a.net, x);
    let mut c = m;
    for j in 0..n {
        c = force_pin(a, slots, members, c, x, j)?;
    }
    Ok(c)
}

// Looks at all members, those that are added too.
fn grow(a: Ask, slots: &mut [u32], members: &mut [u32]) -> Result<usize, usize>
    requires { GrowAsked (unforced a) a.labels.now a.q.phi a.q.height a.q.k slots.old members.old }
    ensures { GrowTold (unforced a.entry) a.entry.labels.now a.entry.q.phi a.entry.q.height a.entry.q.k slots.old members.old slots.new members.new result }
{
    let mut m = 1;
    let mut i = 0;
    while i < m {
        let x = number_at(members, i);
        m = force_pins(a, slots, members, m, x)?;
        i += 1;
    }
    Ok(m)
}

// The forced set of gate g and threshold h, in slots and listed: how many copies it has; where there is no cut, how many were forced till then.
// What stands behind the places of the members is kept.
pub fn force(a: Ask, slots: &mut [u32], members: &mut [u32]) -> Result<usize, usize>
    requires { ForceAsked (unforced a) a.labels.now a.q.phi a.q.k a.q.gate slots.old members.old }
    ensures told { ForceTold (unforced a.entry) (target a.entry.labels.now a.entry.q.phi (a.entry.s.inputs + a.entry.q.gate) a.entry.q.height) a.entry.q.k slots.new members.new result }
    ensures behind { SameFrom (a.entry.q.k * a.entry.s.gates) members.old members.new }
{
    let g = a.q.gate;
    let x = (a.s.inputs + g) * a.s.width;
    let most = a.q.k * a.s.gates;
    hold(a.s.gates, slots, g, 0, 0);
    put_number(members, 0, x);
    grow(a, slots, &mut members[..most])
}

// Takes the forced copies of the members' gates away.
pub fn unforce(s: Extent, slots: &mut [u32], members: &[u32])
    requires { Listed s.inputs s.gates s.width slots.old members.now 0 }
    ensures { Unmarked s.gates slots.new }
{
    for x in members {
        let g = *x as usize / s.width - s.inputs;
        put_number(slots, g, 0);
    }
}

// c, and 1 more where copy y is not forced.
fn one_more(w: Wires, y: usize, c: usize) -> usize
    requires slot_asked { SlotAsked w.s w.slots.now y }
    requires c_bound { c ≤ most_k + most_pins }
    ensures { OneMore w.entry.s.inputs w.entry.s.gates w.entry.s.width w.entry.s.border w.entry.slots.now y c result }
{
    if is_forced(w.s, w.slots, y) {
        return c;
    }
    c + 1
}

// c, and 1 more for each pin of the member x that reads a copy which is not forced.
fn outside(w: Wires, x: usize, c: usize) -> usize
    requires outside_asked { OutsideAsked (packed_of w.s w.net.now []) w.slots.now x }
    requires c_le_most_k { c ≤ most_k }
    ensures { PinsOutside (packed_of w.entry.s w.entry.net.now []) w.entry.slots.now x (pins_of (packed_of w.entry.s w.entry.net.now []) x) c result }
{
    let n = pins_of(w.s, w.net, x);
    let mut out = c;
    for j in 0..n {
        let y = source(w.s, w.net, x, j);
        out = one_more(w, y, out);
    }
    out
}

// Whether at most k pins of the members read copies that are not forced.
pub fn few_outside(w: Wires, members: &[u32], k: usize) -> bool
    requires few_asked { FewAsked (packed_of w.s w.net.now []) w.slots.now members.now }
    requires k_le_most_k { k ≤ most_k }
    ensures { result ≡ true → FewTold (packed_of w.entry.s w.entry.net.now []) w.entry.slots.now members.now k }
{
    let mut c = 0;
    for x in members {
        c = outside(w, *x as usize, c);
        if k < c {
            return false;
        }
    }
    true
}
