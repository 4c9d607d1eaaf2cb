// Labels that climb for ever: a trial raises those that rose of late by far; where each rises further and a ceiling is passed, the target is not reachable.
#![tactic(auto)]

ghost use Rattle.std.specs.Prelude.{◌≡◌, true, false, ℕ, ◌+◌, ◌*◌, ◌≤◌, ◌<◌, pos, length, get_or, ◌<ℤ◌};
ghost use Rattle.signed.specs.Range.{Small, room, label_in};
ghost use Rattle.cut_circuit.specs.Packed.{packed_of};
ghost use Rattle.cut_question.specs.Separating.{AtRest};
ghost use Rattle.label_aim.specs.Aims.{mode_of, rise_in};
ghost use Rattle.label_visit.specs.LabelVisits.{wiring, tops_in, Ready, Ceilings};
ghost use Rattle.label_pass.specs.Passes.{order_in, Ordered, QuietFrom, Progress};
ghost use Rattle.label_climb.specs.Trials.{Copied, Nudge, Hoisted, Lent, RoseFurther, AllRose, Over, Accepted, TrialTold, Roomy};

use cut_circuit::Extent;
use label_aim::Aim;
use label_pass::{sweep, sweep_some};
use label_visit::{PastCeiling, top_of};
use limits::NODES;
use signed::{no_higher, plus_one, whole};

// No label of a trial goes higher.
const MOST: i64 = 1099511627776;

// The ceilings of a trial, in periods, and the greatest period that they suit.
const CAP: usize = 1048575;

// The first n labels.
fn copy(from: &[i64], to: &mut [i64], n: usize)
    requires { (n ≤ length from.now) × (n ≤ length to.old) }
    ensures { Copied from.now to.old to.new n }
{
    to[..n].copy_from_slice(&from[..n]);
}

// A label and d more, where it stays small.
fn higher(label: i64, d: usize) -> i64
    requires { Small label × (d ≤ room) }
    ensures { Nudge label d result }
{
    let s = whole(d);
    let z = label + s;
    if z < MOST { z } else { label }
}

// Raises the label of v by d where it rose of late.
fn nudge(labels: &mut [i64], old: &[i64], v: usize, d: usize)
    requires { (v < length labels.old) × (v < length old.now) × Small (label_in labels.old v) × (d ≤ room) }
    ensures { Hoisted old.now labels.old labels.new v (v + 1) d }
{
    if old[v] < labels[v] {
        labels[v] = higher(labels[v], d);
    }
}

// Raises all such labels from one place up to another.
fn hoist(labels: &mut [i64], old: &[i64], from: usize, to: usize, d: usize)
    requires { Lent labels.old old.now from to × (d ≤ room) }
    ensures { Hoisted old.now labels.old labels.new from to d }
{
    for v in from..to {
        nudge(labels, old, v, d);
    }
}

// Whether the label of v rose of late and did not rise by more than d since.
fn fell_short(old: &[i64], saved: &[i64], labels: &[i64], v: usize, d: usize) -> bool
    requires { (v < length old.now) × (v < length saved.now) × (v < length labels.now) × Small (label_in saved.now v) × Small (label_in labels.now v) × (d ≤ room) }
    ensures { result ≡ false → RoseFurther old.now saved.now labels.now d v }
{
    if old[v] < saved[v] {
        let z = plus_one(saved[v]);
        return no_higher(labels[v], d, z);
    }
    false
}

// Whether none of the nodes from one place up to another did.
fn all_rose(old: &[i64], saved: &[i64], labels: &[i64], from: usize, to: usize, d: usize) -> bool
    requires { Lent saved.now old.now from to × Lent labels.now old.now from to × (d ≤ room) }
    ensures { result ≡ true → AllRose old.now saved.now labels.now from to d }
{
    (from..to).all(|v| !fell_short(old, saved, labels, v, d))
}

// Whether the label of gate g is above its ceiling.
fn past(s: Extent, net: &[usize], labels: &[i64], a: Aim, g: usize) -> bool
    requires gate { (g < s.gates) × (s.inputs + s.gates ≤ length labels.now) × Small (label_in labels.now (s.inputs + g)) }
    requires ceilings { Ceilings (wiring s net.now) a.phi (tops_in s net.now a.cap) }
    ensures { result ≡ true → pos (a.phi * get_or (tops_in s net.now a.cap) g 0) <ℤ label_in labels.now (s.inputs + g) }
{
    let v = s.inputs + g;
    let t = whole(a.phi * top_of(s, net, a.cap, g));
    t < labels[v]
}

// Whether a gate's label is above its ceiling.
fn over(s: Extent, net: &[usize], labels: &[i64], a: Aim) -> bool
    requires gates_in_bounds { (s.inputs + s.gates ≤ length labels.now) × Ceilings (wiring s net.now) a.phi (tops_in s net.now a.cap) }
    requires by_index { (u : ℕ) → u < s.inputs + s.gates → Small (label_in labels.now u) }
    ensures { result ≡ true → Over s.inputs s.gates a.phi (tops_in s net.now a.cap) labels.now }
{
    (0..s.gates).any(|g| past(s, net, labels, a, g))
}

// Whether the trial shows that the labels climb past a ceiling.
fn accepted(
    s: Extent,
    net: &[usize],
    old: &[i64],
    saved: &[i64],
    labels: &[i64],
    a: Aim,
    d: usize,
) -> bool
    requires lent { Lent saved.now old.now s.inputs (s.inputs + s.gates) × Lent labels.now old.now s.inputs (s.inputs + s.gates) × (d ≤ room) }
    requires ceilings { Ceilings (wiring s net.now) a.phi (tops_in s net.now a.cap) }
    ensures { result ≡ true → Accepted s.inputs s.gates a.phi old.now saved.now labels.now (tops_in s net.now a.cap) d }
{
    all_rose(old, saved, labels, s.inputs, s.inputs + s.gates, d) && over(s, net, labels, a)
}

// A trial of up to w sweeps over the labels that are above the old ones: whether it refutes the target. The labels are then as before.
fn trial(
    s: Extent,
    net: &[usize],
    slots: &mut [u32],
    table: &mut [u8],
    list: &mut [u32],
    stack: &mut [u32],
    counts: &mut [u32],
    members: &mut [u32],
    labels: &mut [i64],
    saved: &mut [i64],
    old: &[i64],
    a: Aim,
    w: usize,
) -> bool
    requires at_rest { AtRest (packed_of s net.now slots.old) table.old list.old stack.old counts.old members.old }
    requires ready { Ready s labels.old a.phi a.k × Ordered (wiring s net.now) (order_in s net.now) × Ceilings (wiring s net.now) a.phi (tops_in s net.now a.cap) × Roomy (s.inputs + s.gates) a.phi }
    requires gates_in_bounds { (s.inputs + s.gates ≤ length saved.old) × (s.inputs + s.gates ≤ length old.now) }
    ensures at_rest_2 { AtRest (packed_of s net.now slots.new) table.new list.new stack.new counts.new members.new }
    ensures trial_told { TrialTold (mode_of a.forward) (wiring s net.now) a.k a.phi (tops_in s net.now a.cap) labels.old labels.new result }
{
    let d = a.phi * s.width;
    let to = s.inputs + s.gates;
    copy(labels, saved, to);
    hoist(labels, old, s.inputs, to, d);
    let far = Aim {
        cap: Some(CAP),
        trial: true,
        ..a
    };
    let _ = sweep_some(
        s, net, slots, table, list, stack, counts, members, labels, far, s.gates, w,
    );
    let r = accepted(s, net, old, saved, labels, a, d);
    copy(saved, labels, to);
    r
}

// Up to w sweeps, then a trial over the labels that rose in them.
fn leap(
    s: Extent,
    net: &[usize],
    slots: &mut [u32],
    table: &mut [u8],
    list: &mut [u32],
    stack: &mut [u32],
    counts: &mut [u32],
    members: &mut [u32],
    labels: &mut [i64],
    a: Aim,
    stop: usize,
    w: usize,
) -> Result<usize, PastCeiling>
    requires at_rest { AtRest (packed_of s net.now slots.old) table.old list.old stack.old counts.old members.old }
    requires ready { Ready s labels.old a.phi a.k × Ordered (wiring s net.now) (order_in s net.now) × Ceilings (wiring s net.now) a.phi (tops_in s net.now a.cap) }
    requires stop_le_gates { (stop ≤ s.gates) × QuietFrom (mode_of a.forward) (rise_in s a) (wiring s net.now) a.k a.phi (tops_in s net.now a.cap) (order_in s net.now) labels.old stop }
    requires roomy { Roomy (s.inputs + s.gates) a.phi }
    ensures at_rest_2 { AtRest (packed_of s net.now slots.new) table.new list.new stack.new counts.new members.new }
    ensures progress { Progress (mode_of a.forward) (rise_in s a) (wiring s net.now) a.k a.phi (tops_in s net.now a.cap) (order_in s net.now) labels.old labels.new result }
{
    let mut old = [0i64; NODES];
    copy(labels, &mut old, s.inputs + s.gates);
    let last = sweep_some(
        s, net, slots, table, list, stack, counts, members, labels, a, stop, w,
    )?;
    if last > 0 {
        let mut saved = [0i64; NODES];
        if trial(
            s, net, slots, table, list, stack, counts, members, labels, &mut saved, &old, a, w,
        ) {
            return Err(PastCeiling);
        }
    }
    Ok(last)
}

// Whether it is too early for a trial, or its arrays are too short.
fn early(w: usize, nodes: usize, phi: usize) -> bool
    ensures { result ≡ false → Roomy nodes phi }
{
    nodes > NODES || phi > CAP || w < 4
}

// One sweep, or, from the fourth round on, some and a trial.
pub fn round(
    s: Extent,
    net: &[usize],
    slots: &mut [u32],
    table: &mut [u8],
    list: &mut [u32],
    stack: &mut [u32],
    counts: &mut [u32],
    members: &mut [u32],
    labels: &mut [i64],
    a: Aim,
    stop: usize,
    w: usize,
) -> Result<usize, PastCeiling>
    requires at_rest { AtRest (packed_of s net.now slots.old) table.old list.old stack.old counts.old members.old }
    requires ready { Ready s labels.old a.phi a.k × Ordered (wiring s net.now) (order_in s net.now) × Ceilings (wiring s net.now) a.phi (tops_in s net.now a.cap) }
    requires stop_le_gates { (stop ≤ s.gates) × QuietFrom (mode_of a.forward) (rise_in s a) (wiring s net.now) a.k a.phi (tops_in s net.now a.cap) (order_in s net.now) labels.old stop }
    ensures at_rest_2 { AtRest (packed_of s net.now slots.new) table.new list.new stack.new counts.new members.new }
    ensures progress { Progress (mode_of a.forward) (rise_in s a) (wiring s net.now) a.k a.phi (tops_in s net.now a.cap) (order_in s net.now) labels.old labels.new result }
{
    if early(w, s.inputs + s.gates, a.phi) {
        return sweep(
            s, net, slots, table, list, stack, counts, members, labels, a, stop,
        );
    }
    leap(
        s,
        net,
        slots,
        table,
        list,
        stack,
        counts,
        members,
        labels,
        a,
        stop,
        w / 2,
    )
}

// The width of the next round: it counts to 4, then doubles up to 64.
pub fn next_width(w: usize) -> usize {
    if w < 4 {
        w + 1
    } else if w < 64 {
        2 * w
    } else {
        w
    }
}
