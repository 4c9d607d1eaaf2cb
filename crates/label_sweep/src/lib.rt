// The label sweep: labels raised from below, sweep after sweep, until nothing can change or a label would pass its ceiling.
#![tactic(auto)]

ghost use Rattle.std.specs.Prelude.{◌≡◌, true, false, ℕ, ◌≤◌, ◌<◌, pos, length, ◌≤ℤ◌, ◌<ℤ◌};
ghost use Rattle.net_model.specs.PackedNet.{packed_room};
ghost use Rattle.signed.specs.Range.{Small, room, label_in};
ghost use Rattle.cut_circuit.specs.Packed.{packed_of};
ghost use Rattle.cut_question.specs.Separating.{AtRest};
ghost use Rattle.label_aim.specs.Aims.{mode_of, rise_in};
ghost use Rattle.label_visit.specs.LabelVisits.{wiring, tops_in, Ready, Fine, Ceilings};
ghost use Rattle.label_pins.specs.PinHeights.{height_at, PinFits};
ghost use Rattle.label_sweep.specs.Sweeps.{order_in, outs_in, delays_in, Ordered, SettleTold, OutsMet, OutFits, AllLow, Ends, Sized, Labelled};

use cut_circuit::Extent;
use label_aim::Aim;
use label_climb::{next_width, round};
use label_pins::{Pins, pin_height};
use label_start::floors;
use label_visit::{PastCeiling, higher};
use limits::PINS;
use signed::whole;

// Sweeps, with trials where labels keep rising, until nothing can change or a label would pass its ceiling.
fn sweep_all(
    s: Extent,
    net: &[usize],
    slots: &mut [u32],
    table: &mut [u8],
    list: &mut [u32],
    stack: &mut [u32],
    counts: &mut [u32],
    members: &mut [u32],
    labels: &mut [i64],
    a: Aim,
) -> Result<(), PastCeiling>
    requires at_rest { AtRest (packed_of s net.now slots.old) table.old list.old stack.old counts.old members.old }
    requires ready { Ready s labels.old a.phi a.k × Ordered (wiring s net.now) (order_in s net.now) × Ceilings (wiring s net.now) a.phi (tops_in s net.now a.cap) }
    ensures at_rest_2 { AtRest (packed_of s net.now slots.new) table.new list.new stack.new counts.new members.new }
    ensures settle_told { SettleTold (mode_of a.forward) (rise_in s a) (wiring s net.now) a.k a.phi (tops_in s net.now a.cap) labels.old labels.new result }
{
    let mut stop = s.gates;
    let mut w = 1;
    while stop > 0 {
        stop = round(
            s, net, slots, table, list, stack, counts, members, labels, a, stop, w,
        )?;
        w = next_width(w);
    }
    Ok(())
}

// Whether the label at output i, less its registers, is above φ.
fn output_high(outs: Pins, labels: &[i64], phi: usize, i: usize) -> bool
    requires { PinFits outs.sources.now outs.counts.now labels.now phi i × (phi ≤ room) }
    ensures yes { result ≡ true → pos phi <ℤ height_at outs.entry.sources.now outs.entry.counts.now labels.now phi i }
    ensures no { result ≡ false → height_at outs.entry.sources.now outs.entry.counts.now labels.now phi i ≤ℤ pos phi }
{
    let p = whole(phi);
    let h = pin_height(outs, labels, phi, i);
    p < h
}

// Whether all outputs are met.
fn outputs_met(outs: Pins, labels: &[i64], phi: usize, n: usize) -> bool
    requires { OutFits outs.sources.now outs.counts.now labels.now phi n }
    ensures yes { result ≡ true → OutsMet outs.entry.sources.now outs.entry.counts.now labels.now phi n }
    ensures no { result ≡ false → ¬ OutsMet outs.entry.sources.now outs.entry.counts.now labels.now phi n }
{
    (0..n).all(|i| !output_high(outs, labels, phi, i))
}

// The same for the outputs in the net's slice.
fn met(s: Extent, net: &[usize], labels: &[i64], a: Aim) -> bool
    requires outputs_in_bounds { packed_room s.inputs s.gates a.outputs ≤ length net.now }
    requires out_fits { OutFits (outs_in s net.now) (delays_in s net.now a.outputs) labels.now a.phi a.outputs }
    ensures yes { result ≡ true → OutsMet (outs_in s net.now) (delays_in s net.now a.outputs) labels.now a.phi a.outputs }
    ensures no { result ≡ false → ¬ OutsMet (outs_in s net.now) (delays_in s net.now a.outputs) labels.now a.phi a.outputs }
{
    let y = (2 + 3 * PINS) * s.gates + (s.inputs + s.gates) + s.gates + s.gates;
    let d = y + a.outputs;
    let outs = Pins {
        sources: &net[y..],
        counts: &net[d..],
    };
    outputs_met(outs, labels, a.phi, a.outputs)
}

// Whether the label at place v is above the period.
fn label_high(labels: &[i64], v: usize, phi: usize) -> bool
    requires { (v < length labels.now) × Small (label_in labels.now v) × (phi ≤ room) }
    ensures yes { result ≡ true → pos phi <ℤ label_in labels.now v }
    ensures no { result ≡ false → label_in labels.now v ≤ℤ pos phi }
{
    higher(labels, v, whole(phi))
}

// Whether no label from one place up to another is above the period.
fn all_low(labels: &[i64], from: usize, to: usize, phi: usize) -> bool
    requires to_in_bounds { (to ≤ length labels.now) × (phi ≤ room) }
    requires by_index { (u : ℕ) → Small (label_in labels.now u) }
    ensures yes { result ≡ true → AllLow labels.now from to phi }
    ensures no { result ≡ false → ¬ AllLow labels.now from to phi }
{
    (from..to).all(|v| !label_high(labels, v, phi))
}

// Whether labels at rest are those of covers that suit the mode: the outputs are met; in forward mode no label is above the period.
fn ends(s: Extent, net: &[usize], labels: &[i64], a: Aim) -> bool
    requires outputs_in_bounds { packed_room s.inputs s.gates a.outputs ≤ length net.now }
    requires out_fits { OutFits (outs_in s net.now) (delays_in s net.now a.outputs) labels.now a.phi a.outputs × Fine (wiring s net.now) labels.now }
    ensures yes { result ≡ true → Ends (mode_of a.forward) (wiring s net.now) (outs_in s net.now) (delays_in s net.now a.outputs) labels.now a.phi a.outputs }
    ensures no { result ≡ false → ¬ Ends (mode_of a.forward) (wiring s net.now) (outs_in s net.now) (delays_in s net.now a.outputs) labels.now a.phi a.outputs }
{
    if a.forward {
        all_low(labels, s.inputs, s.inputs + s.gates, a.phi)
    } else {
        met(s, net, labels, a)
    }
}

// The least labelling for φ, where it meets the outputs. Else no labelling does: the target is not reachable.
pub fn reach(
    s: Extent,
    net: &[usize],
    slots: &mut [u32],
    table: &mut [u8],
    list: &mut [u32],
    stack: &mut [u32],
    counts: &mut [u32],
    members: &mut [u32],
    labels: &mut [i64],
    a: Aim,
) -> bool
    requires at_rest { AtRest (packed_of s net.now slots.old) table.old list.old stack.old counts.old members.old }
    requires outputs_in_bounds { packed_room s.inputs s.gates a.outputs ≤ length net.now }
    requires sized { Sized s labels.old (outs_in s net.now) (delays_in s net.now a.outputs) a.phi a.k a.outputs × Ordered (wiring s net.now) (order_in s net.now) × Ceilings (wiring s net.now) a.phi (tops_in s net.now a.cap) × (a.trial ≡ false) }
    ensures at_rest_2 { AtRest (packed_of s net.now slots.new) table.new list.new stack.new counts.new members.new }
    ensures labelled { Labelled (mode_of a.forward) (wiring s net.now) a.k a.phi (tops_in s net.now a.cap) (outs_in s net.now) (delays_in s net.now a.outputs) a.outputs labels.new result }
{
    floors(s, net, labels, a);
    let swept = sweep_all(
        s, net, slots, table, list, stack, counts, members, labels, a,
    );
    swept.is_ok() && ends(s, net, labels, a)
}
