// One sweep over the gates, and some in a row: labels raised from below, gate by gate.
#![tactic(auto)]

ghost use Rattle.std.specs.Prelude.{◌≡◌, ◌≤◌, ◌<◌, length, get_or};
ghost use Rattle.cut_circuit.specs.Packed.{packed_of};
ghost use Rattle.cut_question.specs.Separating.{AtRest};
ghost use Rattle.label_aim.specs.Aims.{mode_of, rise_in};
ghost use Rattle.label_visit.specs.LabelVisits.{wiring, tops_in, Ready, Ceilings};
ghost use Rattle.label_pass.specs.Passes.{order_in, Ordered, QuietFrom, SweepTold, Progress};

use cut_circuit::Extent;
use label_aim::Aim;
use label_visit::{PastCeiling, visit};
use limits::PINS;

// The gate at place i of the order.
pub fn nth(s: Extent, net: &[usize], i: usize) -> usize
    requires { (i < s.gates) × (s.gates ≤ length (order_in s net.now)) }
    ensures { result ≡ get_or (order_in s net.now) i 0 }
{
    net[(2 + 3 * PINS) * s.gates + (s.inputs + s.gates) + i]
}

// One sweep over the gates in an order, up to place stop, or over all of them once a label rose: from stop on nothing can change unless one rises.
// The place behind the last rise, 0 where nothing can change, or that a label would pass its ceiling.
pub fn sweep(
    s: Extent,
    net: &[usize],
    slots: &mut [u32],
    table: &mut [u8],
    list: &mut [u32],
    stack: &mut [u32],
    counts: &mut [u32],
    members: &mut [u32],
    labels: &mut [i64],
    a: Aim,
    stop: usize,
) -> Result<usize, PastCeiling>
    requires at_rest { AtRest (packed_of s net.now slots.old) table.old list.old stack.old counts.old members.old }
    requires ready { Ready s labels.old a.phi a.k × Ordered (wiring s net.now) (order_in s net.now) × Ceilings (wiring s net.now) a.phi (tops_in s net.now a.cap) }
    requires stop_le_gates { (stop ≤ s.gates) × QuietFrom (mode_of a.forward) (rise_in s a) (wiring s net.now) a.k a.phi (tops_in s net.now a.cap) (order_in s net.now) labels.old stop }
    ensures at_rest_2 { AtRest (packed_of s net.now slots.new) table.new list.new stack.new counts.new members.new }
    ensures sweep_told { SweepTold (mode_of a.forward) (rise_in s a) (wiring s net.now) a.k a.phi (tops_in s net.now a.cap) (order_in s net.now) labels.old labels.new result }
{
    let mut last = 0;
    let mut end = stop;
    let mut i = 0;
    while i < end {
        let rose = visit(
            s,
            net,
            slots,
            table,
            list,
            stack,
            counts,
            members,
            labels,
            a,
            nth(s, net, i),
        )?;
        i += 1;
        if rose {
            last = i;
            end = s.gates;
        }
    }
    Ok(last)
}

// One sweep, and more up to w, as long as labels rise and none would pass its ceiling: what the last one told.
pub fn sweep_some(
    s: Extent,
    net: &[usize],
    slots: &mut [u32],
    table: &mut [u8],
    list: &mut [u32],
    stack: &mut [u32],
    counts: &mut [u32],
    members: &mut [u32],
    labels: &mut [i64],
    a: Aim,
    stop: usize,
    w: usize,
) -> Result<usize, PastCeiling>
    requires at_rest { AtRest (packed_of s net.now slots.old) table.old list.old stack.old counts.old members.old }
    requires ready { Ready s labels.old a.phi a.k × Ordered (wiring s net.now) (order_in s net.now) × Ceilings (wiring s net.now) a.phi (tops_in s net.now a.cap) }
    requires stop_le_gates { (stop ≤ s.gates) × QuietFrom (mode_of a.forward) (rise_in s a) (wiring s net.now) a.k a.phi (tops_in s net.now a.cap) (order_in s net.now) labels.old stop }
    ensures at_rest_2 { AtRest (packed_of s net.now slots.new) table.new list.new stack.new counts.new members.new }
    ensures progress { Progress (mode_of a.forward) (rise_in s a) (wiring s net.now) a.k a.phi (tops_in s net.now a.cap) (order_in s net.now) labels.old labels.new result }
{
    let mut last = sweep(
        s, net, slots, table, list, stack, counts, members, labels, a, stop,
    )?;
    for _ in 1..w {
        if last == 0 {
            return Ok(0);
        }
        last = sweep(
            s, net, slots, table, list, stack, counts, members, labels, a, last,
        )?;
    }
    Ok(last)
}
