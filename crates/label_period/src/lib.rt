// The least period: small ones are asked from 1 up, larger ones by halves, up to the longest line of gates without registers.
#![tactic(auto)]

ghost use Rattle.std.specs.Prelude.{◌≤◌, ◌<◌, length};
ghost use Rattle.net_model.specs.PackedNet.{packed_room};
ghost use Rattle.cut_circuit.specs.Packed.{packed_of};
ghost use Rattle.cut_question.specs.Separating.{AtRest};
ghost use Rattle.label_aim.specs.Aims.{mode_of};
ghost use Rattle.label_visit.specs.LabelVisits.{wiring, tops_in, Ceilings};
ghost use Rattle.label_sweep.specs.Sweeps.{order_in, outs_in, delays_in, Sized, Ordered};
ghost use Rattle.label_period.specs.PeriodSearch.{NoneBelow, Halved, Period};

use cut_circuit::Extent;
use label_aim::Aim;
use label_lines::longest_line;
use label_sweep::reach;

// Periods below this one are asked from 1 up.
const FEW: usize = 8;

// The least period from low on, where no smaller one is reachable: what is left is halved until one period is.
fn halve(
    s: Extent,
    net: &[usize],
    slots: &mut [u32],
    table: &mut [u8],
    list: &mut [u32],
    stack: &mut [u32],
    counts: &mut [u32],
    members: &mut [u32],
    labels: &mut [i64],
    a: Aim,
    from: usize,
) -> usize
    requires at_rest { AtRest (packed_of s net.now slots.old) table.old list.old stack.old counts.old members.old }
    requires outputs_in_bounds { packed_room s.inputs s.gates a.outputs ≤ length net.now }
    requires sized { Sized s labels.old (outs_in s net.now) (delays_in s net.now a.outputs) s.gates a.k a.outputs × Ordered (wiring s net.now) (order_in s net.now) × Ceilings (wiring s net.now) s.gates (tops_in s net.now a.cap) }
    requires le_from { (1 ≤ from) × (from ≤ s.gates) × NoneBelow (mode_of a.forward) (wiring s net.now) a.k (tops_in s net.now a.cap) (outs_in s net.now) (delays_in s net.now a.outputs) a.outputs from }
    ensures at_rest_2 { AtRest (packed_of s net.now slots.new) table.new list.new stack.new counts.new members.new }
    ensures halved { Halved (mode_of a.forward) (wiring s net.now) a.k (tops_in s net.now a.cap) (outs_in s net.now) (delays_in s net.now a.outputs) a.outputs result result }
{
    let mut low = from;
    let mut high = longest_line(s, net, from);
    while low < high {
        let phi = low + (high - low) / 2;
        let b = Aim {
            phi,
            trial: false,
            ..a
        };
        if reach(
            s, net, slots, table, list, stack, counts, members, labels, b,
        ) {
            high = phi;
        } else {
            low = phi + 1;
        }
    }
    low
}

// The least period that is reachable, with its least labelling left in labels; the aim's own period is not looked at.
pub fn least_period(
    s: Extent,
    net: &[usize],
    slots: &mut [u32],
    table: &mut [u8],
    list: &mut [u32],
    stack: &mut [u32],
    counts: &mut [u32],
    members: &mut [u32],
    labels: &mut [i64],
    a: Aim,
) -> usize
    requires at_rest { AtRest (packed_of s net.now slots.old) table.old list.old stack.old counts.old members.old }
    requires outputs_in_bounds { packed_room s.inputs s.gates a.outputs ≤ length net.now }
    requires sized { Sized s labels.old (outs_in s net.now) (delays_in s net.now a.outputs) s.gates a.k a.outputs × Ordered (wiring s net.now) (order_in s net.now) × Ceilings (wiring s net.now) s.gates (tops_in s net.now a.cap) × (1 ≤ s.gates) }
    ensures at_rest_2 { AtRest (packed_of s net.now slots.new) table.new list.new stack.new counts.new members.new }
    ensures period { Period (mode_of a.forward) (wiring s net.now) a.k (tops_in s net.now a.cap) (outs_in s net.now) (delays_in s net.now a.outputs) a.outputs labels.new result }
{
    let end = s.gates.min(FEW);
    for phi in 1..end {
        let b = Aim {
            phi,
            trial: false,
            ..a
        };
        if reach(
            s, net, slots, table, list, stack, counts, members, labels, b,
        ) {
            return phi;
        }
    }
    let low = halve(
        s, net, slots, table, list, stack, counts, members, labels, a, end,
    );
    let last = Aim {
        phi: low,
        trial: false,
        ..a
    };
    reach(
        s, net, slots, table, list, stack, counts, members, labels, last,
    );
    low
}
