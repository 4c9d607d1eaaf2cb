// The cover of a net that passed the checks, plain or forward: period, labels, chosen roots, their cuts and tables, kept in slices.
#![tactic(auto)]

ghost use Rattle.std.specs.Prelude.{◌≡◌, false, ◌+◌, ◌-◌, ◌*◌, ◌≤◌, ◌<◌, length};
ghost use Rattle.net_model.specs.Arrays.{net_in};
ghost use Rattle.limits.specs.Limits.{most_table};
ghost use Rattle.net_model.specs.PackedNet.{packed_room};
ghost use Rattle.net_reader.specs.ReadAnswer.{arrays_of};
ghost use Rattle.cut_circuit.specs.Packed.{packed_of};
ghost use Rattle.cut_question.specs.Separating.{AtRest};
ghost use Rattle.label_aim.specs.Aims.{mode_of};
ghost use Rattle.label_visit.specs.LabelVisits.{wiring, tops_in};
ghost use Rattle.label_sweep.specs.Sweeps.{order_in, outs_in, delays_in};
ghost use Rattle.job_plan.specs.Counts.{MostCount, Counted, SumCounts, Extending, ExtentOf};
ghost use Rattle.cover_records.specs.Rows.{kept_in};
ghost use Rattle.job_plan.specs.Found.{cap_in, PeriodAsked, PeriodFound};
ghost use Rattle.job_plan.specs.Planned.{Planned, Planning, PlanKept, Roomy, Engine, CoverTold};

use cone_luts::tabulate;
use cover_roots::choose;
use cut_circuit::{Extent, link};
use cut_kept::ROW;
use job_scratch::clear_first;
use label_aim::Aim;
use label_period::least_period;
use label_sweep::reach;
use limits::{BEYOND, COPIES, GATES, HELD, LIST, NODES, PINS, STACK, TABLE};
use net_reader::NetSizes;

// The places of the engine's members, and of the rows of kept cuts behind them.
pub const MEMBERS: usize = COPIES + ROW * GATES;

// The largest of n counts from a place on.
fn most_count(counts: &[usize], at: usize, n: usize) -> usize
    requires { at + n ≤ length counts.now }
    ensures { MostCount counts.now at n result }
{
    let mut most = 0;
    for j in 0..n {
        most = most.max(counts[at + j]);
    }
    most
}

// M, the sum of the largest counts over all gates.
fn sum_counts(gates: usize, pins: &[usize], counts: &[usize]) -> usize
    requires { Counted gates pins.now counts.now }
    ensures { SumCounts gates pins.now counts.now 0 result }
{
    let mut sum = 0;
    for g in (0..gates).rev() {
        sum += most_count(counts, PINS * g, pins[g]);
    }
    sum
}

// The extent of the net's circuit: the border is k times M.
pub fn extent(z: NetSizes, net: &[usize], k: usize) -> Extent
    requires { Extending z net.now k }
    ensures { ExtentOf z net.now k result }
{
    let a = (2 + PINS) * z.gates;
    let m = sum_counts(z.gates, net, &net[a..]);
    let border = k * m;
    Extent {
        inputs: z.inputs,
        gates: z.gates,
        width: border + BEYOND,
        border,
    }
}

// The ceilings that a mode asks for.
fn cap_of(forward: bool) -> Option<usize>
    ensures { result ≡ cap_in (mode_of forward) }
{
    if forward { Some(1) } else { None }
}

// The target a.phi where it is reachable, or the least period for target 0, with the least labelling left in labels.
fn find_period(
    s: Extent,
    net: &[usize],
    slots: &mut [u32],
    table: &mut [u8],
    list: &mut [u32],
    stack: &mut [u32],
    counts: &mut [u32],
    members: &mut [u32],
    labels: &mut [i64],
    a: Aim,
) -> Option<usize>
    requires at_rest { AtRest (packed_of s net.now slots.old) table.old list.old stack.old counts.old members.old }
    requires outputs_in_bounds { packed_room s.inputs s.gates a.outputs ≤ length net.now }
    requires period_asked { PeriodAsked s net.now labels.old (tops_in s net.now a.cap) (order_in s net.now) (outs_in s net.now) (delays_in s net.now a.outputs) a.outputs a.phi a.k × (a.trial ≡ false) }
    ensures at_rest_2 { AtRest (packed_of s net.now slots.new) table.new list.new stack.new counts.new members.new }
    ensures period_found { PeriodFound (mode_of a.forward) (wiring s net.now) a.k a.phi (tops_in s net.now a.cap) (outs_in s net.now) (delays_in s net.now a.outputs) a.outputs labels.new result }
{
    if a.phi == 0 {
        return Some(least_period(
            s, net, slots, table, list, stack, counts, members, labels, a,
        ));
    }
    if reach(
        s, net, slots, table, list, stack, counts, members, labels, a,
    ) {
        Some(a.phi)
    } else {
        None
    }
}

// Period, labels, chosen roots, cuts and tables of a net with n outputs, with the engine's table lent, whose first bytes the questions take; none where the target is not reachable.
fn cover(
    s: Extent,
    n: usize,
    net: &[usize],
    tables: &[u64],
    k: usize,
    target: usize,
    forward: bool,
    table: &mut [u8],
    labels: &mut [i64],
    rows: &mut [usize],
    luts: &mut [u64],
) -> Option<usize>
    requires engine { Engine (mode_of forward) s n net.now tables.now k target table.old labels.old }
    requires roomy { Roomy s.gates rows.old luts.old }
    ensures { CoverTold (mode_of forward) s n net.now tables.now k target (λ period. kept_in s.inputs s.gates period labels.new rows.new luts.new) result }
{
    let end = (s.inputs + s.gates) * s.width;
    let mut slots = [0u32; HELD];
    let mut list = [0u32; LIST];
    let mut stack = [0u32; STACK];
    let mut counts = [0u32; NODES];
    let mut members = [0u32; MEMBERS];
    let cap = cap_of(forward);
    let asked = Aim {
        phi: target,
        k,
        outputs: n,
        cap,
        forward,
        trial: false,
    };
    let phi = find_period(
        s,
        net,
        &mut slots,
        &mut table[..end],
        &mut list,
        &mut stack,
        &mut counts,
        &mut members,
        labels,
        asked,
    )?;
    let found = Aim { phi, ..asked };
    choose(
        s,
        net,
        &mut slots,
        &mut table[..end],
        &mut list,
        &mut stack,
        &mut counts,
        &mut members,
        labels,
        found,
        rows,
    );
    tabulate(s.inputs, s.gates, net, tables, rows, luts, table);
    Some(phi)
}

// The same for a net read and checked, with its chains made. The first bytes of work are the engine's table.
pub fn plan(
    z: NetSizes,
    net: &mut [usize],
    tables: &[u64],
    k: usize,
    target: usize,
    forward: bool,
    work: &mut [u8],
    labels: &mut [i64],
    rows: &mut [usize],
    luts: &mut [u64],
) -> Option<usize>
    requires planning { Planning k target z net.old tables.now }
    requires most_table_in_bounds { (most_table ≤ length work.old) × (z.inputs + z.gates ≤ length labels.old) × Roomy z.gates rows.old luts.old }
    ensures planned { Planned (mode_of forward) (net_in (arrays_of z net.old tables.now)) k target (λ period. kept_in z.inputs z.gates period labels.new rows.new luts.new) result }
    ensures plan_kept { PlanKept z.inputs z.gates net.old net.new }
{
    let all = z.inputs + z.gates;
    link(all, z.gates, net);
    let s = extent(z, net, k);
    let end = TABLE;
    clear_first(work, end);
    cover(
        s,
        z.outputs,
        net,
        tables,
        k,
        target,
        forward,
        &mut work[..end],
        &mut labels[..all],
        rows,
        luts,
    )
}
