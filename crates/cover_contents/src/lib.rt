// The contents of a forward cover's registers at a step. The net runs on the input pairs up to that step and then on with all inputs 0; each sample of this second part is kept in
// a trace, and the registers of each connection are read off it, newest first. Without pairs these are the first contents.
#![tactic(auto)]

ghost use Rattle.std.specs.Prelude.{◌≡◌, [], ◌∷◌, ◌+◌, ◌*◌, ◌≤◌, ◌<◌, pos, ◌+ℤ◌, ◌-ℤ◌, length};
ghost use Rattle.limits.specs.Limits.{depth_room, most_inputs, most_nodes};
ghost use Rattle.net_model.specs.Arrays.{net_in, copies_from, pins_in};
ghost use Rattle.net_reader.specs.ReadAnswer.{arrays_of};
ghost use Rattle.net_checks.specs.Graphs.{outs_of, delays_of};
ghost use Rattle.run_theory.specs.BenchBytes.{kept_after};
ghost use Rattle.run_step.specs.Stepping.{StepAsked};
ghost use Rattle.cover_theory.specs.Key.{as_cover};
ghost use Rattle.cover_theory.specs.SharedRegisters.{tap};
ghost use Rattle.cover_records.specs.Kept.{entries_from, entries_in};
ghost use Rattle.cover_records.specs.Rows.{kept_in, row_room};
ghost use Rattle.cover_records.specs.Listing.{lag_in, leaf_taps, lut_taps, output_taps};
ghost use Rattle.cover_records.specs.Outcomes.{written};
ghost use Rattle.cover_writer.specs.Writing.{Below, Wrote};
ghost use Rattle.cover_registers.specs.Counting.{Within, marking, lags_of, taps_of, LagsHeld, LeavesHeld};
ghost use Rattle.board_theory.specs.Contents.{contents_of};
ghost use Rattle.cover_contents.specs.Traces.{samples_to, Sampled, Tracing, MostSamples, cells_back, tap_cells, CellsAsked, RegistersAsked, Contenting};

use cover_registers::{counted, lag_at, moved};
use cover_writer::{CoverHead, KeptCover, Leaves, leaves_of};
use limits::{COUNT, NODES};
use net_reader::{NetSizes, delays_at, outs_at};
use run_step::{run, step};
use run_values::told_value;

// ---- the trace

// A sample at a place: the oldest value kept of each node.
fn take_sample(z: NetSizes, kept: &[u8], known: &[usize], at: usize, trace: &mut [u8])
    requires inputs_le_most_inputs { (z.inputs ≤ most_inputs) × (z.inputs + z.gates ≤ length kept.now) × (z.gates ≤ length known.now) }
    requires gates_in_bounds { at + (z.inputs + z.gates) ≤ length trace.old }
    ensures { Sampled kept.now trace.old at (z.inputs + z.gates) trace.new }
{
    for v in 0..z.inputs + z.gates {
        trace[at + v] = told_value(z, kept, 0, known, v, COUNT).unwrap() as u8;
    }
}

// The first n samples of the run from what is kept, all inputs 0.
fn take_trace(
    z: NetSizes,
    net: &[usize],
    tables: &[u64],
    n: usize,
    kept: &mut [u8],
    known: &mut [usize],
    trace: &mut [u8],
)
    requires step_asked { StepAsked z net.now tables.now kept.old known.old }
    requires gates_bound { (z.inputs + z.gates ≤ most_nodes) × (most_nodes * n ≤ length trace.old) }
    ensures { Tracing z net.now tables.now kept.old known.old trace.old kept.new known.new trace.new n }
{
    for t in 0..n {
        take_sample(z, kept, known, NODES * t, trace);
        step(z, net, tables, 0, kept, known);
    }
}

// The samples up to the newest value that a register behind a node with this lag holds.
fn samples_to(lag: i64) -> usize
    requires { Within 128 lag }
    ensures { result ≡ samples_to lag }
{
    counted(moved(COUNT, 0, lag)) as usize
}

// Those of any node.
fn most_samples(k: KeptCover) -> usize
    requires { LagsHeld (marking k.head.inputs k.head.gates k.head.period k.labels.now k.rows.now) }
    ensures { MostSamples (marking k.entry.head.inputs k.entry.head.gates k.entry.head.period k.entry.labels.now k.entry.rows.now) k.entry.head.gates result }
{
    let mut most = COUNT;
    for g in 0..k.head.gates {
        most = most.max(samples_to(lag_at(k.head, k.labels, k.rows, k.head.inputs + g)));
    }
    most
}

// ---- the registers

// n registers behind node u, newest first: the last of the samples below `top` first.
fn write_cells(trace: &[u8], u: usize, top: usize, n: usize, area: &mut [u8]) -> usize
    requires u_lt_most_nodes { (u < most_nodes) × (n ≤ top) × (most_nodes * top ≤ length trace.now) }
    requires n_in_bounds { n ≤ length area.old }
    ensures { Wrote (cells_back trace.now u top n) area.old area.new result }
{
    for j in 0..n {
        area[j] = trace[NODES * (top - (j + 1)) + u];
    }
    n
}

// A connection, or an output with `own` 0: node u is read through d registers, before moving.
fn write_connection(
    k: KeptCover,
    own: i64,
    u: usize,
    d: usize,
    trace: &[u8],
    area: &mut [u8],
) -> usize
    requires lags_held { LagsHeld (marking k.head.inputs k.head.gates k.head.period k.labels.now k.rows.now) }
    requires d_lt_depth_room { (d < depth_room) × Within 128 own }
    requires cells_asked { CellsAsked trace.now (entries_in (marking k.head.inputs k.head.gates k.head.period k.labels.now k.rows.now)) (tap u ((pos d +ℤ own) -ℤ lag_in (entries_in (marking k.head.inputs k.head.gates k.head.period k.labels.now k.rows.now)) u) ∷ []) area.old }
    ensures { Wrote (tap_cells trace.now (entries_in (marking k.entry.head.inputs k.entry.head.gates k.entry.head.period k.entry.labels.now k.entry.rows.now)) (tap u ((pos d +ℤ own) -ℤ lag_in (entries_in (marking k.entry.head.inputs k.entry.head.gates k.entry.head.period k.entry.labels.now k.entry.rows.now)) u) ∷ [])) area.old area.new result }
{
    let other = lag_at(k.head, k.labels, k.rows, u);
    let n = counted(moved(d, own, other)) as usize;
    write_cells(trace, u, samples_to(other), n, area)
}

// Leaves of a LUT with this lag, or with lag 0 outputs.
fn write_leaves(k: KeptCover, leaves: Leaves, own: i64, trace: &[u8], area: &mut [u8]) -> usize
    requires lags_held { LagsHeld (marking k.head.inputs k.head.gates k.head.period k.labels.now k.rows.now) }
    requires n_in_bounds { (leaves.at + leaves.n ≤ length leaves.nodes.now) × (leaves.at + leaves.n ≤ length leaves.backs.now) }
    requires below { Below depth_room leaves.backs.now leaves.at leaves.n × Within 128 own }
    requires cells_asked { CellsAsked trace.now (entries_in (marking k.head.inputs k.head.gates k.head.period k.labels.now k.rows.now)) (leaf_taps (entries_in (marking k.head.inputs k.head.gates k.head.period k.labels.now k.rows.now)) own (copies_from leaves.nodes.now leaves.backs.now leaves.at leaves.n)) area.old }
    ensures { Wrote (tap_cells trace.now (entries_in (marking k.entry.head.inputs k.entry.head.gates k.entry.head.period k.entry.labels.now k.entry.rows.now)) (leaf_taps (entries_in (marking k.entry.head.inputs k.entry.head.gates k.entry.head.period k.entry.labels.now k.entry.rows.now)) own (copies_from leaves.entry.nodes.now leaves.entry.backs.now leaves.entry.at leaves.entry.n))) area.old area.new result }
{
    let mut at = 0;
    for j in 0..leaves.n {
        let u = leaves.nodes[leaves.at + j];
        let d = leaves.backs[leaves.at + j];
        at += write_connection(k, own, u, d, trace, &mut area[at..]);
    }
    at
}

// The leaves of the LUT of gate g, where it has one.
fn write_gate(k: KeptCover, g: usize, trace: &[u8], area: &mut [u8]) -> usize
    requires leaves_held { LeavesHeld (kept_in k.head.inputs k.head.gates k.head.period k.labels.now k.rows.now []) }
    requires g_lt_gates { (g < k.head.gates) × (row_room k.head.gates ≤ length k.rows.now) }
    requires cells_asked { CellsAsked trace.now (entries_in (marking k.head.inputs k.head.gates k.head.period k.labels.now k.rows.now)) (lut_taps (entries_in (marking k.head.inputs k.head.gates k.head.period k.labels.now k.rows.now)) (entries_from (kept_in k.head.inputs k.head.gates k.head.period k.labels.now k.rows.now []) g 1)) area.old }
    ensures { Wrote (tap_cells trace.now (entries_in (marking k.entry.head.inputs k.entry.head.gates k.entry.head.period k.entry.labels.now k.entry.rows.now)) (lut_taps (entries_in (marking k.entry.head.inputs k.entry.head.gates k.entry.head.period k.entry.labels.now k.entry.rows.now)) (entries_from (kept_in k.entry.head.inputs k.entry.head.gates k.entry.head.period k.entry.labels.now k.entry.rows.now []) g 1))) area.old area.new result }
{
    if k.rows[g] == 0 {
        return 0;
    }
    let own = lag_at(k.head, k.labels, k.rows, k.head.inputs + g);
    let leaves = leaves_of(k, g);
    write_leaves(k, leaves, own, trace, area)
}

// The leaves of all LUTs.
fn write_luts(k: KeptCover, trace: &[u8], area: &mut [u8]) -> usize
    requires leaves_held { LeavesHeld (kept_in k.head.inputs k.head.gates k.head.period k.labels.now k.rows.now []) }
    requires gates_in_bounds { row_room k.head.gates ≤ length k.rows.now }
    requires cells_asked { CellsAsked trace.now (entries_in (marking k.head.inputs k.head.gates k.head.period k.labels.now k.rows.now)) (lut_taps (entries_in (marking k.head.inputs k.head.gates k.head.period k.labels.now k.rows.now)) (entries_from (kept_in k.head.inputs k.head.gates k.head.period k.labels.now k.rows.now []) 0 k.head.gates)) area.old }
    ensures { Wrote (tap_cells trace.now (entries_in (marking k.entry.head.inputs k.entry.head.gates k.entry.head.period k.entry.labels.now k.entry.rows.now)) (lut_taps (entries_in (marking k.entry.head.inputs k.entry.head.gates k.entry.head.period k.entry.labels.now k.entry.rows.now)) (entries_from (kept_in k.entry.head.inputs k.entry.head.gates k.entry.head.period k.entry.labels.now k.entry.rows.now []) 0 k.entry.head.gates))) area.old area.new result }
{
    let mut at = 0;
    for g in 0..k.head.gates {
        at += write_gate(k, g, trace, &mut area[at..]);
    }
    at
}

// The leaves of all LUTs, then all outputs.
fn write_registers(z: NetSizes, net: &[usize], k: KeptCover, trace: &[u8], area: &mut [u8])
    requires registers_asked { RegistersAsked z net.now (kept_in k.head.inputs k.head.gates k.head.period k.labels.now k.rows.now []) trace.now area.old }
    requires gates_in_bounds { row_room k.head.gates ≤ length k.rows.now }
    ensures { area.new ≡ written (tap_cells trace.now (lags_of (kept_in k.entry.head.inputs k.entry.head.gates k.entry.head.period k.entry.labels.now k.entry.rows.now [])) (taps_of (kept_in k.entry.head.inputs k.entry.head.gates k.entry.head.period k.entry.labels.now k.entry.rows.now []) (outs_of z net.now) (delays_of z net.now) z.outputs)) area.old }
{
    let a = outs_at(z, net);
    let b = delays_at(z, net);
    let at = write_luts(k, trace, area);
    let outputs = Leaves {
        nodes: &net[a..],
        backs: &net[b..],
        at: 0,
        n: z.outputs,
    };
    write_leaves(k, outputs, 0, trace, &mut area[at..]);
}

// The contents of all registers of the forward cover kept at the step behind the pairs, in front of the contents; the bytes behind them are kept.
pub fn write_contents(
    z: NetSizes,
    net: &[usize],
    tables: &[u64],
    pairs: &[u8],
    kept: &mut [u8],
    known: &mut [usize],
    s: CoverHead,
    labels: &[i64],
    rows: &[usize],
    work: &mut [u8],
    contents: &mut [u8],
)
    requires { Contenting z net.now tables.now kept.old known.old (kept_in s.inputs s.gates s.period labels.now rows.now []) work.old contents.old }
    ensures { contents.new ≡ written (contents_of (net_in (arrays_of z net.now tables.now)) (as_cover (net_in (arrays_of z net.now tables.now)) (entries_in (kept_in s.inputs s.gates s.period labels.now rows.now []))) (kept_after pairs.now (net_in (arrays_of z net.now tables.now)) kept.old)) contents.old }
{
    run(z, net, tables, pairs, kept, known);
    let k = KeptCover {
        head: s,
        labels,
        rows,
    };
    let n = most_samples(k);
    take_trace(z, net, tables, n, kept, known, work);
    write_registers(z, net, k, work, contents);
}
