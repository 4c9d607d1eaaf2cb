// The register count of the cover kept: all leaves of its LUTs and all outputs, taken into a tally.
#![tactic(auto)]

ghost use Rattle.std.specs.Prelude.{◌≡◌, [], ◌∷◌, ◌+◌, ◌≤◌, ◌<◌, pos, ◌+ℤ◌, ◌-ℤ◌, length};
ghost use Rattle.integers.specs.Parts.{up};
ghost use Rattle.net_model.specs.Arrays.{copies_from, pins_in};
ghost use Rattle.cover_theory.specs.SharedRegisters.{tap};
ghost use Rattle.cover_records.specs.Kept.{entries_from, entries_in};
ghost use Rattle.cover_records.specs.Rows.{kept_in, row_room};
ghost use Rattle.cover_records.specs.Listing.{lag_in, leaf_taps, lut_taps, output_taps};
ghost use Rattle.cover_tally.specs.Tallies.{Took};
ghost use Rattle.cover_writer.specs.Writing.{Below};
ghost use Rattle.limits.specs.Limits.{depth_room};
ghost use Rattle.cover_registers.specs.Counting.{Within, Counted, marking, registers_of, LagsHeld, LeavesHeld};

use cover_tally::Tally;
use cover_writer::{CoverHead, KeptCover, Leaves, leaves_of};
use signed::{lag_of, whole};

// The registers of a connection after moving.
pub fn moved(d: usize, own: i64, other: i64) -> i64
    requires { (d < depth_room) × Within 128 own × Within 128 other }
    ensures { result ≡ ((pos d +ℤ own) -ℤ other) }
{
    let n = whole(d);
    n + own - other
}

// Them as a count.
pub fn counted(z: i64) -> u32
    requires { Within 65792 z }
    ensures { result ≡ up z }
{
    z.max(0) as u32
}

// The lag of a node: 0 for an input.
pub fn lag_at(s: CoverHead, labels: &[i64], rows: &[usize], u: usize) -> i64
    requires { LagsHeld (marking s.inputs s.gates s.period labels.now rows.now) }
    ensures { Counted 128 (lag_in (entries_in (marking s.inputs s.gates s.period labels.now rows.now)) u) result }
{
    if u < s.inputs {
        return 0;
    }
    let g = u - s.inputs;
    if s.gates <= g {
        return 0;
    }
    if rows[g] == 0 {
        return 0;
    }
    lag_of(labels[u], s.period)
}

// A connection, or an output with `own` 0: node u is read through d registers, before moving.
fn take_reader(tally: Tally, k: KeptCover, own: i64, u: usize, d: usize) -> Tally
    requires lags_held { LagsHeld (marking k.head.inputs k.head.gates k.head.period k.labels.now k.rows.now) }
    requires d_lt_depth_room { (d < depth_room) × Within 128 own }
    ensures { Took (tap u ((pos d +ℤ own) -ℤ lag_in (entries_in (marking k.entry.head.inputs k.entry.head.gates k.entry.head.period k.entry.labels.now k.entry.rows.now)) u) ∷ []) tally.places result.places }
{
    let other = lag_at(k.head, k.labels, k.rows, u);
    let number = counted(moved(d, own, other));
    tally.take(u, number)
}

// Leaves of a LUT with this lag, or with lag 0 outputs.
fn take_leaves(mut tally: Tally, k: KeptCover, leaves: Leaves, own: i64) -> Tally
    requires lags_held { LagsHeld (marking k.head.inputs k.head.gates k.head.period k.labels.now k.rows.now) }
    requires n_in_bounds { (leaves.at + leaves.n ≤ length leaves.nodes.now) × (leaves.at + leaves.n ≤ length leaves.backs.now) }
    requires below { Below depth_room leaves.backs.now leaves.at leaves.n × Within 128 own }
    ensures { Took (leaf_taps (entries_in (marking k.entry.head.inputs k.entry.head.gates k.entry.head.period k.entry.labels.now k.entry.rows.now)) own (copies_from leaves.entry.nodes.now leaves.entry.backs.now leaves.entry.at leaves.entry.n)) tally.places result.places }
{
    for j in 0..leaves.n {
        let u = leaves.nodes[leaves.at + j];
        let d = leaves.backs[leaves.at + j];
        tally = take_reader(tally, k, own, u, d);
    }
    tally
}

// The leaves of the LUT of gate g, where it has one.
fn take_gate(tally: Tally, k: KeptCover, g: usize) -> Tally
    requires leaves_held { LeavesHeld (kept_in k.head.inputs k.head.gates k.head.period k.labels.now k.rows.now []) }
    requires g_lt_gates { (g < k.head.gates) × (row_room k.head.gates ≤ length k.rows.now) }
    ensures { Took (lut_taps (entries_in (marking k.entry.head.inputs k.entry.head.gates k.entry.head.period k.entry.labels.now k.entry.rows.now)) (entries_from (kept_in k.entry.head.inputs k.entry.head.gates k.entry.head.period k.entry.labels.now k.entry.rows.now []) g 1)) tally.places result.places }
{
    if k.rows[g] == 0 {
        return tally;
    }
    let own = lag_at(k.head, k.labels, k.rows, k.head.inputs + g);
    let leaves = leaves_of(k, g);
    take_leaves(tally, k, leaves, own)
}

// The leaves of all LUTs.
fn take_luts(mut tally: Tally, k: KeptCover) -> Tally
    requires leaves_held { LeavesHeld (kept_in k.head.inputs k.head.gates k.head.period k.labels.now k.rows.now []) }
    requires gates_in_bounds { row_room k.head.gates ≤ length k.rows.now }
    ensures { Took (lut_taps (entries_in (marking k.entry.head.inputs k.entry.head.gates k.entry.head.period k.entry.labels.now k.entry.rows.now)) (entries_from (kept_in k.entry.head.inputs k.entry.head.gates k.entry.head.period k.entry.labels.now k.entry.rows.now []) 0 k.entry.head.gates)) tally.places result.places }
{
    for g in 0..k.head.gates {
        tally = take_gate(tally, k, g);
    }
    tally
}

// The register count.
pub fn count_registers(
    s: CoverHead,
    labels: &[i64],
    rows: &[usize],
    outs: &[usize],
    delays: &[usize],
    n: usize,
) -> usize
    requires leaves_held { LeavesHeld (kept_in s.inputs s.gates s.period labels.now rows.now []) }
    requires n_in_bounds { (n ≤ length outs.now) × (n ≤ length delays.now) }
    requires below { Below depth_room delays.now 0 n }
    requires gates_in_bounds { row_room s.gates ≤ length rows.now }
    ensures { result ≡ registers_of (kept_in s.inputs s.gates s.period labels.now rows.now []) outs.now delays.now n }
{
    let k = KeptCover {
        head: s,
        labels,
        rows,
    };
    let outputs = Leaves {
        nodes: outs,
        backs: delays,
        at: 0,
        n,
    };
    let empty = Tally::new();
    let luts = take_luts(empty, k);
    let all = take_leaves(luts, k, outputs, 0);
    all.total()
}
