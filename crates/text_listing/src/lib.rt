// The listing's text of the cover kept.
#![tactic(auto)]

ghost use Rattle.std.specs.Prelude.{◌+◌, ◌*◌, ◌≤◌, length};
ghost use Rattle.net_model.specs.Arrays.{copies_from};
ghost use Rattle.cover_records.specs.Rows.{kept_in, row_room};
ghost use Rattle.cover_records.specs.Listing.{leaf_text};
ghost use Rattle.signed.specs.Range.{Small};
ghost use Rattle.limits.specs.Limits.{most_pins};
ghost use Rattle.text_listing.specs.Text.{Listable, Lists, line_front, line_back, first_line, line_at, lines_from, GateAsked, GatesAsked};
ghost use Rattle.text_digits.specs.Put.{Put};

use cone_words::low;
use cover_registers::count_registers;
use cover_writer::{CoverHead, KeptCover, Leaves, count_luts, leaves_of};
use signed::lag_of;
use text_digits::{put_byte, put_field, put_signed_field, put_table, put_word};

// ---- a LUT's line

// Leaves: of each its node and its d.
fn put_leaves(leaves: Leaves, mut at: usize, out: &mut [u8]) -> usize
    requires n_in_bounds { (leaves.at + leaves.n ≤ length leaves.nodes.now) × (leaves.at + leaves.n ≤ length leaves.backs.now) }
    requires n_in_bounds_2 { at + 42 * leaves.n ≤ length out.old }
    ensures { Put (42 * leaves.entry.n) at (leaf_text (copies_from leaves.entry.nodes.now leaves.entry.backs.now leaves.entry.at leaves.entry.n)) out.old out.new result }
{
    for j in 0..leaves.n {
        let a = put_field(b" ", leaves.nodes[leaves.at + j], at, out);
        at = put_field(b":", leaves.backs[leaves.at + j], a, out);
    }
    at
}

// The line up to the lag.
fn put_front(root: usize, label: i64, lag: i64, at: usize, out: &mut [u8]) -> usize
    requires small { Small label × Small lag }
    requires at_in_bounds { at + 78 ≤ length out.old }
    ensures { Put 78 at (line_front root label lag) out.old out.new result }
{
    let a = put_field(b"lut ", root, at, out);
    let b = put_signed_field(b" label ", label, a, out);
    put_signed_field(b" lag ", lag, b, out)
}

// The line from the table on.
fn put_back(leaves: Leaves, table: u64, at: usize, out: &mut [u8]) -> usize
    requires n_le_most_pins { (leaves.n ≤ most_pins) × (leaves.at + leaves.n ≤ length leaves.nodes.now) × (leaves.at + leaves.n ≤ length leaves.backs.now) }
    requires at_in_bounds { at + 283 ≤ length out.old }
    ensures { Put 283 at (line_back leaves.entry.n table leaves.entry.nodes.now leaves.entry.backs.now leaves.entry.at) out.old out.new result }
{
    let a = put_word(b" table ", at, out);
    let b = put_table(leaves.n, table, a, out);
    let c = put_word(b" leaves", b, out);
    let d = put_leaves(leaves, c, out);
    put_byte(b'\n', d, out)
}

// The line of gate g, where it has a LUT, with the short form of its table.
fn put_gate(k: KeptCover, tables: &[u64], g: usize, at: usize, out: &mut [u8]) -> usize
    requires gate_asked { GateAsked (kept_in k.head.inputs k.head.gates k.head.period k.labels.now k.rows.now tables.now) g at out.old }
    requires gates_in_bounds { row_room k.head.gates ≤ length k.rows.now }
    ensures { Put 361 at (line_at (kept_in k.entry.head.inputs k.entry.head.gates k.entry.head.period k.entry.labels.now k.entry.rows.now tables.now) g) out.old out.new result }
{
    if k.rows[g] == 0 {
        return at;
    }
    let root = k.head.inputs + g;
    let label = k.labels[root];
    let lag = lag_of(label, k.head.period);
    let c = put_front(root, label, lag, at, out);
    let leaves = leaves_of(k, g);
    let table = low(tables[g], leaves.n);
    put_back(leaves, table, c, out)
}

// The lines of all gates.
fn put_lines(k: KeptCover, tables: &[u64], mut at: usize, out: &mut [u8]) -> usize
    requires gates_asked { GatesAsked (kept_in k.head.inputs k.head.gates k.head.period k.labels.now k.rows.now tables.now) 0 at out.old }
    requires gates_in_bounds { row_room k.head.gates ≤ length k.rows.now }
    ensures { Put (361 * k.entry.head.gates) at (lines_from (kept_in k.entry.head.inputs k.entry.head.gates k.entry.head.period k.entry.labels.now k.entry.rows.now tables.now) 0) out.old out.new result }
{
    for g in 0..k.head.gates {
        at = put_gate(k, tables, g, at, out);
    }
    at
}

// ---- the text

// The first line.
fn put_first(period: usize, count: usize, registers: usize, out: &mut [u8]) -> usize
    requires { 86 ≤ length out.old }
    ensures { Put 86 0 (first_line period count registers) out.old out.new result }
{
    let a = put_field(b"period ", period, 0, out);
    let b = put_field(b" luts ", count, a, out);
    let c = put_field(b" registers ", registers, b, out);
    put_byte(b'\n', c, out)
}

// The text of the cover kept, in front of the area; the bytes behind it are kept. The register count is for n outputs.
pub fn write_text(
    s: CoverHead,
    labels: &[i64],
    rows: &[usize],
    tables: &[u64],
    outs: &[usize],
    delays: &[usize],
    n: usize,
    out: &mut [u8],
) -> usize
    requires listable { Listable (kept_in s.inputs s.gates s.period labels.now rows.now tables.now) outs.now delays.now n out.old }
    requires gates_in_bounds { row_room s.gates ≤ length rows.now }
    ensures { Lists (kept_in s.inputs s.gates s.period labels.now rows.now tables.now) outs.now delays.now n out.old out.new result }
{
    let count = count_luts(rows, s.gates);
    let registers = count_registers(s, labels, rows, outs, delays, n);
    let a = put_first(s.period, count, registers, out);
    let k = KeptCover {
        head: s,
        labels,
        rows,
    };
    put_lines(k, tables, a, out)
}
