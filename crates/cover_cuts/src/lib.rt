// Checks 14 and 15 of a candidate's LUTs: leaves that are cuts of their roots, tables that are right. The first bytes of work are the walk's table of marks: all 0 before and after.
#![tactic(auto)]

ghost use Rattle.std.specs.Prelude.{ℕ, ◌≤◌, ◌<◌, length, get_or, drop};
ghost use Rattle.limits.specs.Limits.{most_luts, most_pins, most_table};
ghost use Rattle.net_model.specs.PackedNet.{sources_at, counts_at, nexts_at};
ghost use Rattle.cover_records.specs.Rows.{sizes_in, nodes_in, backs_in, row_room};
ghost use Rattle.cone_descent.specs.Descent.{Clear};
ghost use Rattle.refusals.specs.Refusals.{code_of};
ghost use Rattle.cover_cuts.specs.Cuts.{Cutting, CutsTried, WrongTold, Compared, CutsTold};

use cone_luts::try_row;
use cone_words::{low, whole};
use limits::LUTS;
use refusals::Refusal;

// Whether some LUT's leaves are no cut. Where none are, right has the full tables.
fn no_cuts(
    inputs: usize,
    gates: usize,
    net: &[usize],
    tables: &[u64],
    rows: &[usize],
    k: usize,
    n: usize,
    right: &mut [u64],
    work: &mut [u8],
) -> bool
    requires cutting { Cutting inputs gates net.now (drop (sources_at gates) net.now) (drop (counts_at gates) net.now) tables.now rows.now (sizes_in n rows.now) (nodes_in n rows.now) (backs_in n rows.now) k n × (n ≤ most_luts) × (n ≤ length right.old) }
    requires gates_in_bounds { (nexts_at gates ≤ length net.now) × (row_room n ≤ length rows.now) }
    requires most_table_in_bounds { (most_table ≤ length work.old) × Clear work.old }
    ensures cuts_tried { CutsTried inputs gates net.now (drop (sources_at gates) net.now) (drop (counts_at gates) net.now) tables.now rows.now (sizes_in n rows.now) (nodes_in n rows.now) (backs_in n rows.now) k n right.new result }
    ensures clear { Clear work.new }
{
    for i in 0..n {
        let g = rows[i] - inputs;
        match try_row(inputs, gates, net, tables, rows, n, i, g, work) {
            None => return true,
            Some(full) => right[i] = full,
        }
    }
    false
}

// Whether a table is not the short form of the full table of a LUT with n leaves: it has a bit behind the first 2^n, or is another one when repeated.
fn is_wrong(table: u64, n: usize, full: u64) -> bool
    requires { n ≤ most_pins }
    ensures { WrongTold table n full result }
{
    low(table, n) != table || whole(table, n) != full
}

// Whether some of the first n tables is not the short form of its full one.
fn some_wrong(tables: &[u64], sizes: &[usize], fulls: &[u64], n: usize) -> bool
    requires { (n ≤ length tables.now) × (n ≤ length sizes.now) × (n ≤ length fulls.now) × ((i : ℕ) → i < n → get_or sizes.now i 0 ≤ most_pins) }
    ensures { Compared tables.now sizes.now fulls.now n result }
{
    (0..n).any(|i| is_wrong(tables[i], sizes[i], fulls[i]))
}

// Checks 14 and 15 in this order: 14 over all LUTs before 15.
pub fn check_luts(
    inputs: usize,
    gates: usize,
    net: &[usize],
    tables: &[u64],
    rows: &[usize],
    luts: &[u64],
    k: usize,
    n: usize,
    work: &mut [u8],
) -> Result<(), Refusal>
    requires cutting { Cutting inputs gates net.now (drop (sources_at gates) net.now) (drop (counts_at gates) net.now) tables.now rows.now (sizes_in n rows.now) (nodes_in n rows.now) (backs_in n rows.now) k n × (n ≤ most_luts) × (n ≤ length luts.now) }
    requires gates_in_bounds { (nexts_at gates ≤ length net.now) × (row_room n ≤ length rows.now) }
    requires most_table_in_bounds { (most_table ≤ length work.old) × Clear work.old }
    ensures cuts_told { CutsTold inputs gates net.now (drop (sources_at gates) net.now) (drop (counts_at gates) net.now) tables.now rows.now (sizes_in n rows.now) (nodes_in n rows.now) (backs_in n rows.now) luts.now k n (code_of result) }
    ensures clear { Clear work.new }
{
    let mut right = [0u64; LUTS];
    let uncut = no_cuts(inputs, gates, net, tables, rows, k, n, &mut right, work);
    let wrong = some_wrong(luts, &rows[n..], &right, n);
    if uncut {
        return Err(Refusal::NoCut);
    }
    if wrong {
        return Err(Refusal::WrongTable);
    }
    Ok(())
}
