// The byte walk over a candidate's cover record: one pass over any bytes, each LUT stored as it is read. Every refusal is 13.
// Of n LUTs the slice of rows has first the n roots, then the n numbers of leaves, then six places a LUT for the leaves' nodes, then six for their d.
#![tactic(auto)]

ghost use Rattle.std.specs.Prelude.{◌≡◌, false, ◌+◌, ◌*◌, ◌≤◌, ◌<◌, length};
ghost use Rattle.limits.specs.Courses.{Offered};
ghost use Rattle.limits.specs.Limits.{most_gates, most_inputs, most_k, most_luts, most_pins};
ghost use Rattle.sequences.specs.Stored.{Stored};
ghost use Rattle.cover_reader.specs.Reads.{Spacious, held_in, CoverRead};
ghost use Rattle.cover_reader.specs.LutsStored.{Same, RowStored, LutStored, LutsRead, Narrow};

use cover_rows::{Row, read_front, read_lut};
use limits::{PINS, Rules};
use net_marks::store;
use refusals::Refusal;

// A candidate's record as read: its period and number of LUTs.
#[derive(Clone, Copy, Debug, PartialEq, Eq)]
pub struct Candidate {
    pub period: usize,
    pub luts: usize,
}

// The arrays that LUTs are stored in.
#[derive(Drop)]
struct Rows<'a> {
    rows: &'a mut [usize],
    lags: &'a mut [i64],
    tables: &'a mut [u64],
}

// Root, number of leaves and leaves of LUT i of n.
fn store_row(rows: &mut [usize], n: usize, i: usize, row: Row)
    requires { (n ≤ most_luts) × (i < n) × ((2 + 2 * most_pins) * n ≤ length rows.old) }
    ensures { RowStored n i row rows.old rows.new }
{
    rows[i] = row.root;
    rows[n + i] = row.size;
    store(&row.nodes, PINS, rows, 2 * n + PINS * i);
    store(&row.backs, PINS, rows, (2 + PINS) * n + PINS * i);
}

// A row is stored as LUT i of n.
fn store_lut(w: &mut Rows<'_>, n: usize, i: usize, row: Row)
    requires n_le_most_luts { (n ≤ most_luts) × (i < n) × Spacious n w.old.rows.now w.old.lags.now w.old.tables.now }
    requires size_le_most_pins { row.size ≤ most_pins }
    requires narrow { Narrow (held_in n w.old.rows.now w.old.lags.now w.old.tables.now) i }
    ensures same { Same w.old w.new }
    ensures stored { LutStored i row (held_in n w.old.rows.now w.old.lags.now w.old.tables.now) (held_in n w.new.rows.now w.new.lags.now w.new.tables.now) }
{
    store_row(w.rows, n, i, row);
    w.lags[i] = row.lag;
    w.tables[i] = row.table;
}

// The place behind n LUTs, each stored as it is read; each root is above the one before.
fn read_luts(
    bytes: &[u8],
    at: usize,
    nodes: usize,
    k: usize,
    inputs: usize,
    two: bool,
    n: usize,
    w: &mut Rows<'_>,
) -> Result<usize, Refusal>
    requires { (k ≤ most_k) × (n ≤ most_luts) × Spacious n w.old.rows.now w.old.lags.now w.old.tables.now }
    ensures same { Same w.old w.new }
    ensures read { LutsRead two bytes.now at nodes k inputs n (held_in n w.new.rows.now w.new.lags.now w.new.tables.now) result }
{
    let mut next = at;
    let mut least = inputs;
    for i in 0..n {
        let row = read_lut(bytes, next, nodes, k, least, two)?;
        next = row.at;
        least = row.value.root + 1;
        store_lut(w, n, i, row.value);
    }
    Ok(next)
}

// The walk: the LUTs of the record, or that it breaks the layout.
pub fn read_cover(
    bytes: &[u8],
    inputs: usize,
    gates: usize,
    k: usize,
    rules: Rules,
    rows: &mut [usize],
    lags: &mut [i64],
    tables: &mut [u64],
) -> Result<Candidate, Refusal>
    requires inputs_le_most_inputs { (inputs ≤ most_inputs) × (gates ≤ most_gates) × (k ≤ most_k) × Offered rules }
    requires spacious { Spacious most_luts rows.old lags.old tables.old }
    ensures { CoverRead rules bytes.now inputs gates k result (λ n. held_in n rows.new lags.new tables.new) }
{
    let front = read_front(bytes, rules)?;
    let n = front.value.luts;
    let mut w = Rows { rows, lags, tables };
    let end = read_luts(
        bytes,
        front.at,
        inputs + gates,
        k,
        inputs,
        rules.wide,
        n,
        &mut w,
    )?;
    if end < bytes.len() {
        return Err(Refusal::Layout);
    }
    Ok(Candidate {
        period: front.value.period,
        luts: n,
    })
}
