// The cover kept, written as a cover record: each LUT into the part of the area that starts behind the last one.
#![tactic(auto)]

ghost use Rattle.std.specs.Prelude.{◌≡◌, cond, false, [], ◌∷◌, map, ◌+◌, ◌*◌, ◌≤◌, ◌<◌, length, get_or};
ghost use Rattle.limits.specs.Courses.{long};
ghost use Rattle.limits.specs.Limits.{depth_room, most_pins};
ghost use Rattle.net_model.specs.Arrays.{stride, copies_from};
ghost use Rattle.net_model.specs.Copies.{Copy, copy};
ghost use Rattle.net_model.specs.Tables.{as_number};
ghost use Rattle.net_bytes.specs.Walk.{table_bytes};
ghost use Rattle.cover_records.specs.CoverBytes.{to_bytes, not_zero, leaf_map, depths, is_zero, signed_number, lag_bytes, lut_bytes, all_lut_bytes, cover_bytes};
ghost use Rattle.cover_records.specs.Kept.{entries_in};
ghost use Rattle.cover_records.specs.Rows.{sizes_in, nodes_in, backs_in, kept_in, row_room};
ghost use Rattle.cover_records.specs.Outcomes.{written};
ghost use Rattle.cover_records.specs.RoundTrip.{SmallLag};
ghost use Rattle.cover_writer.specs.Writing.{Writable, Below, Wrote, leaf_bytes, value_bytes, LeavesAsked, LutAsked, lut_of, GateAsked, LutsAsked, bytes_at, marked};

use cone_words::low;
use limits::PINS;
use net_fields::table_bytes;
use signed::lag_of;

// The number of inputs and of gates, and the period.
#[derive(Clone, Copy)]
pub struct CoverHead {
    pub inputs: usize,
    pub gates: usize,
    pub period: usize,
}

// The cover kept: its sizes, the nodes' labels, and the gates' rows, which hold marks, leaf counts and leaves.
#[derive(Clone, Copy)]
pub struct KeptCover<'a> {
    pub head: CoverHead,
    pub labels: &'a [i64],
    pub rows: &'a [usize],
}

// n leaves, from place `at` on.
#[derive(Clone, Copy)]
pub struct Leaves<'a> {
    pub nodes: &'a [usize],
    pub backs: &'a [usize],
    pub at: usize,
    pub n: usize,
}

// 1 where a number is not 0.
fn not_zero(n: usize) -> usize
    ensures { result ≡ as_number (not_zero n) }
{
    usize::from(n != 0)
}

// The map of n leaves: bit j says that leaf j has d not 0.
fn leaf_map(backs: &[usize], at: usize, n: usize) -> usize
    requires { (n ≤ most_pins) × (at + n ≤ length backs.now) }
    ensures { result ≡ leaf_map (copies_from [] backs.now at n) }
{
    let mut m = 0;
    for j in (0..n).rev() {
        m = not_zero(backs[at + j]) + 2 * m;
    }
    m
}

// Bit 6 of the map: the lag is not 0.
fn lag_flag(lag: i64) -> usize
    ensures { result ≡ cond (is_zero lag) 0 64 }
{
    if lag == 0 { 0 } else { 64 }
}

// The nodes of n leaves, a byte each.
fn write_nodes(nodes: &[usize], at: usize, n: usize, area: &mut [u8]) -> usize
    requires n_in_bounds { (at + n ≤ length nodes.now) × (n ≤ length area.old) }
    requires below { Below 256 nodes.now at n }
    ensures { Wrote (map (λ (y : Copy). y.node) (copies_from nodes.now [] at n)) area.old area.new result }
{
    for j in 0..n {
        area[j] = nodes[at + j] as u8;
    }
    n
}

// A d that is not 0, two bytes, low first.
fn write_depth(d: usize, area: &mut [u8]) -> usize
    requires { (d < depth_room) × (length (depths (copy 0 d ∷ [])) ≤ length area.old) }
    ensures { Wrote (depths (copy 0 d ∷ [])) area.old area.new result }
{
    if d == 0 {
        return 0;
    }
    let low = (d % 256) as u8;
    let high = (d / 256) as u8;
    area[0] = low;
    area[1] = high;
    2
}

// The d's of n leaves, those that are not 0.
fn write_depths(backs: &[usize], at: usize, n: usize, area: &mut [u8]) -> usize
    requires n_in_bounds { (at + n ≤ length backs.now) × (length (depths (copies_from [] backs.now at n)) ≤ length area.old) }
    requires below { Below depth_room backs.now at n }
    ensures { Wrote (depths (copies_from [] backs.now at n)) area.old area.new result }
{
    let mut end = 0;
    for j in 0..n {
        let d = backs[at + j];
        end += write_depth(d, &mut area[end..]);
    }
    end
}

// A whole number from −128 to 127 as a byte.
fn byte_of_lag(lag: i64) -> u8
    requires { SmallLag false lag }
    ensures { result ≡ signed_number false lag }
{
    (lag as i8).cast_unsigned()
}

// The lag, where it is not 0.
fn write_lag(lag: i64, area: &mut [u8]) -> usize
    requires small_lag { SmallLag false lag }
    requires lag_in_bounds { length (lag_bytes false lag) ≤ length area.old }
    ensures { Wrote (lag_bytes false lag) area.old area.new result }
{
    if lag == 0 {
        return 0;
    }
    area[0] = byte_of_lag(lag);
    1
}

// The low n bytes of a table, low first.
pub fn write_table(table: u64, n: usize, area: &mut [u8]) -> usize
    requires { n ≤ length area.old }
    ensures { Wrote (to_bytes n table) area.old area.new result }
{
    let mut rest = table;
    for i in 0..n {
        area[i] = (rest % 256) as u8;
        rest /= 256;
    }
    n
}

// Three bytes.
fn write_head(root: usize, n: usize, map: usize, area: &mut [u8]) -> usize
    requires root_bound { (root < 256) × (n < 256) × (map < 256) }
    requires in_bounds { 3 ≤ length area.old }
    ensures { Wrote (root ∷ n ∷ map ∷ []) area.old area.new result }
{
    area[0] = root as u8;
    area[1] = n as u8;
    area[2] = map as u8;
    3
}

// The leaves: their nodes, and behind them their d's.
fn write_leaves(leaves: Leaves, area: &mut [u8]) -> usize
    requires { LeavesAsked leaves.nodes.now leaves.backs.now leaves.at leaves.n area.old }
    ensures { Wrote (leaf_bytes (copies_from leaves.entry.nodes.now leaves.entry.backs.now leaves.entry.at leaves.entry.n)) area.old area.new result }
{
    let a = write_nodes(leaves.nodes, leaves.at, leaves.n, area);
    a + write_depths(leaves.backs, leaves.at, leaves.n, &mut area[a..])
}

// The lag, and behind it the table of a LUT with n leaves.
fn write_values(lag: i64, table: u64, n: usize, area: &mut [u8]) -> usize
    requires small_lag { SmallLag false lag × (n ≤ most_pins) }
    requires table_in_bounds { length (value_bytes lag n table) ≤ length area.old }
    ensures { Wrote (value_bytes lag n table) area.old area.new result }
{
    let bytes = table_bytes(n);
    let a = write_lag(lag, area);
    a + write_table(table, bytes, &mut area[a..])
}

// A LUT: root, leaf count and map, then the leaves, then the lag and the table.
fn write_lut(root: usize, leaves: Leaves, lag: i64, table: u64, area: &mut [u8]) -> usize
    requires { LutAsked root leaves.nodes.now leaves.backs.now leaves.at leaves.n lag table area.old }
    ensures { Wrote (lut_bytes false (lut_of root leaves.entry.nodes.now leaves.entry.backs.now leaves.entry.at leaves.entry.n lag table)) area.old area.new result }
{
    let map = leaf_map(leaves.backs, leaves.at, leaves.n) + lag_flag(lag);
    let a = write_head(root, leaves.n, map, area);
    let b = a + write_leaves(leaves, &mut area[a..]);
    b + write_values(lag, table, leaves.n, &mut area[b..])
}

// The leaves of the LUT of gate g.
pub fn leaves_of<'a>(k: KeptCover<'a>, g: usize) -> Leaves<'a>
    requires { (g < k.head.gates) × (row_room k.head.gates ≤ length k.rows.now) }
    ensures nodes { result.nodes.now ≡ nodes_in k.entry.head.gates k.entry.rows.now }
    ensures backs { result.backs.now ≡ backs_in k.entry.head.gates k.entry.rows.now }
    ensures place { result.at ≡ stride * g }
    ensures count { result.n ≡ get_or (sizes_in k.entry.head.gates k.entry.rows.now) g 0 }
{
    let a = 2 * k.head.gates;
    let b = (2 + PINS) * k.head.gates;
    Leaves {
        nodes: &k.rows[a..],
        backs: &k.rows[b..],
        at: PINS * g,
        n: k.rows[k.head.gates + g],
    }
}

// The LUT of gate g, where it has one, with the short form of its table.
fn write_gate(k: KeptCover, tables: &[u64], g: usize, area: &mut [u8]) -> usize
    requires gate_asked { GateAsked (kept_in k.head.inputs k.head.gates k.head.period k.labels.now k.rows.now tables.now) g area.old }
    requires gates_in_bounds { row_room k.head.gates ≤ length k.rows.now }
    ensures { Wrote (bytes_at (kept_in k.entry.head.inputs k.entry.head.gates k.entry.head.period k.entry.labels.now k.entry.rows.now tables.now) g) area.old area.new result }
{
    if k.rows[g] == 0 {
        return 0;
    }
    let root = k.head.inputs + g;
    let lag = lag_of(k.labels[root], k.head.period);
    let leaves = leaves_of(k, g);
    let table = low(tables[g], leaves.n);
    write_lut(root, leaves, lag, table, area)
}

// The LUTs, each behind the last.
fn write_luts(k: KeptCover, tables: &[u64], area: &mut [u8]) -> usize
    requires luts_asked { LutsAsked (kept_in k.head.inputs k.head.gates k.head.period k.labels.now k.rows.now tables.now) area.old }
    requires gates_in_bounds { row_room k.head.gates ≤ length k.rows.now }
    ensures { Wrote (all_lut_bytes false (entries_in (kept_in k.entry.head.inputs k.entry.head.gates k.entry.head.period k.entry.labels.now k.entry.rows.now tables.now))) area.old area.new result }
{
    let mut at = 0;
    for g in 0..k.head.gates {
        at += write_gate(k, tables, g, &mut area[at..]);
    }
    at
}

// The number of LUTs: of marks that are not 0.
pub fn count_luts(marks: &[usize], gates: usize) -> usize
    requires { gates ≤ length marks.now }
    ensures { result ≡ marked marks.now gates }
{
    marks[..gates].iter().filter(|mark| **mark != 0).count()
}

// The period and the number of LUTs.
fn write_front(period: usize, count: usize, area: &mut [u8]) -> usize
    requires period_bound { (period < 256) × (count < 256) }
    requires in_bounds { 2 ≤ length area.old }
    ensures { Wrote (period ∷ count ∷ []) area.old area.new result }
{
    area[0] = period as u8;
    area[1] = count as u8;
    2
}

// The record of the cover kept, in front of the area; the bytes behind it are kept.
pub fn write_cover(
    s: CoverHead,
    labels: &[i64],
    rows: &[usize],
    tables: &[u64],
    area: &mut [u8],
) -> usize
    requires writable { Writable (kept_in s.inputs s.gates s.period labels.now rows.now tables.now) area.old }
    requires gates_in_bounds { row_room s.gates ≤ length rows.now }
    ensures length { result ≡ length (cover_bytes long s.period (entries_in (kept_in s.inputs s.gates s.period labels.now rows.now tables.now))) }
    ensures bytes { area.new ≡ written (cover_bytes long s.period (entries_in (kept_in s.inputs s.gates s.period labels.now rows.now tables.now))) area.old }
{
    let count = count_luts(rows, s.gates);
    let at = write_front(s.period, count, area);
    let k = KeptCover {
        head: s,
        labels,
        rows,
    };
    at + write_luts(k, tables, &mut area[at..])
}
