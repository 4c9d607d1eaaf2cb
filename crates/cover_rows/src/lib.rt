// The rows of a cover record: what stands before the LUTs; one LUT, its root, and behind it its head, leaves and tail. Numbers take one byte
// or two.
#![tactic(auto)]

ghost use Rattle.std.specs.Prelude.{◌≡◌, ◌+◌, ◌^◌, ◌≤◌, ◌<◌};
ghost use Rattle.limits.specs.Courses.{Offered};
ghost use Rattle.limits.specs.Limits.{most_k, most_pins};
ghost use Rattle.net_model.specs.Arrays.{copies_from};
ghost use Rattle.net_model.specs.Copies.{copy};
ghost use Rattle.net_fields.specs.ItemsRead.{number_room};
ghost use Rattle.cover_records.specs.CoverBytes.{before, from_signed, half_range, rising_leaves};
ghost use Rattle.cover_rows.specs.LutParts.{FrontRead, Spreading, Spread, HeadRead, LeavesRead, TailRead, BodyRead, LutRead};

use limits::{ITEMS, Rules};
use net_fields::{
    CoverField, Field, NumberField, Read, count_of, has, luts_field, number, period_field,
    read_byte, read_items, read_number, read_numbers, table_bytes,
};
use refusals::Refusal;
use signed::{minus, whole};

// The period and the LUT count of a record.
#[derive(Clone, Copy, Debug, PartialEq, Eq)]
pub struct Front {
    pub period: usize,
    pub luts: usize,
}

// The leaf count and map of a LUT.
#[derive(Clone, Copy)]
struct Head {
    size: usize,
    map: u8,
}

// The d's of the leaves so far and the number of stored d's used.
#[derive(Clone, Copy)]
struct SpreadSoFar {
    backs: [usize; ITEMS],
    used: usize,
}

// The nodes and the d's of a LUT's leaves.
#[derive(Clone, Copy)]
struct Leaves {
    nodes: [usize; ITEMS],
    backs: [usize; ITEMS],
}

// The lag and the table of a LUT.
#[derive(Clone, Copy)]
struct Tail {
    lag: i64,
    table: u64,
}

// A LUT as read.
#[derive(Clone, Copy, Debug, PartialEq, Eq)]
pub struct Row {
    pub root: usize,
    pub size: usize,
    pub nodes: [usize; ITEMS],
    pub backs: [usize; ITEMS],
    pub lag: i64,
    pub table: u64,
}

// What stands before the LUTs: the period and their number.
pub fn read_front(bytes: &[u8], rules: Rules) -> Result<Read<Front>, Refusal>
    requires { Offered rules }
    ensures { FrontRead rules bytes.now result }
{
    let period = read_number(bytes, 0, period_field(rules), rules.wide)?;
    let count = read_number(bytes, period.at, luts_field(rules), rules.wide)?;
    let value = Front {
        period: period.value,
        luts: count.value,
    };
    Ok(Read {
        value,
        at: count.at,
    })
}

// 2 to a number of leaves.
fn power(n: usize) -> usize
    requires { n ≤ most_pins }
    ensures { result ≡ 2 ^ n }
{
    1 << n
}

// The leaf count, at most k, and the map.
fn read_head(bytes: &[u8], at: usize, k: usize) -> Result<Read<Head>, Refusal>
    requires { k ≤ most_k }
    ensures { HeadRead bytes.now at k result }
{
    let size = read_byte(bytes, at, Field::Cover(CoverField::Size(k)))?;
    let n = usize::from(size.value);
    let map = read_byte(bytes, size.at, Field::Cover(CoverField::Map(power(n))))?;
    let value = Head {
        size: n,
        map: map.value,
    };
    Ok(Read { value, at: map.at })
}

// Leaf i takes the next stored d where its bit is set, else 0.
fn spread_one(so: &mut SpreadSoFar, map: u8, depths: [usize; ITEMS], i: usize)
    requires i_lt_most_pins { i < most_pins }
    requires spreading { Spreading map depths i so.old }
    ensures { Spreading map depths (i + 1) so.new }
{
    if has(map, i) {
        so.backs[i] = depths[so.used];
        so.used += 1;
        return;
    }
    so.backs[i] = 0;
}

// The d's of n leaves: those whose bit is set take the stored d's in turn, the others have 0.
fn spread(map: u8, n: usize, depths: [usize; ITEMS]) -> [usize; ITEMS]
    requires { n ≤ most_pins }
    ensures { Spread map n depths result }
{
    let mut so = SpreadSoFar {
        backs: [0usize; ITEMS],
        used: 0,
    };
    for i in 0..n {
        spread_one(&mut so, map, depths, i);
    }
    so.backs
}

// Whether one leaf, a node and a d, comes before another.
fn comes_before(leaf: (usize, usize), next: (usize, usize)) -> bool
    ensures { result ≡ before (copy leaf.0 leaf.1) (copy next.0 next.1) }
{
    leaf < next
}

// Whether n leaves rise.
fn rising(leaves: Leaves, n: usize) -> bool
    requires { n ≤ most_pins }
    ensures { result ≡ rising_leaves (copies_from leaves.nodes leaves.backs 0 n) }
{
    let Leaves { nodes, backs } = leaves;
    for i in 1..n {
        if !comes_before((nodes[i - 1], backs[i - 1]), (nodes[i], backs[i])) {
            return false;
        }
    }
    true
}

// The leaves of a LUT: a node for each, a stored d for each leaf bit of the map, and all rising.
fn read_leaves(
    bytes: &[u8],
    at: usize,
    nodes: usize,
    head: Head,
    two: bool,
) -> Result<Read<Leaves>, Refusal>
    requires { head.size ≤ most_pins }
    ensures { LeavesRead two bytes.now at nodes head.size head.map result }
{
    let Read {
        value: nodes,
        at: depths_at,
    } = read_numbers(bytes, at, head.size, NumberField::Leaf(nodes), two)?;
    let bits = head.map % 64;
    let m = count_of(bits);
    let Read { value: depths, at } = read_numbers(bytes, depths_at, m, NumberField::Depth, true)?;
    let backs = spread(bits, head.size, depths);
    let value = Leaves { nodes, backs };
    if !rising(value, head.size) {
        return Err(Refusal::Layout);
    }
    Ok(Read { value, at })
}

// Half the numbers of one byte, or of two: from it on they stand for negatives.
fn half(two: bool) -> usize
    ensures { result ≡ half_range two }
{
    if two { 32768 } else { 128 }
}

// The number that one byte, or two, stand for with a sign.
fn lag_of_number(value: usize, two: bool) -> i64
    requires { value < number_room two }
    ensures { result ≡ from_signed two value }
{
    let h = half(two);
    if value < h {
        whole(value)
    } else {
        minus(whole(value), h + h)
    }
}

// The lag, where the map has bit 6, and the table.
fn read_tail(bytes: &[u8], at: usize, head: Head, two: bool) -> Result<Read<Tail>, Refusal>
    requires { head.size ≤ most_pins }
    ensures { TailRead two bytes.now at head.size head.map result }
{
    let q = usize::from(head.map) / 64;
    let lags = read_numbers(bytes, at, q, NumberField::Lag, two)?;
    let b = table_bytes(head.size);
    let table = read_items(
        bytes,
        lags.at,
        b,
        Field::Cover(CoverField::Table(head.size)),
    )?;
    let value = Tail {
        lag: lag_of_number(lags.value[0], two),
        table: number(table.value),
    };
    Ok(Read {
        value,
        at: table.at,
    })
}

// What stands behind a LUT's root: its head, its leaves, its lag and table.
pub fn read_body(
    bytes: &[u8],
    at: usize,
    nodes: usize,
    k: usize,
    root: usize,
    two: bool,
) -> Result<Read<Row>, Refusal>
    requires { (k ≤ most_k) × (root < number_room two) }
    ensures { BodyRead two bytes.now at nodes k root result }
{
    let head = read_head(bytes, at, k)?;
    let leaves = read_leaves(bytes, head.at, nodes, head.value, two)?;
    let tail = read_tail(bytes, leaves.at, head.value, two)?;
    let Leaves { nodes, backs } = leaves.value;
    let value = Row {
        root,
        size: head.value.size,
        nodes,
        backs,
        lag: tail.value.lag,
        table: tail.value.table,
    };
    Ok(Read { value, at: tail.at })
}

// A LUT: its root, at least so high, and what stands behind it.
pub fn read_lut(
    bytes: &[u8],
    at: usize,
    nodes: usize,
    k: usize,
    least: usize,
    two: bool,
) -> Result<Read<Row>, Refusal>
    requires { k ≤ most_k }
    ensures { LutRead two bytes.now at nodes k least result }
{
    let root = read_number(bytes, at, NumberField::Root { least, nodes }, two)?;
    read_body(bytes, root.at, nodes, k, root.value, two)
}
