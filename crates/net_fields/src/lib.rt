// The fields of a net record and of a cover record, the bytes that may stand in them and the numbers of one or two bytes: each tested when read.
// Tests and readers of one field are inlined: a caller names its field, and its own test alone is left there.
#![tactic(auto)]

ghost use Rattle.std.specs.Prelude.{◌≡◌, Bool, true, false, ◌&&◌, List, ℕ, ◌+◌, ◌*◌, ◌^◌, ◌≤◌, ◌<◌, leb, ltb, drop, IfOk};
ghost use Rattle.std.specs.Int.Count.{ones};
ghost use Rattle.limits.specs.Limits.{depth_room, most_items, most_pins};
ghost use Rattle.limits.specs.Courses.{Offered};
ghost use Rattle.net_model.specs.Tables.{bit};
ghost use Rattle.net_bytes.specs.Reading.{between, check, number};
ghost use Rattle.net_bytes.specs.Walk.{is_head, from_bytes, net_number, only_bits, table_byte};
ghost use Rattle.net_fields.specs.Fields.{allowed_of, refusal_of, early_of, field_byte, allowed_number, number_refusal, number_early, field_number};
ghost use Rattle.net_fields.specs.Outcomes.{outcome};
ghost use Rattle.refusals.specs.Refusals.{number_of};
ghost use Rattle.net_fields.specs.ItemsRead.{ItemsRead, NumberRead, NumbersRead, TableBytes, Count};

use limits::{
    COUNT_BYTE, GATES, INPUTS_BYTE, ITEMS, LUTS, OUTPUTS_BYTE, PERIOD_NUMBER, Rules, SHORT_GATES,
};
use refusals::Refusal;

// What a byte of a net record may be.
#[derive(Clone, Copy)]
pub enum NetField {
    Inputs,
    Outputs,
    PinMap,
    // Behind this pin map.
    RegisterMap(usize),
    Count,
    // Of so many pins.
    Table(usize),
    OutputMap,
    Past,
}

// What a number of a net record or of a cover record may be. A source and a leaf are below the number of nodes, and a root is from the least one on.
#[derive(Clone, Copy)]
pub enum NumberField {
    Gates,
    Source(usize),
    Period,
    Luts,
    Root { least: usize, nodes: usize },
    Leaf(usize),
    Depth,
    Lag,
    ShortGates,
}

// What a byte of a cover record may be.
#[derive(Clone, Copy)]
pub enum CoverField {
    // At most k.
    Size(usize),
    // The leaf bits below 2 to the number of leaves.
    Map(usize),
    // Of so many leaves.
    Table(usize),
}

// What a byte of a record may be.
#[derive(Clone, Copy)]
pub enum Field {
    Net(NetField),
    Cover(CoverField),
}

// A value as read, and the place behind it.
#[derive(Clone, Copy, Debug, PartialEq, Eq)]
pub struct Read<T> {
    pub value: T,
    pub at: usize,
}

// The number of pins of a pin map, and of count bytes of a register map.
pub fn ones_of(map: u8) -> u32
    ensures { result ≡ ones map }
{
    map.count_ones()
}

// Whether a byte may stand in a field of a net.
#[inline(always)]
fn net_allowed(field: NetField, byte: u8) -> bool
    ensures { result ≡ allowed_of (Field.Net field) byte }
{
    match field {
        NetField::Inputs => inputs_byte(byte),
        NetField::Outputs => matches!(byte, 1..=OUTPUTS_BYTE),
        NetField::PinMap => matches!(byte, 1..=63),
        NetField::RegisterMap(pins) => within(byte, pins),
        NetField::Count => matches!(byte, 1..=COUNT_BYTE),
        NetField::Table(pins) => table_byte(pins, byte),
        NetField::OutputMap => matches!(byte, 0..=1),
        NetField::Past => matches!(byte, 0..=7),
    }
}

// The number of inputs is tested without bit 7, which says whether a section follows.
fn inputs_byte(byte: u8) -> bool
    ensures { result ≡ is_head byte }
{
    matches!(byte % 128, 1..=INPUTS_BYTE)
}

// Whether a byte may stand in a field of a cover.
#[inline(always)]
fn cover_allowed(field: CoverField, byte: u8) -> bool
    ensures { result ≡ allowed_of (Field.Cover field) byte }
{
    match field {
        CoverField::Size(k) => 1 <= byte && usize::from(byte) <= k,
        CoverField::Map(maps) => byte < 128 && usize::from(byte % 64) < maps,
        CoverField::Table(leaves) => table_byte(leaves, byte),
    }
}

// Whether a byte may stand in a field.
#[inline(always)]
fn allowed(field: Field, byte: u8) -> bool
    ensures { result ≡ allowed_of field byte }
{
    match field {
        Field::Net(f) => net_allowed(f, byte),
        Field::Cover(f) => cover_allowed(f, byte),
    }
}

// Whether a map has only bits of another.
fn within(map: u8, whole: usize) -> bool
    ensures { result ≡ only_bits 8 whole map }
{
    let m = usize::from(map);
    m & whole == m
}

// Whether a table byte of so many pins or leaves has no spare bit set.
fn table_byte(pins: usize, byte: u8) -> bool
    ensures { result ≡ table_byte pins byte }
{
    match pins {
        0 => matches!(byte, 0..=1),
        1 => matches!(byte, 0..=3),
        2 => matches!(byte, 0..=15),
        _ => true,
    }
}

// What is told where a byte may not stand in a field of a net.
fn net_refusal(field: NetField) -> Refusal
    ensures { number_of result ≡ refusal_of (Field.Net field) }
{
    match field {
        NetField::Inputs | NetField::Outputs => Refusal::Sizes,
        _ => Refusal::Value,
    }
}

// What is told where a byte may not stand in a field.
fn refusal(field: Field) -> Refusal
    ensures { number_of result ≡ refusal_of field }
{
    match field {
        Field::Net(f) => net_refusal(f),
        Field::Cover(_) => Refusal::Layout,
    }
}

// What is told where the bytes end before a field.
fn early(field: Field) -> Refusal
    ensures { number_of result ≡ early_of field }
{
    match field {
        Field::Net(_) => Refusal::EarlyEnd,
        Field::Cover(_) => Refusal::Layout,
    }
}

// The byte at a place: refused where the bytes end, or where it may not stand in the field.
#[inline(always)]
pub fn read_byte(bytes: &[u8], at: usize, field: Field) -> Result<Read<u8>, Refusal>
    ensures { field_byte field (drop at bytes.now) ≡ outcome (λ b. b) bytes.now result }
{
    if bytes.len() <= at {
        return Err(early(field));
    }
    let value = bytes[at];
    if !allowed(field, value) {
        return Err(refusal(field));
    }
    Ok(Read { value, at: at + 1 })
}

// The next n bytes, each of one field; the first refusal ends it. The values behind them are 0.
#[inline(always)]
pub fn read_items(
    bytes: &[u8],
    at: usize,
    n: usize,
    field: Field,
) -> Result<Read<[u8; ITEMS]>, Refusal>
    requires { n ≤ most_items }
    ensures { ItemsRead bytes.now at n field result }
{
    let mut values = [0u8; ITEMS];
    let mut next = at;
    for i in 0..n {
        let item = read_byte(bytes, next, field)?;
        values[i] = item.value;
        next = item.at;
    }
    Ok(Read {
        value: values,
        at: next,
    })
}

// Whether a number may stand in a field.
#[inline(always)]
fn number_allowed(field: NumberField, value: usize) -> bool
    ensures { result ≡ allowed_number field value }
{
    match field {
        NumberField::Gates => matches!(value, 1..=GATES),
        NumberField::Source(nodes) => value < nodes,
        NumberField::Period => matches!(value, 1..=PERIOD_NUMBER),
        NumberField::Luts => matches!(value, 1..=LUTS),
        NumberField::Root { least, nodes } => least <= value && value < nodes,
        NumberField::Leaf(nodes) => value < nodes,
        NumberField::Depth => value != 0,
        NumberField::Lag => value != 0,
        NumberField::ShortGates => matches!(value, 1..=SHORT_GATES),
    }
}

// What is told where a number may not stand in a field.
fn number_refusal(field: NumberField) -> Refusal
    ensures { number_of result ≡ number_refusal field }
{
    match field {
        NumberField::Gates | NumberField::ShortGates => Refusal::Sizes,
        NumberField::Source(_) => Refusal::Value,
        _ => Refusal::Layout,
    }
}

// What is told where the bytes end before a number or in it.
fn number_early(field: NumberField) -> Refusal
    ensures { number_of result ≡ number_early field }
{
    match field {
        NumberField::Gates | NumberField::Source(_) | NumberField::ShortGates => Refusal::EarlyEnd,
        _ => Refusal::Layout,
    }
}

// The kind of G under these rules.
pub fn gates_field(rules: Rules) -> NumberField
    requires { Offered rules }
    ensures { (two : Bool) → field_number two result ≡ net_number two 5 (between 1 rules.gates) }
{
    if rules.gates == SHORT_GATES {
        NumberField::ShortGates
    } else {
        NumberField::Gates
    }
}

// The kind of a record's period under these rules.
pub fn period_field(rules: Rules) -> NumberField
    requires { Offered rules }
    ensures { (two : Bool) → field_number two result ≡ number two 13 13 (between 1 rules.period) }
{
    NumberField::Period
}

// The kind of a record's LUT count under these rules.
pub fn luts_field(rules: Rules) -> NumberField
    requires { Offered rules }
    ensures { (two : Bool) → field_number two result ≡ number two 13 13 (between 1 rules.luts) }
{
    NumberField::Luts
}

// A number behind its last byte, tested.
#[inline(always)]
fn tested(field: NumberField, value: usize, behind: usize) -> Result<Read<usize>, Refusal>
    ensures same { (s : List ℕ) → check (allowed_number field value) (number_refusal field) value (drop behind s) ≡ outcome (λ n. n) s result }
    ensures small { IfOk result (λ r. r.value ≡ value) }
{
    if !number_allowed(field, value) {
        return Err(number_refusal(field));
    }
    Ok(Read { value, at: behind })
}

// Two bytes as a number, low first.
fn paired(low: u8, high: u8) -> usize
    ensures { (result ≡ low + 256 * high) × (result < depth_room) }
{
    usize::from(u16::from_le_bytes([low, high]))
}

// The number of one byte at a place.
#[inline(always)]
fn read_one(bytes: &[u8], at: usize, field: NumberField) -> Result<Read<usize>, Refusal>
    ensures { NumberRead false bytes.now at field result }
{
    if bytes.len() <= at {
        return Err(number_early(field));
    }
    let value = usize::from(bytes[at]);
    tested(field, value, at + 1)
}

// The number of two bytes at a place.
#[inline(always)]
fn read_two(bytes: &[u8], at: usize, field: NumberField) -> Result<Read<usize>, Refusal>
    ensures { NumberRead true bytes.now at field result }
{
    if bytes.len() <= at {
        return Err(number_early(field));
    }
    let second = at + 1;
    if bytes.len() <= second {
        return Err(number_early(field));
    }
    let value = paired(bytes[at], bytes[second]);
    tested(field, value, second + 1)
}

// The number at a place, of one byte or of two: refused where the bytes end, or where it may not stand in the field.
#[inline(always)]
pub fn read_number(
    bytes: &[u8],
    at: usize,
    field: NumberField,
    two: bool,
) -> Result<Read<usize>, Refusal>
    ensures { NumberRead two bytes.now at field result }
{
    if two {
        read_two(bytes, at, field)
    } else {
        read_one(bytes, at, field)
    }
}

// The next n numbers, each of one field; the first refusal ends it. The values behind them are 0.
#[inline(always)]
pub fn read_numbers(
    bytes: &[u8],
    at: usize,
    n: usize,
    field: NumberField,
    two: bool,
) -> Result<Read<[usize; ITEMS]>, Refusal>
    requires { n ≤ most_items }
    ensures { NumbersRead two bytes.now at n field result }
{
    let mut values = [0usize; ITEMS];
    let mut next = at;
    for i in 0..n {
        let number = read_number(bytes, next, field, two)?;
        values[i] = number.value;
        next = number.at;
    }
    Ok(Read {
        value: values,
        at: next,
    })
}

// The ones of a map as a number of things.
pub fn count_of(map: u8) -> usize
    ensures { Count map result }
{
    ones_of(map) as usize
}

// The number of table bytes of a gate with so many pins.
pub fn table_bytes(pins: usize) -> usize
    requires { pins ≤ most_pins }
    ensures { TableBytes pins result }
{
    match pins {
        4 => 2,
        5 => 4,
        6 => 8,
        _ => 1,
    }
}

// Whether place i of a map is set.
pub fn has(map: u8, i: usize) -> bool
    requires { i < most_pins }
    ensures { result ≡ bit map i }
{
    (map >> i) % 2 == 1
}

// The number of eight bytes, low byte first.
pub fn number(values: [u8; ITEMS]) -> u64
    ensures { result ≡ from_bytes values }
{
    u64::from_le_bytes(values)
}
