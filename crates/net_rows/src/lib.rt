// The rows of a net record: one gate, and one output.
#![tactic(auto)]

ghost use Rattle.std.specs.Prelude.{◌≡◌, List, ℕ, ◌+◌, ◌<◌};
ghost use Rattle.std.specs.Int.Count.{ones};
ghost use Rattle.limits.specs.Limits.{most_pins};
ghost use Rattle.net_model.specs.Arrays.{pins_in};
ghost use Rattle.net_bytes.specs.Walk.{pins_from};
ghost use Rattle.net_rows.specs.RowParts.{Spreading, MapsRead, ListsRead, GateRead, OutputRead};

use limits::{ITEMS, PINS, Rules};
use net_fields::{
    Field, NetField, NumberField, Read, count_of, has, number, ones_of, read_byte, read_items,
    read_number, read_numbers, table_bytes,
};
use refusals::Refusal;

// The pin map and the register map of a gate.
#[derive(Clone, Copy)]
struct Maps {
    pins: u8,
    registers: u8,
}

// The sources, the count and table bytes of a gate.
#[derive(Clone, Copy)]
struct Lists {
    sources: [usize; ITEMS],
    counts: [u8; ITEMS],
    table: [u8; ITEMS],
}

// A gate as read: its number of pins, the source and the count of each, and its table.
#[derive(Clone, Copy, Debug, PartialEq, Eq)]
pub struct GateRow {
    pub pins: usize,
    pub sources: [usize; ITEMS],
    pub counts: [u8; ITEMS],
    pub table: u64,
}

// The counts of the pins so far, the number of pins and of counts used.
#[derive(Clone, Copy)]
struct SpreadSoFar {
    counts: [u8; ITEMS],
    pin: usize,
    used: usize,
}

// An output as read: its source and its count.
#[derive(Clone, Copy, Debug, PartialEq, Eq)]
pub struct OutputRow {
    pub source: usize,
    pub count: u8,
}

// Place i of the maps: a pin with the next count, a pin with none, or no pin.
fn spread_one(so: &mut SpreadSoFar, maps: Maps, counts: [u8; ITEMS], i: usize)
    requires i_lt_most_pins { i < most_pins }
    requires spreading { Spreading maps.pins maps.registers counts i so.old }
    ensures { Spreading maps.pins maps.registers counts (i + 1) so.new }
{
    if !has(maps.pins, i) {
        return;
    }
    if has(maps.registers, i) {
        so.counts[so.pin] = counts[so.used];
        so.pin += 1;
        so.used += 1;
        return;
    }
    so.counts[so.pin] = 0;
    so.pin += 1;
}

// The counts of a gate's pins, rising: those with a register bit take the counts in turn, the others have 0.
fn spread(maps: Maps, counts: [u8; ITEMS]) -> [u8; ITEMS]
    requires { maps.pins < 64 }
    ensures { (s : List ℕ) → pins_from most_pins 0 maps.pins maps.registers s counts ≡ pins_in s result 0 (ones maps.pins) }
{
    let mut so = SpreadSoFar {
        counts: [0u8; ITEMS],
        pin: 0,
        used: 0,
    };
    for i in 0..PINS {
        spread_one(&mut so, maps, counts, i);
    }
    so.counts
}

// The maps of a gate: more pins than k is told before what the register map breaks.
fn read_maps(bytes: &[u8], at: usize, k: u32) -> Result<Read<Maps>, Refusal>
    ensures { MapsRead bytes.now at k result }
{
    let pins = read_byte(bytes, at, Field::Net(NetField::PinMap))?;
    let map = pins.value;
    if k < ones_of(map) {
        return Err(Refusal::WideGate);
    }
    let whole = usize::from(map);
    let registers = read_byte(bytes, pins.at, Field::Net(NetField::RegisterMap(whole)))?;
    Ok(Read {
        value: Maps {
            pins: map,
            registers: registers.value,
        },
        at: registers.at,
    })
}

// The bytes behind the maps: a source for each pin, a count for each register bit, the table.
fn read_lists(
    bytes: &[u8],
    at: usize,
    maps: Maps,
    nodes: usize,
    rules: Rules,
) -> Result<Read<Lists>, Refusal>
    requires { maps.pins < 64 }
    ensures { ListsRead rules.wide bytes.now at maps.pins maps.registers nodes result }
{
    let m = count_of(maps.pins);
    let Read {
        value: sources,
        at: counts_at,
    } = read_numbers(bytes, at, m, NumberField::Source(nodes), rules.wide)?;
    let r = count_of(maps.registers);
    let Read {
        value: counts,
        at: table_at,
    } = read_items(bytes, counts_at, r, Field::Net(NetField::Count))?;
    let b = table_bytes(m);
    let Read { value: table, at } = read_items(bytes, table_at, b, Field::Net(NetField::Table(m)))?;
    let value = Lists {
        sources,
        counts,
        table,
    };
    Ok(Read { value, at })
}

// A gate: its maps, then its lists, then the counts spread over the pins and the table as a number.
pub fn read_gate(
    bytes: &[u8],
    at: usize,
    k: u32,
    nodes: usize,
    rules: Rules,
) -> Result<Read<GateRow>, Refusal>
    ensures { GateRead rules.wide bytes.now at k nodes result }
{
    let Read {
        value: maps,
        at: lists_at,
    } = read_maps(bytes, at, k)?;
    let Read { value: lists, at } = read_lists(bytes, lists_at, maps, nodes, rules)?;
    let Lists {
        sources,
        counts,
        table,
    } = lists;
    let counts = spread(maps, counts);
    let value = GateRow {
        pins: count_of(maps.pins),
        sources,
        counts,
        table: number(table),
    };
    Ok(Read { value, at })
}

// An output: its map, its source, and a count where the map is 1.
pub fn read_output(
    bytes: &[u8],
    at: usize,
    nodes: usize,
    rules: Rules,
) -> Result<Read<OutputRow>, Refusal>
    ensures { OutputRead rules.wide bytes.now at nodes result }
{
    let map = read_byte(bytes, at, Field::Net(NetField::OutputMap))?;
    let source = read_number(bytes, map.at, NumberField::Source(nodes), rules.wide)?;
    let m = usize::from(map.value);
    let counts = read_items(bytes, source.at, m, Field::Net(NetField::Count))?;
    let value = OutputRow {
        source: source.value,
        count: counts.value[0],
    };
    Ok(Read {
        value,
        at: counts.at,
    })
}
