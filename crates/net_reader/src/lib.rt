// The byte walk over a net record under rules: one pass over any bytes, head, body, section and end, each byte tested when read. The net is stored in one slice of numbers and one of tables.
#![tactic(auto)]

ghost use Rattle.std.specs.Prelude.{◌≡◌, cond, ◌+◌, ◌≤◌, ◌<◌, length};
ghost use Rattle.limits.specs.Limits.{most_gates, most_inputs, most_pins};
ghost use Rattle.limits.specs.Courses.{Offered};
ghost use Rattle.sequences.specs.Stored.{Stored};
ghost use Rattle.net_model.specs.PackedNet.{order_at, tops_at, outs_at, delays_at, packed_room};
ghost use Rattle.net_model.specs.Tables.{bit};
ghost use Rattle.net_bytes.specs.Walk.{drawn_reader, net_reader};
ghost use Rattle.net_reader.specs.ReadAnswer.{drawn_of, result_of};
ghost use Rattle.net_reader.specs.Rooms.{NetRoom, ReadRoom};
ghost use Rattle.net_reader.specs.NetStored.{GateAsked, GateStored, GatesRead, OutputsRead, HeadRead, SizesRead, BodyRead, with_output};

use limits::{PINS, Rules};
use net_fields::{Field, NetField, Read, gates_field, read_byte, read_number};
use net_marks::store;
use net_rows::{GateRow, read_gate, read_output};
use net_section::read_section;
use refusals::Refusal;

// The numbers of inputs, gates and outputs of a net.
#[derive(Clone, Copy, Debug, PartialEq, Eq)]
pub struct NetSizes {
    pub inputs: usize,
    pub gates: usize,
    pub outputs: usize,
}

// The sizes of the net in the slices, and the place of its section.
#[derive(Clone, Copy, Debug, PartialEq, Eq)]
pub struct DrawnRead {
    pub sizes: NetSizes,
    pub at: usize,
}

// The number of inputs and whether a section follows.
#[derive(Clone, Copy)]
struct NetHead {
    inputs: usize,
    section: bool,
}

// The numbers of gates and outputs.
#[derive(Clone, Copy)]
struct BodySizes {
    gates: usize,
    outputs: usize,
}

// ---- where the parts stand behind pins and chains

// The gates in order.
pub fn order_at(s: NetSizes, net: &[usize]) -> usize
    requires { packed_room s.inputs s.gates s.outputs ≤ length net.now }
    ensures { result ≡ order_at s.inputs s.gates }
{
    (2 + 3 * PINS) * s.gates + (s.inputs + s.gates)
}

pub fn tops_at(s: NetSizes, net: &[usize]) -> usize
    requires { packed_room s.inputs s.gates s.outputs ≤ length net.now }
    ensures { result ≡ tops_at s.inputs s.gates }
{
    order_at(s, net) + s.gates
}

// The sources of the outputs.
pub fn outs_at(s: NetSizes, net: &[usize]) -> usize
    requires { packed_room s.inputs s.gates s.outputs ≤ length net.now }
    ensures { result ≡ outs_at s.inputs s.gates }
{
    tops_at(s, net) + s.gates
}

// The registers of the outputs.
pub fn delays_at(s: NetSizes, net: &[usize]) -> usize
    requires { packed_room s.inputs s.gates s.outputs ≤ length net.now }
    ensures { result ≡ delays_at s.inputs s.gates s.outputs }
{
    outs_at(s, net) + s.outputs
}

// ---- what was read is stored

fn store_counts(counts: &[u8], net: &mut [usize], at: usize)
    requires { (most_pins ≤ length counts.now) × (at + most_pins ≤ length net.old) }
    ensures { Stored net.old at counts.now most_pins net.new }
{
    for j in 0..PINS {
        net[at + j] = usize::from(counts[j]);
    }
}

// A row is stored as gate g.
fn store_gate(net: &mut [usize], tables: &mut [u64], gates: usize, g: usize, row: GateRow)
    requires { GateAsked net.old tables.old gates g row }
    ensures { GateStored net.old tables.old gates g row net.new tables.new }
{
    store(&row.sources, PINS, net, 2 * gates + PINS * g);
    store_counts(&row.counts, net, (2 + PINS) * gates + PINS * g);
    net[g] = row.pins;
    tables[g] = row.table;
}

// The place behind the gates, each stored as it is read.
fn read_gates(
    bytes: &[u8],
    at: usize,
    k: u32,
    s: NetSizes,
    net: &mut [usize],
    tables: &mut [u64],
    rules: Rules,
) -> Result<usize, Refusal>
    requires { NetRoom s net.old tables.old }
    ensures { GatesRead rules.wide bytes.now at k s net.new tables.new result }
{
    let nodes = s.inputs + s.gates;
    let mut next = at;
    for g in 0..s.gates {
        let row = read_gate(bytes, next, k, nodes, rules)?;
        store_gate(net, tables, s.gates, g, row.value);
        next = row.at;
    }
    Ok(next)
}

// One output is stored.
fn store_output(net: &mut [usize], s: NetSizes, o: usize, source: usize, count: usize)
    requires { (packed_room s.inputs s.gates s.outputs ≤ length net.old) × (o < s.outputs) }
    ensures { net.new ≡ with_output net.old s o source count }
{
    let a = outs_at(s, net);
    let b = delays_at(s, net);
    net[a + o] = source;
    net[b + o] = count;
}

// The place behind the outputs, each stored as it is read.
fn read_outputs(
    bytes: &[u8],
    at: usize,
    s: NetSizes,
    net: &mut [usize],
    rules: Rules,
) -> Result<usize, Refusal>
    requires { packed_room s.inputs s.gates s.outputs ≤ length net.old }
    ensures { OutputsRead rules.wide bytes.now at s net.old net.new result }
{
    let nodes = s.inputs + s.gates;
    let mut next = at;
    for o in 0..s.outputs {
        let row = read_output(bytes, next, nodes, rules)?;
        store_output(net, s, o, row.value.source, usize::from(row.value.count));
        next = row.at;
    }
    Ok(next)
}

// ---- head, body, section and end

// Bit 7 of the first byte.
fn follows(byte: u8) -> bool
    ensures { result ≡ bit byte 7 }
{
    byte >= 128
}

// The head: the number of inputs, tested as it is read, and whether a section follows.
fn read_head(bytes: &[u8]) -> Result<Read<NetHead>, Refusal>
    ensures { HeadRead bytes.now result }
{
    let head = read_byte(bytes, 0, Field::Net(NetField::Inputs))?;
    let value = NetHead {
        inputs: usize::from(head.value % 128),
        section: follows(head.value),
    };
    Ok(Read { value, at: head.at })
}

// The numbers of gates and outputs, each tested as it is read.
fn read_sizes(bytes: &[u8], at: usize, rules: Rules) -> Result<Read<BodySizes>, Refusal>
    requires { Offered rules }
    ensures { SizesRead rules bytes.now at result }
{
    let field = gates_field(rules);
    let gates = read_number(bytes, at, field, rules.wide)?;
    let outputs = read_byte(bytes, gates.at, Field::Net(NetField::Outputs))?;
    let value = BodySizes {
        gates: gates.value,
        outputs: usize::from(outputs.value),
    };
    Ok(Read {
        value,
        at: outputs.at,
    })
}

// The body: the numbers of gates and outputs, the gates, the outputs.
fn read_body(
    bytes: &[u8],
    at: usize,
    k: u32,
    inputs: usize,
    net: &mut [usize],
    tables: &mut [u64],
    rules: Rules,
) -> Result<Read<NetSizes>, Refusal>
    requires offered { Offered rules }
    requires inputs_le_most_inputs { (inputs ≤ most_inputs) × ReadRoom rules net.old tables.old }
    ensures { BodyRead rules bytes.now at k inputs net.new tables.new result }
{
    let sizes = read_sizes(bytes, at, rules)?;
    let s = NetSizes {
        inputs,
        gates: sizes.value.gates,
        outputs: sizes.value.outputs,
    };
    let gates_end = read_gates(bytes, sizes.at, k, s, net, tables, rules)?;
    let end = read_outputs(bytes, gates_end, s, net, rules)?;
    Ok(Read { value: s, at: end })
}

// The number of bytes of the section.
fn section_bytes(follows: bool, s: NetSizes) -> usize
    requires { (s.inputs ≤ most_inputs) × (s.gates ≤ most_gates) }
    ensures { result ≡ cond follows (s.inputs + s.gates) 0 }
{
    if follows { s.inputs + s.gates } else { 0 }
}

// The walk: the net of the record in the slices and the place of its section, which is the rest of the bytes, or the first refusal met.
pub fn read_drawn(
    bytes: &[u8],
    k: u32,
    rules: Rules,
    net: &mut [usize],
    tables: &mut [u64],
) -> Result<DrawnRead, Refusal>
    requires offered { Offered rules }
    requires read_room { ReadRoom rules net.old tables.old }
    ensures { drawn_reader rules k bytes.now ≡ drawn_of result net.new tables.new bytes.now }
{
    let head = read_head(bytes)?;
    let body = read_body(bytes, head.at, k, head.value.inputs, net, tables, rules)?;
    let sizes = body.value;
    let n = section_bytes(head.value.section, sizes);
    let end = read_section(bytes, body.at, n)?;
    if end < bytes.len() {
        return Err(Refusal::BytesBehind);
    }
    Ok(DrawnRead { sizes, at: body.at })
}

// The walk where the section is not asked for: the net alone.
pub fn read_net(
    bytes: &[u8],
    k: u32,
    rules: Rules,
    net: &mut [usize],
    tables: &mut [u64],
) -> Result<NetSizes, Refusal>
    requires offered { Offered rules }
    requires read_room { ReadRoom rules net.old tables.old }
    ensures { net_reader rules k bytes.now ≡ result_of result net.new tables.new }
{
    let drawn = read_drawn(bytes, k, rules, net, tables)?;
    Ok(drawn.sizes)
}
