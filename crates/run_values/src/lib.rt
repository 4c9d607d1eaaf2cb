// The values of nodes in a step of a run: gate evaluation and pin evaluation call each other. Kept is a byte a node, as in a net's last section: its value one, two and
// three steps back. `known` has a number a gate: 0, or 1 more than its value of this step.
#![tactic(auto)]

ghost use Rattle.std.specs.Prelude.{◌≡◌, ◌+◌, ◌≤◌, ◌<◌, length, MatchOption};
ghost use Rattle.limits.specs.Limits.{most_inputs, most_count};
ghost use Rattle.net_model.specs.Tables.{bit, as_number};
ghost use Rattle.run_values.specs.Sheets.{sheet, told, NodeAsked, NodeTold, PinAsked, PinTold};

use cone_words::value_at;
use limits::PINS;
use net_reader::NetSizes;

// What a step is worked out from: the net in its slices, a byte a node of what is kept, and the inputs of the step as a number.
#[derive(Clone, Copy)]
pub struct Sheet<'a> {
    pub z: NetSizes,
    pub net: &'a [usize],
    pub tables: &'a [u64],
    pub kept: &'a [u8],
    pub word: u64,
}

// Bit i of a number.
fn bit_of(x: u64, i: usize) -> usize
    requires { i < 64 }
    ensures { (result ≡ as_number (bit x i)) × (result ≤ 1) }
{
    value_at(x, i) as usize
}

// A node's value some steps back where no pin has to be asked: what is kept, an input, what this step has noted.
pub fn told_value(
    z: NetSizes,
    kept: &[u8],
    word: u64,
    known: &[usize],
    v: usize,
    back: usize,
) -> Option<usize>
    requires inputs_le_most_inputs { (z.inputs ≤ most_inputs) × (back ≤ most_count) }
    requires v_in_bounds { (v < length kept.now) × (v < z.inputs + length known.now) }
    ensures { MatchOption result (told z.inputs kept.now word known.now v back ≡ 0) (λ value. told z.inputs kept.now word known.now v back ≡ value + 1) }
{
    if 0 < back {
        return Some(bit_of(u64::from(kept[v]), back - 1));
    }
    if v < z.inputs {
        return Some(bit_of(word, v));
    }
    known[v - z.inputs].checked_sub(1)
}

// Gate evaluation: the value of a node some steps back. A gate's value of this step comes from its pins, the last one first.
#[cycle(node_value_pin_value)]
pub fn node_value(s: Sheet, known: &mut [usize], v: usize, back: usize) -> usize
    requires { NodeAsked (sheet s.z s.net.now s.tables.now s.kept.now s.word) known.old v back }
    ensures { NodeTold (sheet s.entry.z s.entry.net.now s.entry.tables.now s.entry.kept.now s.entry.word) known.old known.new v back result }
{
    if let Some(value) = told_value(s.z, s.kept, s.word, known, v, back) {
        return value;
    }
    let g = v - s.z.inputs;
    let mut at = 0;
    for j in (0..s.net[g]).rev() {
        at = 2 * at + pin_value(s, known, PINS * g + j);
    }
    let value = bit_of(s.tables[g], at);
    known[g] = value + 1;
    value
}

// Pin evaluation: the value of the node behind the pin, as many steps back as the pin has registers.
#[cycle(node_value_pin_value)]
fn pin_value(s: Sheet, known: &mut [usize], p: usize) -> usize
    requires { PinAsked (sheet s.z s.net.now s.tables.now s.kept.now s.word) known.old p }
    ensures { PinTold (sheet s.entry.z s.entry.net.now s.entry.tables.now s.entry.kept.now s.entry.word) known.old known.new p result }
{
    let source = s.net[2 * s.z.gates + p];
    let count = s.net[(2 + PINS) * s.z.gates + p];
    node_value(s, known, source, count)
}
