// One step of a net from what is kept of its run, and the run over pairs of input bytes. A step is step 0 of the run from what is kept; its inputs are a number, input i in bit i.
#![tactic(auto)]

ghost use Rattle.std.specs.Prelude.{◌≡◌, ◌+◌, ◌*◌, ◌<◌, length};
ghost use Rattle.run_theory.specs.BenchBytes.{pair_at, steps_of};
ghost use Rattle.run_values.specs.Sheets.{sheet, StepReady};
ghost use Rattle.run_step.specs.Stepping.{Valued, next_byte, AdvanceAsked, Advanced, StepAsked, StepTold, RunTo};

use inputs::byte_at;
use net_marks::zero;
use net_reader::{NetSizes, order_at};
use run_values::{Sheet, node_value, told_value};

// The values of all gates, in check 9's order: what drives a gate without a register is known before the gate, so that calls nest three deep: gate, pin, node.
fn value_gates(s: Sheet, known: &mut [usize])
    requires { StepReady (sheet s.z s.net.now s.tables.now s.kept.now s.word) known.old }
    ensures { Valued (sheet s.entry.z s.entry.net.now s.entry.tables.now s.entry.kept.now s.entry.word) known.old known.new }
{
    let at = order_at(s.z, s.net);
    for i in 0..s.z.gates {
        let g = s.net[at + i];
        node_value(s, known, s.z.inputs + g, 0);
    }
}

// The values of all gates, whatever was noted before.
pub fn value_all(s: Sheet, known: &mut [usize])
    requires { StepAsked s.z s.net.now s.tables.now s.kept.now known.old }
    ensures { Valued (sheet s.entry.z s.entry.net.now s.entry.tables.now s.entry.kept.now s.entry.word) known.old known.new }
{
    zero(known);
    value_gates(s, known);
}

// A byte of what is kept, one step on.
fn next_byte(byte: u8, value: usize) -> u8
    requires { value < 2 }
    ensures { result ≡ next_byte byte value }
{
    (2 * (usize::from(byte) % 4) + value) as u8
}

// What is kept, one step on.
pub fn advance(z: NetSizes, word: u64, known: &[usize], kept: &mut [u8])
    requires { AdvanceAsked z known.now kept.old }
    ensures { Advanced z.inputs word known.now kept.old kept.new (z.inputs + z.gates) }
{
    for v in 0..z.inputs + z.gates {
        let value = told_value(z, kept, word, known, v, 0).unwrap();
        kept[v] = next_byte(kept[v], value);
    }
}

// One step.
pub fn step(
    z: NetSizes,
    net: &[usize],
    tables: &[u64],
    word: u64,
    kept: &mut [u8],
    known: &mut [usize],
)
    requires { StepAsked z net.now tables.now kept.old known.old }
    ensures { StepTold (sheet z net.now tables.now kept.old word) kept.new known.old known.new }
{
    let s = Sheet {
        z,
        net,
        tables,
        kept,
        word,
    };
    value_all(s, known);
    advance(z, word, known, kept);
}

// The inputs of step t: two bytes, low first.
pub fn pair_at(pairs: &[u8], t: usize) -> u64
    requires { 2 * t + 1 < length pairs.now }
    ensures { result ≡ pair_at pairs.now t }
{
    let low = byte_at(pairs, 2 * t);
    let high = byte_at(pairs, 2 * t + 1);
    u64::from(low + 256 * high)
}

// The whole pairs of input bytes.
pub fn steps_of(pairs: &[u8]) -> usize
    ensures { result ≡ steps_of pairs.now }
{
    pairs.len() / 2
}

// A step for each whole pair of input bytes: what is kept then is the last section of the run so far.
pub fn run(
    z: NetSizes,
    net: &[usize],
    tables: &[u64],
    pairs: &[u8],
    kept: &mut [u8],
    known: &mut [usize],
)
    requires { StepAsked z net.now tables.now kept.old known.old }
    ensures { RunTo z net.now tables.now pairs.now kept.old known.old kept.new known.new (steps_of pairs.now) }
{
    let n = steps_of(pairs);
    for t in 0..n {
        let word = pair_at(pairs, t);
        step(z, net, tables, word, kept, known);
    }
}
