// The text of the bench: a line of 0s and 1s for each step of a net that was read and checked, outputs in order.
#![tactic(auto)]

ghost use Rattle.std.specs.Prelude.{◌≡◌, ◌+◌, ◌<◌};
ghost use Rattle.net_model.specs.Arrays.{net_in};
ghost use Rattle.net_reader.specs.ReadAnswer.{arrays_of};
ghost use Rattle.run_values.specs.Sheets.{sheet};
ghost use Rattle.cover_writer.specs.Writing.{Wrote};
ghost use Rattle.text_bench.specs.BenchText.{steps_shown, bench_text};
ghost use Rattle.text_bench.specs.BenchAsked.{DigitsAsked, DigitsTold, LineAsked, LineTold, BenchAsked};

use limits::STEPS;
use net_reader::{NetSizes, delays_at, outs_at};
use run_step::{advance, pair_at, steps_of, value_all};
use run_values::{Sheet, node_value};
use text_digits::put_byte;

// '0' or '1'.
fn bit_digit(value: usize) -> u8
    requires { value < 2 }
    ensures { result ≡ 48 + value }
{
    b'0' + value as u8
}

// The digits of the outputs in a step.
fn put_outputs(s: Sheet, known: &mut [usize], mut at: usize, out: &mut [u8]) -> usize
    requires { DigitsAsked (sheet s.z s.net.now s.tables.now s.kept.now s.word) known.old at out.old }
    ensures { DigitsTold (sheet s.entry.z s.entry.net.now s.entry.tables.now s.entry.kept.now s.entry.word) known.old known.new at out.old out.new result }
{
    let a = outs_at(s.z, s.net);
    let b = delays_at(s.z, s.net);
    for o in 0..s.z.outputs {
        let value = node_value(s, known, s.net[a + o], s.net[b + o]);
        at = put_byte(bit_digit(value), at, out);
    }
    at
}

// A step: its line, and what is kept, one step on.
fn put_step(
    z: NetSizes,
    net: &[usize],
    tables: &[u64],
    word: u64,
    kept: &mut [u8],
    known: &mut [usize],
    at: usize,
    out: &mut [u8],
) -> usize
    requires { LineAsked z net.now tables.now kept.old known.old at out.old }
    ensures { LineTold (sheet z net.now tables.now kept.old word) kept.new known.old known.new at out.old out.new result }
{
    let s = Sheet {
        z,
        net,
        tables,
        kept,
        word,
    };
    value_all(s, known);
    let a = put_outputs(s, known, at, out);
    advance(z, word, known, kept);
    put_byte(b'\n', a, out)
}

// The number of steps shown.
fn steps_shown(pairs: &[u8]) -> usize
    ensures { result ≡ steps_shown pairs.now }
{
    steps_of(pairs).min(STEPS)
}

// The whole text in front of out; the bytes behind it are kept. What is kept starts as the net's section.
pub fn write_bench(
    z: NetSizes,
    net: &[usize],
    tables: &[u64],
    pairs: &[u8],
    kept: &mut [u8],
    known: &mut [usize],
    out: &mut [u8],
) -> usize
    requires { BenchAsked z net.now tables.now kept.old known.old out.old }
    ensures { Wrote (bench_text (net_in (arrays_of z net.now tables.now)) kept.old pairs.now) out.old out.new result }
{
    let n = steps_shown(pairs);
    let mut at = 0;
    for t in 0..n {
        let word = pair_at(pairs, t);
        at = put_step(z, net, tables, word, kept, known, at, out);
    }
    at
}
