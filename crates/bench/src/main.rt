// The bench program: reads k, the net's length in two bytes, the net and pairs of input bytes from standard input, and prints the outputs of each step, or the refusal.
#![tactic(auto)]

ghost use Rattle.std.specs.Prelude.{◌+◌, ◌≤◌, length, IfOk};
ghost use Rattle.limits.specs.Limits.{bench_input};

use inputs::net_length;
use job_bench::bench;
use limits::{BENCH_INPUT, BENCH_TEXT, STEPS};
use std::io;
use std::io::{Read, Write};
use streams::read_full;

// Asks for n bytes behind the first `at`; the place behind those that came.
fn fill<R: Read>(from: &mut R, input: &mut [u8], at: usize, n: usize) -> io::Result<usize>
    requires { at + n ≤ length input.old }
    ensures { IfOk result (λ m. m ≤ at + n) }
{
    let came = read_full(from, &mut input[at..at + n])?;
    Ok(at + came)
}

// Asks for three bytes, for the net and for the pairs of 65,535 steps, and for nothing behind a part that is not whole; the number of bytes that came.
fn take_input<R: Read>(from: &mut R, input: &mut [u8]) -> io::Result<usize>
    requires { bench_input ≤ length input.old }
    ensures { IfOk result (λ m. m ≤ bench_input) }
{
    let head = fill(from, input, 0, 3)?;
    if head < 3 {
        return Ok(head);
    }
    let n = net_length(input).min(BENCH_INPUT - 3 - 2 * STEPS);
    let end = fill(from, input, 3, n)?;
    if end < 3 + n {
        return Ok(end);
    }
    fill(from, input, end, 2 * STEPS)
}

fn main(rt: HostRuntime) -> io::Result<()> {
    let mut stdin = rt.stdin();
    let mut input = [0u8; BENCH_INPUT];
    let n = take_input(&mut stdin, &mut input)?;
    let mut out = [0u8; BENCH_TEXT];
    let m = bench(&input[..n], &mut out);
    io::writer(&rt).write_all(&out[..m])
}
