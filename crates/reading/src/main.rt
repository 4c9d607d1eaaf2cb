// The reader's gate: reads a batch of cases from standard input, and prints the reader's answer to each on a line.
#![tactic(auto)]

ghost use Rattle.std.specs.Prelude.{◌≤◌, ◌<◌, length, IfOk};

use limits::{INPUT, LINE};
use std::io;
use std::io::Write;
use streams::read_full;
use text_readings::{case_end, write_case};

// Prints the line for the case at a place, and gives the place behind it.
fn print_case<W: Write>(to: &mut W, input: &[u8], at: usize) -> io::Result<usize>
    requires { at < length input.now }
    ensures { IfOk result (λ end. (at < end) × (end ≤ length input.now)) }
{
    let mut out = [0u8; LINE];
    let end = case_end(input, at);
    let m = write_case(&input[at..end], &mut out);
    to.write_all(&out[..m])?;
    Ok(end)
}

fn main(rt: HostRuntime) -> io::Result<()> {
    let mut stdin = rt.stdin();
    let mut stdout = io::writer(&rt);
    let mut input = [0u8; INPUT];
    let n = read_full(&mut stdin, &mut input)?;
    let mut at = 0;
    while at < n {
        at = print_case(&mut stdout, &input[..n], at)?;
    }
    Ok(())
}
