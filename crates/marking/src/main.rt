// The marking program: reads k, the net's length in two bytes, the net and a candidate's record from standard input, and prints the excess or the refusal.
#![tactic(auto)]

use job_grade::grade;
use limits::{ANSWER, INPUT};
use std::io;
use std::io::Write;
use streams::read_full;

fn main(rt: HostRuntime) -> io::Result<()> {
    let mut stdin = rt.stdin();
    let mut input = [0u8; INPUT];
    let n = read_full(&mut stdin, &mut input)?;
    let mut out = [0u8; ANSWER];
    let m = grade(&input[..n], &mut out);
    io::writer(&rt).write_all(&out[..m])
}
