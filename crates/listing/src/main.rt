// The listing program: reads k, the target and the net from standard input, and prints the cover or the refusal.
#![tactic(auto)]

use job_list::list;
use limits::{INPUT, TEXT};
use std::io;
use std::io::Write;
use streams::read_full;

fn main(rt: HostRuntime) -> io::Result<()> {
    let mut stdin = rt.stdin();
    let mut input = [0u8; INPUT];
    let n = read_full(&mut stdin, &mut input)?;
    let mut out = [0u8; TEXT];
    let m = list(&input[..n], &mut out);
    io::writer(&rt).write_all(&out[..m])
}
