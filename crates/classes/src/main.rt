// The generator of the table of classes: prints 256 numbers, one a line.
#![tactic(auto)]

use std::io;
use std::io::Write;
use text_classes::{CLASS_TEXT, write_classes};

fn main(rt: HostRuntime) -> io::Result<()> {
    let mut out = [0u8; CLASS_TEXT];
    let m = write_classes(&mut out);
    io::writer(&rt).write_all(&out[..m])
}
