// Reading a stream into a lent area until the area is full or the stream ends.
#![tactic(auto)]

ghost use Rattle.std.specs.Prelude.{◌≤◌, length, IfOk};

use std::io;
use std::io::Read;

// Reads until the area is full or nothing more comes; the number of bytes that came.
pub fn read_full<R: Read>(from: &mut R, area: &mut [u8]) -> io::Result<usize>
    ensures { IfOk result (λ n. n ≤ length area.old) }
{
    let mut at = 0;
    while at < area.len() {
        let n = from.read(&mut area[at..])?;
        if n == 0 {
            return Ok(at);
        }
        at += n;
    }
    Ok(at)
}
