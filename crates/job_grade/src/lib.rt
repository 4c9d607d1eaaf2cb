// The marking: from the bytes read (k, the net's length, the net, the record) to the text printed.
#![tactic(auto)]

ghost use Rattle.std.specs.Prelude.{◌≡◌, ◌+◌, ◌*◌, ◌-◌, ◌≤◌, ◌<◌, length, get_or, drop};
ghost use Rattle.cover_records.specs.Program.{marking, marking_program};
ghost use Rattle.cover_writer.specs.Writing.{Wrote};
ghost use Rattle.limits.specs.Limits.{refusal_room};

use inputs::{byte_at, net_length, place_behind};
use job_mark::mark;
use limits::{ANSWER, SCRATCH};
use text_digits::{write_excess, write_refusal};

// The record's mark as text.
fn grade_parts(k: u32, net: &[u8], cover: &[u8], out: &mut [u8]) -> usize
    requires { refusal_room ≤ length out.old }
    ensures { Wrote (marking k net.now cover.now) out.old out.new result }
{
    let mut scratch = [0u8; SCRATCH];
    match mark(net, k, cover, &mut scratch) {
        Ok(excess) => write_excess(excess, out),
        Err(refusal) => write_refusal(usize::from(u8::from(refusal)), out),
    }
}

// The text for every input, in front of out; the bytes behind it are kept.
pub fn grade(input: &[u8], out: &mut [u8; ANSWER]) -> usize
    ensures { Wrote (marking_program input.now) out.old out.new result }
{
    let k = byte_at(input, 0);
    let n = net_length(input);
    let at = place_behind(input, 0, 3);
    let end = place_behind(input, at, n);
    grade_parts(k, &input[at..end], &input[end..], out)
}
