// The reader's answers as lines: a batch of cases, each k, the net's length in two bytes and the net.
#![tactic(auto)]

ghost use Rattle.std.specs.Prelude.{◌≡◌, ◌≤◌, ◌<◌, length, get_or, drop};
ghost use Rattle.net_bytes.specs.Walk.{net_reader};
ghost use Rattle.cover_writer.specs.Writing.{Wrote};
ghost use Rattle.limits.specs.Courses.{long};
ghost use Rattle.limits.specs.Limits.{line_room};
ghost use Rattle.text_readings.specs.ReadingText.{sizes_text, reading_text};

use inputs::{byte_at, net_length, place_behind};
use limits::{GATES, PACKED, long_course};
use net_reader::{NetSizes, read_net};
use text_digits::{put_byte, put_field, write_refusal};

// The numbers of inputs, gates and outputs on a line.
fn write_sizes(z: NetSizes, out: &mut [u8]) -> usize
    requires { line_room ≤ length out.old }
    ensures { Wrote (sizes_text z.inputs z.gates z.outputs) out.old out.new result }
{
    let a = put_field(b"read ", z.inputs, 0, out);
    let b = put_field(b" ", z.gates, a, out);
    let c = put_field(b" ", z.outputs, b, out);
    put_byte(10, c, out)
}

// The line for a net record.
fn write_reading(net: &[u8], k: u32, out: &mut [u8]) -> usize
    requires { line_room ≤ length out.old }
    ensures { Wrote (reading_text (net_reader long k net.now)) out.old out.new result }
{
    let mut packed = [0usize; PACKED];
    let mut tables = [0u64; GATES];
    match read_net(net, k, long_course(), &mut packed, &mut tables) {
        Ok(z) => write_sizes(z, out),
        Err(refusal) => write_refusal(usize::from(u8::from(refusal)), out),
    }
}

// The line for a case, in front of out; a missing k reads as 0.
pub fn write_case(case: &[u8], out: &mut [u8]) -> usize
    requires { line_room ≤ length out.old }
    ensures { Wrote (reading_text (net_reader long (get_or case.now 0 0) (drop 3 case.now))) out.old out.new result }
{
    let k = byte_at(case, 0);
    let at = place_behind(case, 0, 3);
    write_reading(&case[at..], k, out)
}

// The place behind the case that starts at a place; what is cut off at the input's end ends there.
pub fn case_end(input: &[u8], at: usize) -> usize
    requires { at < length input.now }
    ensures { (at < result) × (result ≤ length input.now) }
{
    let n = net_length(&input[at..]);
    let net = place_behind(input, at, 3);
    place_behind(input, net, n)
}
