// The listing: from the bytes read (k, the target, the net) to the text printed.
#![tactic(auto)]

ghost use Rattle.std.specs.Prelude.{◌≡◌, ◌≤◌, ◌<◌, length, get_or, drop};
ghost use Rattle.net_model.specs.Arrays.{net_in};
ghost use Rattle.net_bytes.specs.Walk.{rest};
ghost use Rattle.net_reader.specs.ReadAnswer.{arrays_of};
ghost use Rattle.cover_records.specs.Outcomes.{check_net};
ghost use Rattle.cover_records.specs.Program.{list_checked, listing, listing_program};
ghost use Rattle.cover_writer.specs.Writing.{Wrote};
ghost use Rattle.limits.specs.Limits.{cover_area, scratch_area, text_room};
ghost use Rattle.limits.specs.Courses.{long};
ghost use Rattle.job_sizes.specs.Sizes.{Fit};
ghost use Rattle.job_list.specs.Asked.{Listing, ListsNet};

use cover_writer::CoverHead;
use inputs::byte_at;
use job_settle::{Call, settle};
use job_sizes::check_sizes;
use limits::{AREA, GATES, NODES, PACKED, ROWS, SCRATCH, TABLE, TEXT, long_course};
use net_reader::{NetSizes, delays_at, outs_at, read_net};
use text_digits::write_refusal;
use text_listing::write_text;

// Checks 9 to 12 and the cover of a net read.
fn list_read(
    z: NetSizes,
    net: &mut [usize],
    tables: &[u64],
    k: usize,
    target: usize,
    out: &mut [u8],
) -> usize
    requires { Listing k target z net.old tables.now out.old }
    ensures { ListsNet k target (net_in (arrays_of z net.old tables.now)) out.old out.new result }
{
    let mut work = [0u8; TABLE];
    let mut seen = [0usize; GATES];
    let mut noted = [0usize; GATES];
    let mut labels = [0i64; NODES];
    let mut rows = [0usize; ROWS];
    let mut luts = [0u64; GATES];
    let call = Call {
        k,
        target,
        forward: false,
        lacks: false,
    };
    let settled = settle(
        z,
        net,
        tables,
        &mut seen,
        &mut noted,
        call,
        &mut work,
        &mut labels,
        &mut rows,
        &mut luts,
    );
    let period = match settled {
        Ok(period) => period,
        Err(refusal) => return write_refusal(usize::from(u8::from(refusal)), out),
    };
    let held = &net[..];
    let o = outs_at(z, held);
    let d = delays_at(z, held);
    let head = CoverHead {
        inputs: z.inputs,
        gates: z.gates,
        period,
    };
    write_text(
        head,
        &labels,
        &rows,
        &luts,
        &held[o..],
        &held[d..],
        z.outputs,
        out,
    )
}

// Checks 4 to 12 and the cover, with arrays for a net within the limits.
fn list_net(bytes: &[u8], k: u32, target: u32, out: &mut [u8]) -> usize
    requires { Fit long k target cover_area scratch_area × (text_room ≤ length out.old) }
    ensures { Wrote (list_checked k target (check_net long k bytes.now)) out.old out.new result }
{
    let mut net = [0usize; PACKED];
    let mut tables = [0u64; GATES];
    match read_net(bytes, k, long_course(), &mut net, &mut tables) {
        Ok(sizes) => list_read(sizes, &mut net, &tables, k as usize, target as usize, out),
        Err(refusal) => write_refusal(usize::from(u8::from(refusal)), out),
    }
}

// All checks and the cover.
fn list_parts(k: u32, target: u32, net: &[u8], out: &mut [u8]) -> usize
    requires { text_room ≤ length out.old }
    ensures { Wrote (listing k target net.now) out.old out.new result }
{
    match check_sizes(k, target, AREA, SCRATCH, long_course()) {
        Ok(()) => list_net(net, k, target, out),
        Err(refusal) => write_refusal(usize::from(u8::from(refusal)), out),
    }
}

// The place behind k and the target.
fn net_place(input: &[u8]) -> usize
    ensures { (result ≤ length input.now) × (drop result input.now ≡ rest (rest input.now)) }
{
    input.len().min(2)
}

// The text for every input, in front of out; the bytes behind it are kept.
pub fn list(input: &[u8], out: &mut [u8; TEXT]) -> usize
    ensures { Wrote (listing_program input.now) out.old out.new result }
{
    let k = byte_at(input, 0);
    let target = byte_at(input, 1);
    let at = net_place(input);
    list_parts(k, target, &input[at..], out)
}
