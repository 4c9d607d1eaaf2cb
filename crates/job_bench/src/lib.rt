// The bench: from the bytes read (k, the net's length, the net, pairs of input bytes) to the text printed.
#![tactic(auto)]

ghost use Rattle.std.specs.Prelude.{◌≡◌, not, ◌≤◌, length};
ghost use Rattle.limits.specs.Limits.{least_k, most_k, most_nodes, bench_room};
ghost use Rattle.net_model.specs.Arrays.{net_in};
ghost use Rattle.net_bytes.specs.Reading.{between};
ghost use Rattle.net_bytes.specs.Walk.{drawn};
ghost use Rattle.net_reader.specs.ReadAnswer.{arrays_of};
ghost use Rattle.cover_writer.specs.Writing.{Wrote};
ghost use Rattle.job_bench.specs.BenchProgram.{bench_drawn, bench_of, bench_program};
ghost use Rattle.job_bench.specs.BenchJob.{Benching, BenchTold};

use inputs::{byte_at, copy_in, net_length, place_behind};
use limits::{BENCH_TEXT, GATES, LEAST_K, MOST_K, NODES, PACKED, long_course};
use net_checks::check_graph;
use net_reader::{NetSizes, read_drawn};
use refusals::Refusal;
use text_bench::write_bench;
use text_digits::write_refusal;

// Checks 9 to 11, 21, and the text in front of out, the bytes behind it kept; on a refusal all are. A section of no bytes is none.
fn bench_read(
    z: NetSizes,
    net: &mut [usize],
    tables: &[u64],
    section: &mut [u8],
    pairs: &[u8],
    out: &mut [u8],
) -> Result<usize, Refusal>
    requires { Benching z net.old tables.now section.old out.old }
    ensures { BenchTold (bench_drawn (drawn (net_in (arrays_of z net.old tables.now)) section.old) pairs.now) out.old out.new result }
{
    let mut seen = [0usize; GATES];
    let mut noted = [0usize; GATES];
    let gates = z.gates;
    check_graph(z, net, &mut seen[..gates], &mut noted[..gates])?;
    if section.len() == 0 {
        return Err(Refusal::NoSection);
    }
    Ok(write_bench(z, net, tables, pairs, section, &mut noted[..gates], out))
}

// The same where the section may not be written: the run keeps its values in a copy.
fn bench_section(
    z: NetSizes,
    net: &mut [usize],
    tables: &[u64],
    section: &[u8],
    pairs: &[u8],
    out: &mut [u8],
) -> Result<usize, Refusal>
    requires benching { Benching z net.old tables.now section.now out.old }
    requires section_len_bound { length section.now ≤ most_nodes }
    ensures { BenchTold (bench_drawn (drawn (net_in (arrays_of z net.old tables.now)) section.now) pairs.now) out.old out.new result }
{
    let mut kept = [0u8; NODES];
    let n = copy_in(section, &mut kept);
    bench_read(z, net, tables, &mut kept[..n], pairs, out)
}

// Check 1.
fn unknown(k: u32) -> bool
    ensures { result ≡ not (between least_k most_k k) }
{
    !(LEAST_K..=MOST_K).contains(&k)
}

// The bench for the parts of the input. The section is what the record has behind its net.
fn bench_parts(k: u32, bytes: &[u8], pairs: &[u8], out: &mut [u8]) -> Result<usize, Refusal>
    requires { bench_room ≤ length out.old }
    ensures { BenchTold (bench_of k bytes.now pairs.now) out.old out.new result }
{
    if unknown(k) {
        return Err(Refusal::LeafLimit);
    }
    let mut net = [0usize; PACKED];
    let mut tables = [0u64; GATES];
    let d = read_drawn(bytes, k, long_course(), &mut net, &mut tables)?;
    let at = place_behind(bytes, 0, d.at);
    bench_section(d.sizes, &mut net, &tables, &bytes[at..], pairs, out)
}

// The text for every input, in front of out; the bytes behind it are kept.
pub fn bench(input: &[u8], out: &mut [u8; BENCH_TEXT]) -> usize
    ensures { Wrote (bench_program input.now) out.old out.new result }
{
    let k = byte_at(input, 0);
    let n = net_length(input);
    let at = place_behind(input, 0, 3);
    let end = place_behind(input, at, n);
    match bench_parts(k, &input[at..end], &input[end..], out) {
        Ok(n) => n,
        Err(r) => write_refusal(usize::from(u8::from(r)), out),
    }
}
