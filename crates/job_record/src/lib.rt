// Checks 9 to 11, 21, 12 or 22 of a net read, its cover as a record in the cover area, the image in the loader area and the registers' contents at the step behind the input pairs in the
// contents area, where they are lent.
#![tactic(auto)]

ghost use Rattle.std.specs.Prelude.{◌≡◌, []};
ghost use Rattle.net_model.specs.Arrays.{net_in};
ghost use Rattle.net_reader.specs.ReadAnswer.{arrays_of};
ghost use Rattle.run_theory.specs.BenchBytes.{kept_after};
ghost use Rattle.cover_records.specs.Kept.{entries_in};
ghost use Rattle.cover_records.specs.Rows.{kept_in};
ghost use Rattle.job_record.specs.MapAnswers.{answer_of};
ghost use Rattle.job_record.specs.Mapping.{filled, Mapping, MapsNet};
ghost use Rattle.job_record.specs.Filling.{Filling};

use cover_contents::write_contents;
use cover_image::write_image;
use cover_writer::{CoverHead, write_cover};
use inputs::copy_in;
use job_settle::{Call, settle};
use limits::{GATES, NODES, ROWS};
use net_reader::NetSizes;
use refusals::Refusal;

// The contents of the cover kept, where a contents area is lent. The run starts from a copy of the section, and takes known, a number a gate, and work.
fn fill_contents(
    z: NetSizes,
    net: &[usize],
    tables: &[u64],
    section: &[u8],
    pairs: &[u8],
    known: &mut [usize],
    head: CoverHead,
    labels: &[i64],
    rows: &[usize],
    work: &mut [u8],
    contents: &mut [u8],
)
    requires { Filling z net.now tables.now section.now known.old (kept_in head.inputs head.gates head.period labels.now rows.now []) work.old contents.old }
    ensures { contents.new ≡ filled (net_in (arrays_of z net.now tables.now)) (entries_in (kept_in head.inputs head.gates head.period labels.now rows.now [])) (kept_after pairs.now (net_in (arrays_of z net.now tables.now)) section.now) contents.old }
{
    if contents.len() == 0 {
        return;
    }
    let mut kept = [0u8; NODES];
    let n = copy_in(section, &mut kept);
    write_contents(
        z,
        net,
        tables,
        pairs,
        &mut kept[..n],
        known,
        head,
        labels,
        rows,
        work,
        contents,
    );
}

// Checks 9 to 11, 21, 12 or 22 and the cover of a net read: the record's length, with the engine's table in work.
pub fn map_read(
    z: NetSizes,
    net: &mut [usize],
    tables: &[u64],
    section: &[u8],
    pairs: &[u8],
    call: Call,
    area: &mut [u8],
    work: &mut [u8],
    loader: &mut [u8],
    contents: &mut [u8],
) -> Result<usize, Refusal>
    requires { Mapping call z net.old tables.now section.now area.old work.old loader.old contents.old }
    ensures { MapsNet call (net_in (arrays_of z net.old tables.now)) section.now pairs.now area.old area.new loader.old loader.new contents.old contents.new (answer_of result) }
{
    let mut seen = [0usize; GATES];
    let mut noted = [0usize; GATES];
    let mut labels = [0i64; NODES];
    let mut rows = [0usize; ROWS];
    let mut luts = [0u64; GATES];
    let period = settle(
        z,
        net,
        tables,
        &mut seen,
        &mut noted,
        call,
        work,
        &mut labels,
        &mut rows,
        &mut luts,
    )?;
    let head = CoverHead {
        inputs: z.inputs,
        gates: z.gates,
        period,
    };
    let n = write_cover(head, &labels, &rows, &luts, area);
    write_image(&rows, &luts, z.gates, loader);
    fill_contents(
        z, net, tables, section, pairs, &mut noted, head, &labels, &rows, work, contents,
    );
    Ok(n)
}
