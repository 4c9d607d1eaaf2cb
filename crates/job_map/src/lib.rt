// Map: the key of the examination. A net, k and a target; a cover in the cover area, or a refusal; the image in the loader area and the registers' contents in the contents area, if they are lent.
// The work is done under rules and in a mode; map, map_loader, map_forward and change_over take document 01's rules, short_map those of the short course. Only map_forward and change_over ask for
// forward covers, and only they lend a contents area; only change_over lends input pairs; map and short_map lend no loader area.
#![tactic(auto)]

ghost use Rattle.std.specs.Prelude.{◌≡◌, true, ◌&&◌, ltb, eqb, length};
ghost use Rattle.limits.specs.Limits.{contents_area, loader_area};
ghost use Rattle.limits.specs.Courses.{long, short, Offered};
ghost use Rattle.cover_records.specs.Outcomes.{map_outcome};
ghost use Rattle.cover_records.specs.LoaderOutcome.{loader_outcome};
ghost use Rattle.cover_records.specs.ForwardOutcome.{forward_outcome};
ghost use Rattle.cover_records.specs.ChangeOutcome.{change_outcome};
ghost use Rattle.label_aim.specs.Aims.{mode_of};
ghost use Rattle.job_sizes.specs.Sizes.{Fit, LentFits};
ghost use Rattle.job_record.specs.MapAnswers.{answer_of, InRange};
ghost use Rattle.job_record.specs.Mapping.{MapsTo};
ghost use Rattle.job_map.specs.Areas.{areas_outcome};

use inputs::place_behind;
use job_record::map_read;
use job_scratch::clear_first;
use job_settle::Call;
use job_sizes::{check_lent, check_sizes};
use limits::{CONTENTS, GATES, LOADER, PACKED, Rules, long_course, short_course};
use net_reader::read_drawn;
use refusals::Refusal;

// Whether a contents area of this length is lent and the net has no section.
fn lacks_section(contents: usize, section: usize) -> bool
    ensures { result ≡ (ltb 0 contents && eqb section 0) }
{
    contents > 0 && section == 0
}

// Checks 4 to 11, 21, 12 or 22, the cover, the image and the contents, with arrays for a net within the limits.
fn map_bytes(
    bytes: &[u8],
    k: u32,
    target: u32,
    pairs: &[u8],
    area: &mut [u8],
    work: &mut [u8],
    loader: &mut [u8],
    contents: &mut [u8],
    forward: bool,
    rules: Rules,
) -> Result<usize, Refusal>
    requires offered { Offered rules }
    requires fit { Fit rules k target (length area.old) (length work.old) × LentFits loader_area (length loader.old) × LentFits contents_area (length contents.old) × (¬ (length contents.old ≡ 0) → forward ≡ true) }
    ensures { MapsTo (mode_of forward) rules k target bytes.now pairs.now area.old area.new loader.old loader.new contents.old contents.new (answer_of result) }
{
    let mut net = [0usize; PACKED];
    let mut tables = [0u64; GATES];
    let drawn = read_drawn(bytes, k, rules, &mut net, &mut tables)?;
    let at = place_behind(bytes, 0, drawn.at);
    let lacks = lacks_section(contents.len(), bytes.len() - at);
    let call = Call {
        k: k as usize,
        target: target as usize,
        forward,
        lacks,
    };
    map_read(
        drawn.sizes,
        &mut net,
        &tables,
        &bytes[at..],
        pairs,
        call,
        area,
        work,
        loader,
        contents,
    )
}

// Map in a mode under rules, for every input. A loader or contents area of length 0 is not lent; only in forward mode may a contents area be. Its contents are those of the step behind the pairs.
pub fn map_under(
    net: &[u8],
    k: u32,
    target: u32,
    pairs: &[u8],
    area: &mut [u8],
    scratch: &mut [u8],
    loader: &mut [u8],
    contents: &mut [u8],
    forward: bool,
    rules: Rules,
) -> Result<usize, Refusal>
    requires { Offered rules × (¬ (length contents.old ≡ 0) → forward ≡ true) }
    ensures outcome { areas_outcome (mode_of forward) rules net.now k target pairs.now area.old scratch.old loader.old contents.old ≡ record { answer = answer_of result; area = area.new; scratch = scratch.new; loader = loader.new; contents = contents.new } }
    ensures small { InRange (answer_of result) }
{
    check_sizes(k, target, area.len(), scratch.len(), rules)?;
    check_lent(contents.len(), CONTENTS, Refusal::Areas)?;
    let end = rules.scratch;
    if let Err(refusal) = check_lent(loader.len(), LOADER, Refusal::LoaderArea) {
        clear_first(scratch, end);
        return Err(refusal);
    }
    let answer = map_bytes(
        net,
        k,
        target,
        pairs,
        area,
        &mut scratch[..end],
        loader,
        contents,
        forward,
        rules,
    );
    clear_first(scratch, end);
    answer
}

// Map, for every input.
pub fn map(
    net: &[u8],
    k: u32,
    target: u32,
    area: &mut [u8],
    scratch: &mut [u8],
) -> Result<usize, Refusal>
    ensures outcome { map_outcome long net.now k target area.old scratch.old ≡ record { answer = answer_of result; area = area.new; scratch = scratch.new } }
    ensures small { InRange (answer_of result) }
{
    let steps = [0u8; 0];
    let mut bare = [0u8; 0];
    let mut none = [0u8; 0];
    map_under(
        net,
        k,
        target,
        &steps,
        area,
        scratch,
        &mut bare,
        &mut none,
        false,
        long_course(),
    )
}

// Map with a loader area, for every input.
pub fn map_loader(
    net: &[u8],
    k: u32,
    target: u32,
    area: &mut [u8],
    scratch: &mut [u8],
    loader: &mut [u8],
) -> Result<usize, Refusal>
    ensures outcome { loader_outcome long net.now k target area.old scratch.old loader.old ≡ record { answer = answer_of result; area = area.new; scratch = scratch.new; loader = loader.new } }
    ensures small { InRange (answer_of result) }
{
    let steps = [0u8; 0];
    let mut none = [0u8; 0];
    map_under(
        net,
        k,
        target,
        &steps,
        area,
        scratch,
        loader,
        &mut none,
        false,
        long_course(),
    )
}

// Map in forward mode, with a loader area and a contents area, for every input.
pub fn map_forward(
    net: &[u8],
    k: u32,
    target: u32,
    area: &mut [u8],
    scratch: &mut [u8],
    loader: &mut [u8],
    contents: &mut [u8],
) -> Result<usize, Refusal>
    ensures outcome { forward_outcome long net.now k target area.old scratch.old loader.old contents.old ≡ record { answer = answer_of result; area = area.new; scratch = scratch.new; loader = loader.new; contents = contents.new } }
    ensures small { InRange (answer_of result) }
{
    let steps = [0u8; 0];
    map_under(
        net,
        k,
        target,
        &steps,
        area,
        scratch,
        loader,
        contents,
        true,
        long_course(),
    )
}

// The change-over: map in forward mode, its contents those of the step behind the input pairs, for every input. A contents area must be lent.
pub fn change_over(
    net: &[u8],
    k: u32,
    target: u32,
    pairs: &[u8],
    area: &mut [u8],
    scratch: &mut [u8],
    loader: &mut [u8],
    contents: &mut [u8],
) -> Result<usize, Refusal>
    ensures outcome { change_outcome long net.now k target pairs.now area.old scratch.old loader.old contents.old ≡ record { answer = answer_of result; area = area.new; scratch = scratch.new; loader = loader.new; contents = contents.new } }
    ensures small { InRange (answer_of result) }
{
    if contents.len() == 0 {
        check_sizes(k, target, area.len(), scratch.len(), long_course())?;
        return Err(Refusal::Areas);
    }
    map_under(
        net,
        k,
        target,
        pairs,
        area,
        scratch,
        loader,
        contents,
        true,
        long_course(),
    )
}

// Map of the short course, for every input.
pub fn short_map(
    net: &[u8],
    k: u32,
    target: u32,
    area: &mut [u8],
    scratch: &mut [u8],
) -> Result<usize, Refusal>
    ensures outcome { map_outcome short net.now k target area.old scratch.old ≡ record { answer = answer_of result; area = area.new; scratch = scratch.new } }
    ensures small { InRange (answer_of result) }
{
    let steps = [0u8; 0];
    let mut bare = [0u8; 0];
    let mut none = [0u8; 0];
    map_under(
        net,
        k,
        target,
        &steps,
        area,
        scratch,
        &mut bare,
        &mut none,
        false,
        short_course(),
    )
}
