// Mark: the marks of the examination. A net, k and a candidate's record; its excess over the least period, or a refusal. The work is done under rules; mark itself takes document 01's.
#![tactic(auto)]

ghost use Rattle.std.specs.Prelude.{◌≡◌, length};
ghost use Rattle.limits.specs.Courses.{long, short, Offered};
ghost use Rattle.net_model.specs.Arrays.{net_in};
ghost use Rattle.net_reader.specs.ReadAnswer.{arrays_of};
ghost use Rattle.cover_records.specs.Outcomes.{mark_outcome};
ghost use Rattle.job_sizes.specs.Sizes.{Fit};
ghost use Rattle.job_judge.specs.MarkAnswers.{answer_of, InRange};
ghost use Rattle.job_judge.specs.JudgeMarking.{Marking, MarksTo, MarksNet};

use job_judge::judge;
use job_least::least_of;
use job_scratch::clear_first;
use job_sizes::check_sizes;
use limits::{GATES, PACKED, Rules, TABLE, long_course, short_course};
use net_reader::{NetSizes, read_net};
use refusals::Refusal;

// Checks 9 to 18 of a net read.
fn mark_read(
    z: NetSizes,
    net: &mut [usize],
    tables: &[u64],
    k: usize,
    cover: &[u8],
    work: &mut [u8],
    rules: Rules,
) -> Result<usize, Refusal>
    requires offered { Offered rules }
    requires marking { Marking k z net.old tables.now work.old }
    ensures { MarksNet rules k (net_in (arrays_of z net.old tables.now)) cover.now (answer_of result) }
{
    let least = least_of(z, net, tables, k, work)?;
    let end = TABLE;
    clear_first(work, end);
    judge(z, net, tables, k, cover, least, rules, &mut work[..end])
}

// Checks 4 to 18, with arrays for a net within the limits.
fn mark_bytes(
    bytes: &[u8],
    k: u32,
    cover: &[u8],
    work: &mut [u8],
    rules: Rules,
) -> Result<usize, Refusal>
    requires offered { Offered rules }
    requires fit { Fit rules k 0 rules.area (length work.old) }
    ensures { MarksTo rules k bytes.now cover.now (answer_of result) }
{
    let mut net = [0usize; PACKED];
    let mut tables = [0u64; GATES];
    let sizes = read_net(bytes, k, rules, &mut net, &mut tables)?;
    mark_read(sizes, &mut net, &tables, k as usize, cover, work, rules)
}

// Mark under rules, for every input.
pub fn mark_under(
    net: &[u8],
    k: u32,
    cover: &[u8],
    scratch: &mut [u8],
    rules: Rules,
) -> Result<usize, Refusal>
    requires { Offered rules }
    ensures outcome { mark_outcome rules net.now k cover.now scratch.old ≡ record { answer = answer_of result; scratch = scratch.new } }
    ensures small { InRange (answer_of result) }
{
    check_sizes(k, 0, rules.area, scratch.len(), rules)?;
    let end = rules.scratch;
    let answer = mark_bytes(net, k, cover, &mut scratch[..end], rules);
    clear_first(scratch, end);
    answer
}

// Mark, for every input.
pub fn mark(net: &[u8], k: u32, cover: &[u8], scratch: &mut [u8]) -> Result<usize, Refusal>
    ensures outcome { mark_outcome long net.now k cover.now scratch.old ≡ record { answer = answer_of result; scratch = scratch.new } }
    ensures small { InRange (answer_of result) }
{
    mark_under(net, k, cover, scratch, long_course())
}

// Mark of the short course, for every input.
pub fn short_mark(net: &[u8], k: u32, cover: &[u8], scratch: &mut [u8]) -> Result<usize, Refusal>
    ensures outcome { mark_outcome short net.now k cover.now scratch.old ≡ record { answer = answer_of result; scratch = scratch.new } }
    ensures small { InRange (answer_of result) }
{
    mark_under(net, k, cover, scratch, short_course())
}
