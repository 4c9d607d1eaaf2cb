// Checks 13 to 18 of a candidate's record against a net read, and its excess over the least period. The first bytes of work are the walk's table of marks: all 0 before and after.
#![tactic(auto)]

ghost use Rattle.std.specs.Prelude.{◌≤◌, length};
ghost use Rattle.limits.specs.Courses.{Offered};
ghost use Rattle.limits.specs.Limits.{most_table};
ghost use Rattle.net_model.specs.Arrays.{net_in};
ghost use Rattle.net_reader.specs.ReadAnswer.{arrays_of};
ghost use Rattle.cone_descent.specs.Descent.{Clear};
ghost use Rattle.cover_reader.specs.Reads.{held_in};
ghost use Rattle.refusals.specs.Refusals.{code_of};
ghost use Rattle.job_judge.specs.MarkAnswers.{answer_of};
ghost use Rattle.job_judge.specs.JudgeMarking.{HeldFor, Judging, LinksAsked, LinksToldOf, MarksNet, MarksRead};

use cover_cuts::check_luts;
use cover_links::check_links;
use cover_reader::{Candidate, read_cover};
use limits::{LUTS, PINS, ROWS, Rules};
use net_reader::{NetSizes, delays_at, outs_at};
use refusals::Refusal;

// Checks 16, 17 and 18: the first that fails. n LUTs stand in rows, with their lags.
fn judge_links(
    z: NetSizes,
    net: &[usize],
    n: usize,
    rows: &[usize],
    lags: &[i64],
    period: usize,
) -> Result<(), Refusal>
    requires { LinksAsked z net.now n rows.now lags.now period }
    ensures { LinksToldOf z net.now n rows.now lags.now period (code_of result) }
{
    let o = outs_at(z, net);
    let y = delays_at(z, net);
    let d = 2 * n;
    let e = (2 + PINS) * n;
    check_links(
        z.inputs,
        z.gates,
        &net[o..],
        &net[y..],
        z.outputs,
        rows,
        &rows[n..],
        &rows[d..],
        &rows[e..],
        lags,
        n,
        period,
    )
}

// Checks 14 to 18 of a record that keeps the layout, and its excess over the least period.
fn judge_read(
    z: NetSizes,
    net: &[usize],
    tables: &[u64],
    c: Candidate,
    rows: &[usize],
    lags: &[i64],
    luts: &[u64],
    k: usize,
    least: usize,
    work: &mut [u8],
) -> Result<usize, Refusal>
    requires judging { Judging k z net.now tables.now least × HeldFor k z net.now tables.now c rows.now lags.now luts.now }
    requires most_table_in_bounds { (most_table ≤ length work.old) × Clear work.old }
    ensures marks_read { MarksRead k (net_in (arrays_of z net.now tables.now)) c (held_in c.luts rows.now lags.now luts.now) (answer_of result) }
    ensures clear { Clear work.new }
{
    check_luts(z.inputs, z.gates, net, tables, rows, luts, k, c.luts, work)?;
    judge_links(z, net, c.luts, rows, lags, c.period)?;
    Ok(c.period - least)
}

// Checks 13 to 18 of a record, and its excess over the least period.
pub fn judge(
    z: NetSizes,
    net: &[usize],
    tables: &[u64],
    k: usize,
    cover: &[u8],
    least: usize,
    rules: Rules,
    work: &mut [u8],
) -> Result<usize, Refusal>
    requires offered { Offered rules }
    requires judging { Judging k z net.now tables.now least }
    requires most_table_in_bounds { (most_table ≤ length work.old) × Clear work.old }
    ensures marks_net { MarksNet rules k (net_in (arrays_of z net.now tables.now)) cover.now (answer_of result) }
    ensures clear { Clear work.new }
{
    let mut rows = [0usize; ROWS];
    let mut lags = [0i64; LUTS];
    let mut luts = [0u64; LUTS];
    let c = read_cover(
        cover, z.inputs, z.gates, k, rules, &mut rows, &mut lags, &mut luts,
    )?;
    judge_read(z, net, tables, c, &rows, &lags, &luts, k, least, work)
}
