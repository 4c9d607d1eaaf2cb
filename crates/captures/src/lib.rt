// Two captures of one unit: the smallest shift at which they agree.
#![tactic(auto)]

ghost use Rattle.std.specs.Prelude.{◌≡◌, ◌+◌, ◌≤◌, ◌<◌, length};
ghost use Rattle.sequences.specs.Tests.{Tells};
ghost use Rattle.captures.specs.Captures.{most_words, most_shift, no_shift, least_overlap, overlap, Agrees};
ghost use Rattle.captures.specs.AlignOutcome.{align_outcome};
ghost use Rattle.captures.specs.AlignAnswers.{aligned_of};
ghost use Rattle.captures.specs.WordRuns.{Same};

use refusals::Refusal;

// specs/Captures.antt has the same numbers as definitions; `agree` is proved.
pub const WORDS: usize = 4096;

pub const SHIFT: usize = 255;

pub const NO_SHIFT: usize = SHIFT + 1;

pub const OVERLAP: usize = 16;

// The constants in their order.
#[derive(Drop)]
pub struct Limits {
    pub words: usize,
    pub shift: usize,
    pub none: usize,
    pub overlap: usize,
}

// The constants are the definitions.
pub fn agree() -> Limits
    ensures words { result.words ≡ most_words }
    ensures shift { result.shift ≡ most_shift }
    ensures none { result.none ≡ no_shift }
    ensures overlap { result.overlap ≡ least_overlap }
{
    Limits {
        words: WORDS,
        shift: SHIFT,
        none: NO_SHIFT,
        overlap: OVERLAP,
    }
}

// How many steps overlap.
fn overlap_at(first: &[u16], second: &[u16], s: usize) -> usize
    ensures { result ≡ overlap first.now second.now s }
{
    first.len().saturating_sub(s).min(second.len())
}

// Whether the first n words of the second are those of the first from s on.
fn same(first: &[u16], second: &[u16], s: usize, n: usize) -> bool
    requires { (n ≤ length second.now) × (n + s ≤ length first.now) }
    ensures { Tells result (Same first.now second.now s 0 n) }
{
    second[..n] == first[s..s + n]
}

// Whether the captures agree at a shift.
fn agrees(first: &[u16], second: &[u16], s: usize) -> bool
    ensures { Tells result (Agrees first.now second.now s) }
{
    let n = overlap_at(first, second, s);
    if n < OVERLAP {
        return false;
    }
    same(first, second, s, n)
}

// The smallest shift at which the captures agree, none, or that a capture is too long.
pub fn align(first: &[u16], second: &[u16]) -> Result<Option<usize>, Refusal>
    ensures { align_outcome first.now second.now ≡ aligned_of result }
{
    if WORDS < first.len() {
        return Err(Refusal::LongCapture);
    }
    if WORDS < second.len() {
        return Err(Refusal::LongCapture);
    }
    for s in 0..=SHIFT {
        if agrees(first, second, s) {
            return Ok(Some(s));
        }
    }
    Ok(None)
}
