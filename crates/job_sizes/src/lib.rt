// Checks 1, 2 and 3 under rules, by the lengths of the areas; and what is told of an area that may be lent: 3 or 20.
#![tactic(auto)]

ghost use Rattle.std.specs.Prelude.{◌≡◌, ℕ};
ghost use Rattle.refusals.specs.Refusals.{code_of};
ghost use Rattle.job_sizes.specs.Sizes.{sizes_of, lent_size, code_by};

use limits::{LEAST_K, Rules};
use refusals::Refusal;

// The first that fails.
pub fn check_sizes(
    k: u32,
    target: u32,
    area: usize,
    scratch: usize,
    rules: Rules,
) -> Result<(), Refusal>
    ensures { code_of result ≡ sizes_of rules k target area scratch }
{
    if k < LEAST_K {
        return Err(Refusal::LeafLimit);
    }
    if rules.most < k {
        return Err(Refusal::LeafLimit);
    }
    if rules.period < target {
        return Err(Refusal::Target);
    }
    if area < rules.area {
        return Err(Refusal::Areas);
    }
    if scratch < rules.scratch {
        return Err(Refusal::Areas);
    }
    Ok(())
}

// What is told where an area of this length is lent and has fewer than `least` bytes. An area of length 0 is not lent.
pub fn check_lent<E: Copy>(n: usize, least: usize, told: E) -> Result<(), E>
    ensures { (number : E → ℕ) → code_by number result ≡ lent_size least (number told) n }
{
    if n == 0 {
        return Ok(());
    }
    if n < least {
        return Err(told);
    }
    Ok(())
}
