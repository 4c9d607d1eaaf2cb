// The scratch, as every outcome but refusals 1 to 3 leaves it.
#![tactic(auto)]

ghost use Rattle.std.specs.Prelude.{◌≡◌, ◌≤◌, length};
ghost use Rattle.cover_records.specs.Outcomes.{cleared};

// The first n bytes become 0, the rest is kept. Document 01's n is 65,536.
pub fn clear_first(scratch: &mut [u8], n: usize)
    requires { n ≤ length scratch.old }
    ensures { scratch.new ≡ cleared n scratch.old }
{
    scratch[..n].fill(0);
}
