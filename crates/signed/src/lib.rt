// Labels and lags as signed numbers. Ranges are wide enough for labels of 300 gates at periods up to 300.
#![tactic(auto)]

ghost use Rattle.std.specs.Prelude.{◌≡◌, true, false, ◌≤◌, ◌<◌, ℤ, pos, ◌+ℤ◌, ◌-ℤ◌, ◌≤ℤ◌, ◌<ℤ◌};
ghost use Rattle.integers.specs.Lag.{lag};
ghost use Rattle.signed.specs.Range.{Small, room};

// A count as a whole number.
pub fn whole(n: usize) -> i64
    requires { n ≤ room }
    ensures { result ≡ pos n }
{
    n as i64
}

// label − shift, where shift is φ times a number of registers
pub fn minus(label: i64, shift: usize) -> i64
    requires { Small label × (shift ≤ room) }
    ensures { result ≡ (label -ℤ pos shift) }
{
    let s = whole(shift);
    label - s
}

pub fn plus_one(label: i64) -> i64
    requires { Small label }
    ensures { result ≡ (label +ℤ pos 1) }
{
    label + 1
}

// whether a leaf with this label, shift behind, is no higher than the limit: label − shift + 1 ≤ limit
pub fn no_higher(label: i64, shift: usize, limit: i64) -> bool
    requires { Small label × (shift ≤ room) }
    ensures yes { result ≡ true → (label -ℤ pos shift) <ℤ limit }
    ensures no { result ≡ false → limit ≤ℤ (label -ℤ pos shift) }
{
    let z = minus(label, shift);
    z < limit
}

// ⌈label/φ⌉ − 1. The quotient is rounded towards zero: where a positive remainder is left it is one below the ceiling, and otherwise it is the ceiling.
pub fn lag_of(label: i64, phi: usize) -> i64
    requires { Small label × (1 ≤ phi) × (phi ≤ room) }
    ensures { result ≡ lag phi label }
{
    let p = whole(phi);
    let q = label / p;
    let r = label % p;
    if 0 < r { q } else { q - 1 }
}
