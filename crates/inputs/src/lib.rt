// The parts of a program's input.
#![tactic(auto)]

ghost use Rattle.std.specs.Prelude.{◌≡◌, ◌++◌, ◌+◌, ◌*◌, ◌≤◌, ◌<◌, length, get_or, drop};
ghost use Rattle.inputs.specs.InputParts.{Behind};

// The byte at a place, 0 where it is missing.
pub fn byte_at(bytes: &[u8], i: usize) -> u32
    ensures value { result ≡ get_or bytes.now i 0 }
    ensures small { result < 256 }
{
    bytes.get(i).map_or(0, |b| u32::from(*b))
}

// The place n bytes behind another, or the end.
pub fn place_behind(input: &[u8], at: usize, n: usize) -> usize
    requires { at ≤ length input.now }
    ensures { Behind input.now at n result }
{
    at + n.min(input.len() - at)
}

// The net's length, two bytes, low first.
pub fn net_length(input: &[u8]) -> usize
    ensures { result ≡ get_or input.now 1 0 + 256 * get_or input.now 2 0 }
{
    let low = byte_at(input, 1);
    let high = byte_at(input, 2);
    (low + 256 * high) as usize
}

// Writes bytes over the first ones of an area, which has room for them; how many there were.
pub fn copy_in(from: &[u8], to: &mut [u8]) -> usize
    requires { length from.now ≤ length to.old }
    ensures count { result ≡ length from.now }
    ensures bytes { to.new ≡ from.now ++ drop (length from.now) to.old }
{
    let n = from.len();
    to[..n].copy_from_slice(from);
    n
}
