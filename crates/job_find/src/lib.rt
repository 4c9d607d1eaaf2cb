// Whether a gate has a LUT in a stored cover record (E1): a reading that stops at the first root not below the gate. The LUT's byte walk is mark's.
#![tactic(auto)]

ghost use Rattle.std.specs.Prelude.{◌≡◌, length, drop};
ghost use Rattle.limits.specs.Courses.{Offered};
ghost use Rattle.job_find.specs.RootLookup.{look_luts, told, look_up, find_root};
ghost use Rattle.job_find.specs.FindAnswers.{lookup_of, looked_of};

use cover_rows::{read_body, read_front};
use limits::{PINS, Rules, long_course};
use net_fields::{NumberField, read_number};
use refusals::Refusal;

// Every number of two bytes may be a node.
const ANY_NODE: usize = 65536;

// n LUTs from a place on; each root is above the one before. The first root not below g ends it, and nothing behind that root is read.
fn look_luts(
    bytes: &[u8],
    at: usize,
    n: usize,
    g: usize,
    two: bool,
) -> Result<Option<usize>, Refusal>
    ensures { looked_of result ≡ told (look_luts two (length bytes.now) g n 0 (drop at bytes.now)) }
{
    let mut next = at;
    let mut least = 0;
    for _i in 0..n {
        let field = NumberField::Root {
            least,
            nodes: ANY_NODE,
        };
        let root = read_number(bytes, next, field, two)?;
        let r = root.value;
        if r == g {
            return Ok(Some(next));
        }
        if g < r {
            return Ok(None);
        }
        let body = read_body(bytes, root.at, ANY_NODE, PINS, r, two)?;
        next = body.at;
        least = r + 1;
    }
    Ok(None)
}

// The lookup under some rules: what stands before the LUTs, then the LUTs.
fn look_under(bytes: &[u8], g: usize, rules: Rules) -> Result<Option<usize>, Refusal>
    requires { Offered rules }
    ensures { looked_of result ≡ look_up rules g bytes.now }
{
    let front = read_front(bytes, rules)?;
    look_luts(bytes, front.at, front.value.luts, g, rules.wide)
}

// Whether gate g has a LUT in this record: yes, with the place of its root's first byte, or no. Whatever is wrong with the bytes is told as 19.
pub fn find_root(bytes: &[u8], g: u16) -> Result<Option<usize>, Refusal>
    ensures { lookup_of result ≡ find_root g bytes.now }
{
    look_under(bytes, usize::from(g), long_course()).map_err(|_| Refusal::NoRecord)
}
