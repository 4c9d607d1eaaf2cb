// The last section of a net record: one byte a node, each tested when read.
#![tactic(auto)]

ghost use Rattle.net_section.specs.SectionRead.{SectionRead};

use net_fields::{Field, NetField, read_byte};
use refusals::Refusal;

// The place behind the next n bytes, a section; the first refusal ends it.
pub fn read_section(bytes: &[u8], at: usize, n: usize) -> Result<usize, Refusal>
    ensures { SectionRead bytes.now at n result }
{
    let mut next = at;
    for _i in 0..n {
        let past = read_byte(bytes, next, Field::Net(NetField::Past))?;
        next = past.at;
    }
    Ok(next)
}
