// Classes of three-input LUTs: the constant table, and the generator's rule.
#![tactic(auto)]

mod constants;

ghost use Rattle.std.specs.Prelude.{◌≡◌, ◌<◌, get_or};
ghost use Rattle.lutclass.specs.Classes.{turn};
ghost use Rattle.lutclass.specs.Turnings.{turning_at, class_of};
ghost use Rattle.lutclass.specs.ClassTable.{shipped};
ghost use Rattle.lutclass.specs.Feeding.{word_at};

use cone_words::compose;
use constants::{CLASSES, WORDS};

// The entry of a table.
pub fn class_of(table: u8) -> u8
    ensures { result ≡ get_or shipped table 0 }
{
    CLASSES[usize::from(table)]
}

// The word that reaches leaf l in turning n: inverted where bit l + 1 of n is 1.
fn word_at(n: usize, l: usize) -> u64
    requires { (n < 96) × (l < 3) }
    ensures { result ≡ word_at n l }
{
    let w = WORDS[n / 16 * 3 + l];
    if (n >> (l + 1)) % 2 == 1 { 255 - w } else { w }
}

// What turning n makes of a table.
fn turned(table: u8, n: usize) -> u64
    requires { n < 96 }
    ensures { result ≡ turn (turning_at n) table }
{
    let words = [word_at(n, 0), word_at(n, 1), word_at(n, 2), 0, 0, 0];
    let w = compose(u64::from(table), words, 3) % 256;
    if n % 2 == 1 { 255 - w } else { w }
}

// The smallest of a table and what the 96 turnings make of it.
pub fn smallest(table: u8) -> u8
    ensures { result ≡ class_of table }
{
    let mut best = u64::from(table);
    for n in 0..96 {
        best = turned(table, n).min(best);
    }
    best as u8
}
