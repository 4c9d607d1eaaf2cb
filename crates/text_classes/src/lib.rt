// The text of the generator: the table of classes, decimal, one a line.
#![tactic(auto)]

ghost use Rattle.std.specs.Prelude.{◌+◌, ◌*◌, ◌≤◌, length};
ghost use Rattle.cover_writer.specs.Writing.{Wrote};
ghost use Rattle.text_digits.specs.Put.{Put};
ghost use Rattle.text_classes.specs.ClassText.{number_line, class_text};

use lutclass::smallest;
use text_digits::{put_byte, put_decimal};

// A number on a line.
fn put_line(n: u8, at: usize, out: &mut [u8]) -> usize
    requires { at + 21 ≤ length out.old }
    ensures { Put 21 at (number_line n) out.old out.new result }
{
    let a = put_decimal(usize::from(n), at, out);
    put_byte(b'\n', a, out)
}

// 256 lines of at most 21 bytes.
pub const CLASS_TEXT: usize = 256 * 21;

// The whole text in front of an area that is long enough; the bytes behind it are kept.
fn write_lines(out: &mut [u8]) -> usize
    requires { 256 * 21 ≤ length out.old }
    ensures { Wrote class_text out.old out.new result }
{
    let mut at = 0;
    for f in 0..=255 {
        at = put_line(smallest(f), at, out);
    }
    at
}

// The whole text in front of the area; the bytes behind it are kept.
pub fn write_classes(out: &mut [u8; CLASS_TEXT]) -> usize
    ensures { Wrote class_text out.old out.new result }
{
    write_lines(out)
}
