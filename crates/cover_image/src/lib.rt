// The image for the chip's loader, from the cover that arrays keep: eight bytes for each LUT, by rising root.
#![tactic(auto)]

ghost use Rattle.std.specs.Prelude.{◌*◌, ◌≤◌, ◌<◌, length};
ghost use Rattle.cover_writer.specs.Writing.{Wrote};
ghost use Rattle.cover_image.specs.Images.{number_at, numbers_to, Loadable, Imaged};

use cover_writer::write_table;
use limits::ITEMS;

// The full table of gate g, where it has a LUT, low byte first.
fn write_number(marks: &[usize], luts: &[u64], g: usize, area: &mut [u8]) -> usize
    requires g_in_bounds { (g < length marks.now) × (g < length luts.now) }
    requires g_in_bounds_2 { length (number_at marks.now luts.now g) ≤ length area.old }
    ensures { Wrote (number_at marks.now luts.now g) area.old area.new result }
{
    if marks[g] == 0 {
        return 0;
    }
    write_table(luts[g], ITEMS, area)
}

// The full tables of all gates that have a LUT, each in a part of the area that starts behind the last one.
fn write_numbers(marks: &[usize], luts: &[u64], gates: usize, area: &mut [u8]) -> usize
    requires gates_in_bounds { (gates ≤ length marks.now) × (gates ≤ length luts.now) }
    requires gates_in_bounds_2 { 8 * gates ≤ length area.old }
    ensures { Wrote (numbers_to marks.now luts.now gates) area.old area.new result }
{
    let mut at = 0;
    for g in 0..gates {
        at += write_number(marks, luts, g, &mut area[at..]);
    }
    at
}

// The image in front of the loader area, if one is lent; the bytes behind it are kept.
pub fn write_image(marks: &[usize], luts: &[u64], gates: usize, loader: &mut [u8])
    requires { Loadable marks.now luts.now gates loader.old }
    ensures { Imaged marks.now luts.now gates loader.old loader.new }
{
    if loader.len() == 0 {
        return;
    }
    write_numbers(marks, luts, gates, loader);
}
