// The library for other programs: map and mark of both courses, map with a loader area and in forward mode, the change-over, the root lookup and align, each with one number for its answer,
// and the classes of three-input tables.
#![tactic(auto)]

ghost use Rattle.std.specs.Prelude.{◌≡◌, ◌≤◌, get_or, IfOk, unwrap_or};
ghost use Rattle.limits.specs.Courses.{long, short};
ghost use Rattle.lutclass.specs.Classes.{IsClass};
ghost use Rattle.lutclass.specs.ClassTable.{shipped};
ghost use Rattle.cover_records.specs.Outcomes.{map_outcome, mark_outcome};
ghost use Rattle.cover_records.specs.LoaderOutcome.{loader_outcome};
ghost use Rattle.cover_records.specs.ForwardOutcome.{forward_outcome};
ghost use Rattle.cover_records.specs.ChangeOutcome.{change_outcome};
ghost use Rattle.signed.specs.Range.{room};
ghost use Rattle.captures.specs.AlignOutcome.{align_outcome};
ghost use Rattle.job_find.specs.RootLookup.{find_root};
ghost use Rattle.kamfelu.specs.Coded.{coded, coded_shift, coded_root, told, told_or};

use captures::{NO_SHIFT, align};
use job_find::find_root;
use job_map::{change_over, map, map_forward, map_loader, short_map};
use job_mark::{mark, short_mark};
use lutclass::class_of;
use refusals::Refusal;
use signed::{minus, whole};

// What was counted, or minus the number of the refusal.
fn code(answer: Result<usize, Refusal>) -> i64
    requires { IfOk answer (λ n. n ≤ room) }
    ensures { result ≡ told answer }
{
    match answer {
        Ok(n) => whole(n),
        Err(refusal) => minus(0, usize::from(u8::from(refusal))),
    }
}

// The same, with a number for none.
fn code_or(answer: Result<Option<usize>, Refusal>, none: usize) -> i64
    requires { IfOk answer (λ n. unwrap_or n none ≤ room) }
    ensures { result ≡ told_or none answer }
{
    match answer {
        Ok(found) => whole(found.unwrap_or(none)),
        Err(refusal) => minus(0, usize::from(u8::from(refusal))),
    }
}

// Map: the record's length, or minus the number of the refusal.
pub fn kamfelu_map(net: &[u8], k: u32, target: u32, cover: &mut [u8], scratch: &mut [u8]) -> i64
    ensures answer { result ≡ coded (map_outcome long net.now k target cover.old scratch.old).answer }
    ensures area { cover.new ≡ (map_outcome long net.now k target cover.old scratch.old).area }
    ensures scratch { scratch.new ≡ (map_outcome long net.now k target cover.old scratch.old).scratch }
{
    code(map(net, k, target, cover, scratch))
}

// Map with a loader area, which gets the image; of length 0 it is not lent.
pub fn kamfelu_map_loader(
    net: &[u8],
    k: u32,
    target: u32,
    cover: &mut [u8],
    scratch: &mut [u8],
    loader: &mut [u8],
) -> i64
    ensures answer { result ≡ coded (loader_outcome long net.now k target cover.old scratch.old loader.old).answer }
    ensures area { cover.new ≡ (loader_outcome long net.now k target cover.old scratch.old loader.old).area }
    ensures scratch { scratch.new ≡ (loader_outcome long net.now k target cover.old scratch.old loader.old).scratch }
    ensures loader { loader.new ≡ (loader_outcome long net.now k target cover.old scratch.old loader.old).loader }
{
    code(map_loader(net, k, target, cover, scratch, loader))
}

// Map in forward mode, with a loader area, which gets the image, and a contents area, which gets the first contents; of length 0 an area is not lent.
pub fn kamfelu_map_forward(
    net: &[u8],
    k: u32,
    target: u32,
    cover: &mut [u8],
    scratch: &mut [u8],
    loader: &mut [u8],
    contents: &mut [u8],
) -> i64
    ensures answer { result ≡ coded (forward_outcome long net.now k target cover.old scratch.old loader.old contents.old).answer }
    ensures area { cover.new ≡ (forward_outcome long net.now k target cover.old scratch.old loader.old contents.old).area }
    ensures scratch { scratch.new ≡ (forward_outcome long net.now k target cover.old scratch.old loader.old contents.old).scratch }
    ensures loader { loader.new ≡ (forward_outcome long net.now k target cover.old scratch.old loader.old contents.old).loader }
    ensures contents { contents.new ≡ (forward_outcome long net.now k target cover.old scratch.old loader.old contents.old).contents }
{
    code(map_forward(net, k, target, cover, scratch, loader, contents))
}

// The change-over: map in forward mode, its contents those of the step behind the input pairs, two bytes a step. A contents area must be lent; a loader area of length 0 is not lent.
pub fn kamfelu_change_over(
    net: &[u8],
    k: u32,
    target: u32,
    pairs: &[u8],
    cover: &mut [u8],
    scratch: &mut [u8],
    loader: &mut [u8],
    contents: &mut [u8],
) -> i64
    ensures answer { result ≡ coded (change_outcome long net.now k target pairs.now cover.old scratch.old loader.old contents.old).answer }
    ensures area { cover.new ≡ (change_outcome long net.now k target pairs.now cover.old scratch.old loader.old contents.old).area }
    ensures scratch { scratch.new ≡ (change_outcome long net.now k target pairs.now cover.old scratch.old loader.old contents.old).scratch }
    ensures loader { loader.new ≡ (change_outcome long net.now k target pairs.now cover.old scratch.old loader.old contents.old).loader }
    ensures contents { contents.new ≡ (change_outcome long net.now k target pairs.now cover.old scratch.old loader.old contents.old).contents }
{
    code(change_over(net, k, target, pairs, cover, scratch, loader, contents))
}

// Map of the short course.
pub fn kamfelu_short_map(
    net: &[u8],
    k: u32,
    target: u32,
    cover: &mut [u8],
    scratch: &mut [u8],
) -> i64
    ensures answer { result ≡ coded (map_outcome short net.now k target cover.old scratch.old).answer }
    ensures area { cover.new ≡ (map_outcome short net.now k target cover.old scratch.old).area }
    ensures scratch { scratch.new ≡ (map_outcome short net.now k target cover.old scratch.old).scratch }
{
    code(short_map(net, k, target, cover, scratch))
}

// Mark: the excess, or minus the number of the refusal.
pub fn kamfelu_mark(net: &[u8], k: u32, cover: &[u8], scratch: &mut [u8]) -> i64
    ensures answer { result ≡ coded (mark_outcome long net.now k cover.now scratch.old).answer }
    ensures scratch { scratch.new ≡ (mark_outcome long net.now k cover.now scratch.old).scratch }
{
    code(mark(net, k, cover, scratch))
}

// The same for the short course.
pub fn kamfelu_short_mark(net: &[u8], k: u32, cover: &[u8], scratch: &mut [u8]) -> i64
    ensures answer { result ≡ coded (mark_outcome short net.now k cover.now scratch.old).answer }
    ensures scratch { scratch.new ≡ (mark_outcome short net.now k cover.now scratch.old).scratch }
{
    code(short_mark(net, k, cover, scratch))
}

// The smallest table that a table of three leaves can be turned into: its entry in the table of classes.
pub fn kamfelu_class(table: u8) -> u8
    ensures entry { result ≡ get_or shipped table 0 }
    ensures class { IsClass table result }
{
    class_of(table)
}

// The byte offset of gate g's LUT in a cover record, 0 for none, or minus the number of the refusal.
pub fn kamfelu_find_root(cover: &[u8], g: u16) -> i64
    ensures { result ≡ coded_root (find_root g cover.now) }
{
    code_or(find_root(cover, g), 0)
}

// The shift, 256 for none, or minus the number of the refusal.
pub fn kamfelu_align(first: &[u16], second: &[u16]) -> i64
    ensures { result ≡ coded_shift (align_outcome first.now second.now) }
{
    code_or(align(first, second), NO_SHIFT)
}
