// The library for C: each export calls the function of the crate kamfelu that has its name.
#![tactic(auto)]

ghost use Rattle.std.specs.Prelude.{◌≡◌, get_or};
ghost use Rattle.limits.specs.Courses.{long, short};
ghost use Rattle.lutclass.specs.Classes.{IsClass};
ghost use Rattle.lutclass.specs.ClassTable.{shipped};
ghost use Rattle.cover_records.specs.Outcomes.{map_outcome, mark_outcome};
ghost use Rattle.cover_records.specs.LoaderOutcome.{loader_outcome};
ghost use Rattle.cover_records.specs.ForwardOutcome.{forward_outcome};
ghost use Rattle.cover_records.specs.ChangeOutcome.{change_outcome};
ghost use Rattle.captures.specs.AlignOutcome.{align_outcome};
ghost use Rattle.job_find.specs.RootLookup.{find_root};
ghost use Rattle.kamfelu.specs.Coded.{coded, coded_shift, coded_root};

// Map: the record's length, or minus the number of the refusal.
#[unsafe(no_mangle)]
pub extern "C" fn kamfelu_map(
    net: &[u8],
    k: u32,
    target: u32,
    cover: &mut [u8],
    scratch: &mut [u8],
) -> i64
    ensures answer { result ≡ coded (map_outcome long net.now k target cover.old scratch.old).answer }
    ensures area { cover.new ≡ (map_outcome long net.now k target cover.old scratch.old).area }
    ensures scratch { scratch.new ≡ (map_outcome long net.now k target cover.old scratch.old).scratch }
{
    kamfelu::kamfelu_map(net, k, target, cover, scratch)
}

// Map with a loader area, which gets the image; of length 0 it is not lent.
#[unsafe(no_mangle)]
pub extern "C" fn kamfelu_map_loader(
    net: &[u8],
    k: u32,
    target: u32,
    cover: &mut [u8],
    scratch: &mut [u8],
    loader: &mut [u8],
) -> i64
    ensures answer { result ≡ coded (loader_outcome long net.now k target cover.old scratch.old loader.old).answer }
    ensures area { cover.new ≡ (loader_outcome long net.now k target cover.old scratch.old loader.old).area }
    ensures scratch { scratch.new ≡ (loader_outcome long net.now k target cover.old scratch.old loader.old).scratch }
    ensures loader { loader.new ≡ (loader_outcome long net.now k target cover.old scratch.old loader.old).loader }
{
    kamfelu::kamfelu_map_loader(net, k, target, cover, scratch, loader)
}

// Map in forward mode, with a loader area, which gets the image, and a contents area, which gets the first contents; of length 0 an area is not lent.
#[unsafe(no_mangle)]
pub extern "C" fn kamfelu_map_forward(
    net: &[u8],
    k: u32,
    target: u32,
    cover: &mut [u8],
    scratch: &mut [u8],
    loader: &mut [u8],
    contents: &mut [u8],
) -> i64
    ensures answer { result ≡ coded (forward_outcome long net.now k target cover.old scratch.old loader.old contents.old).answer }
    ensures area { cover.new ≡ (forward_outcome long net.now k target cover.old scratch.old loader.old contents.old).area }
    ensures scratch { scratch.new ≡ (forward_outcome long net.now k target cover.old scratch.old loader.old contents.old).scratch }
    ensures loader { loader.new ≡ (forward_outcome long net.now k target cover.old scratch.old loader.old contents.old).loader }
    ensures contents { contents.new ≡ (forward_outcome long net.now k target cover.old scratch.old loader.old contents.old).contents }
{
    kamfelu::kamfelu_map_forward(net, k, target, cover, scratch, loader, contents)
}

// The change-over: map in forward mode, its contents those of the step behind the input pairs, two bytes a step. A contents area must be lent; a loader area of length 0 is not lent.
#[unsafe(no_mangle)]
pub extern "C" fn kamfelu_change_over(
    net: &[u8],
    k: u32,
    target: u32,
    pairs: &[u8],
    cover: &mut [u8],
    scratch: &mut [u8],
    loader: &mut [u8],
    contents: &mut [u8],
) -> i64
    ensures answer { result ≡ coded (change_outcome long net.now k target pairs.now cover.old scratch.old loader.old contents.old).answer }
    ensures area { cover.new ≡ (change_outcome long net.now k target pairs.now cover.old scratch.old loader.old contents.old).area }
    ensures scratch { scratch.new ≡ (change_outcome long net.now k target pairs.now cover.old scratch.old loader.old contents.old).scratch }
    ensures loader { loader.new ≡ (change_outcome long net.now k target pairs.now cover.old scratch.old loader.old contents.old).loader }
    ensures contents { contents.new ≡ (change_outcome long net.now k target pairs.now cover.old scratch.old loader.old contents.old).contents }
{
    kamfelu::kamfelu_change_over(net, k, target, pairs, cover, scratch, loader, contents)
}

// Map of the short course.
#[unsafe(no_mangle)]
pub extern "C" fn kamfelu_short_map(
    net: &[u8],
    k: u32,
    target: u32,
    cover: &mut [u8],
    scratch: &mut [u8],
) -> i64
    ensures answer { result ≡ coded (map_outcome short net.now k target cover.old scratch.old).answer }
    ensures area { cover.new ≡ (map_outcome short net.now k target cover.old scratch.old).area }
    ensures scratch { scratch.new ≡ (map_outcome short net.now k target cover.old scratch.old).scratch }
{
    kamfelu::kamfelu_short_map(net, k, target, cover, scratch)
}

// Mark: the excess, or minus the number of the refusal.
#[unsafe(no_mangle)]
pub extern "C" fn kamfelu_mark(net: &[u8], k: u32, cover: &[u8], scratch: &mut [u8]) -> i64
    ensures answer { result ≡ coded (mark_outcome long net.now k cover.now scratch.old).answer }
    ensures scratch { scratch.new ≡ (mark_outcome long net.now k cover.now scratch.old).scratch }
{
    kamfelu::kamfelu_mark(net, k, cover, scratch)
}

// The same for the short course.
#[unsafe(no_mangle)]
pub extern "C" fn kamfelu_short_mark(net: &[u8], k: u32, cover: &[u8], scratch: &mut [u8]) -> i64
    ensures answer { result ≡ coded (mark_outcome short net.now k cover.now scratch.old).answer }
    ensures scratch { scratch.new ≡ (mark_outcome short net.now k cover.now scratch.old).scratch }
{
    kamfelu::kamfelu_short_mark(net, k, cover, scratch)
}

// The smallest table that a table of three leaves can be turned into: its entry in the table of classes.
#[unsafe(no_mangle)]
pub extern "C" fn kamfelu_class(table: u8) -> u8
    ensures entry { result ≡ get_or shipped table 0 }
    ensures class { IsClass table result }
{
    kamfelu::kamfelu_class(table)
}

// The byte offset of gate g's LUT in a cover record, 0 for none, or minus the number of the refusal.
#[unsafe(no_mangle)]
pub extern "C" fn kamfelu_find_root(cover: &[u8], g: u16) -> i64
    ensures { result ≡ coded_root (find_root g cover.now) }
{
    kamfelu::kamfelu_find_root(cover, g)
}

// The shift, 256 for none, or minus the number of the refusal.
#[unsafe(no_mangle)]
pub extern "C" fn kamfelu_align(first: &[u16], second: &[u16]) -> i64
    ensures { result ≡ coded_shift (align_outcome first.now second.now) }
{
    kamfelu::kamfelu_align(first, second)
}
