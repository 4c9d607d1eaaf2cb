// Kept cuts: for each gate the leaves that a search found last, in a row behind the members. They stay a cut, whatever the labels and the period.
#![tactic(auto)]

ghost use Rattle.std.specs.Prelude.{◌≡◌, true, false, ◌+◌, ◌^◌, ◌≤◌, ◌<◌, length, IfSome};
ghost use Rattle.limits.specs.Limits.{most_k};
ghost use Rattle.signed.specs.Range.{label_in};
ghost use Rattle.cut_least.specs.Collect.{LeafMark};
ghost use Rattle.cut_kept.specs.KeptCuts.{row_in};
ghost use Rattle.cut_kept.specs.Keeping.{TakeTold, DueTold, Gathers, GatherAsked, CloseAsked, CloseTold, RowAsked, RowKept, RowTold, ServeAsked, AllLow, AllLowAsked, Serves};

use cut_circuit::{Extent, number_at, put_number};
use cut_forced::{Query, low};
use cut_search::{in_at, out_at};
use limits::SLOTS;

// The places of a row: how many leaves, 0 where no cut is kept; the border of the question; the leaves.
pub const ROW: usize = 2 + SLOTS;

// Writes copy c behind the m from a place on, where it has a place: how many there are then.
fn take_copy(members: &mut [u32], at: usize, m: usize, c: usize) -> Option<usize>
    requires { (at + most_k ≤ length members.old) × (c < 2 ^ 32) }
    ensures { TakeTold members.old at m c members.new result }
{
    if SLOTS <= m {
        return None;
    }
    put_number(members, at + m, c);
    Some(m + 1)
}

// The same where c is marked out and not in.
fn take_leaf(table: &[u8], members: &mut [u32], at: usize, m: usize, c: usize) -> Option<usize>
    requires { (at + most_k ≤ length members.old) × (c < length table.now) × (length table.now < 2 ^ 32) }
    ensures { DueTold (LeafMark table.now c) members.old at m c members.new result }
{
    if !out_at(table, c) {
        return Some(m);
    }
    if in_at(table, c) {
        return Some(m);
    }
    take_copy(members, at, m, c)
}

// Writes the listed copies that are marked out and not in: how many there are, where there is room for them.
fn gather(table: &[u8], list: &[u32], members: &mut [u32], at: usize) -> Option<usize>
    requires { GatherAsked table.now list.now members.old at }
    ensures { Gathers (length table.now) (LeafMark table.now) members.old at 0 members.new result }
{
    let n = number_at(list, 0);
    let mut m = 0;
    for i in 0..n {
        let c = number_at(list, i + 1);
        m = take_leaf(table, members, at, m, c)?;
    }
    Some(m)
}

// Makes a row of the m copies that stand in its places, with the border; an empty one where they were too many.
fn close_row(s: Extent, members: &mut [u32], g: usize, m: Option<usize>)
    requires asked { CloseAsked s.gates members.old g s.border }
    requires few { IfSome m (λ n. n ≤ most_k) }
    ensures { CloseTold s.gates members.old g s.border m members.new }
{
    let at = SLOTS * s.gates + ROW * g;
    let Some(m) = m else {
        put_number(members, at, 0);
        return;
    };
    put_number(members, at, m);
    put_number(members, at + 1, s.border);
}

// Keeps the leaves that a search found for gate g.
fn keep_row(s: Extent, table: &[u8], list: &[u32], members: &mut [u32], g: usize)
    requires { RowAsked s.gates table.now list.now members.old g s.border }
    ensures { RowTold s.gates (length table.now) (LeafMark table.now) members.old members.new g s.border }
{
    let at = SLOTS * s.gates + ROW * g + 2;
    let m = gather(table, list, members, at);
    close_row(s, members, g, m);
}

// Keeps the r leaves that a search found for the gate, where they are at most k.
pub fn keep_cut(s: Extent, table: &[u8], list: &[u32], members: &mut [u32], q: Query, r: usize)
    requires { RowAsked s.gates table.now list.now members.old q.gate s.border }
    ensures { RowKept s.gates table.now members.old members.new q.gate s.border q.k r }
{
    if r <= q.k {
        keep_row(s, table, list, members, q.gate);
    }
}

// Whether the copies are all low enough for leaves.
fn all_low(width: usize, copies: &[u32], labels: &[i64], q: Query) -> bool
    requires { AllLowAsked width copies.now labels.now q.phi }
    ensures { result ≡ true → AllLow width copies.now q.phi (label_in labels.now) q.height }
{
    for y in copies {
        if !low(width, labels, q.phi, q.height, *y as usize) {
            return false;
        }
    }
    true
}

// Whether the kept cut of the gate answers the question: all its leaves are low enough, there are at most k, and it was found within the border.
pub fn serves(s: Extent, members: &[u32], labels: &[i64], q: Query) -> bool
    requires { ServeAsked s.inputs s.gates s.width members.now labels.now q.phi q.gate }
    ensures { result ≡ true → Serves (row_in s.gates members.now q.gate) s.width s.border q.k q.phi (label_in labels.now) q.height }
{
    let at = SLOTS * s.gates + ROW * q.gate;
    let n = number_at(members, at);
    if n == 0 {
        return false;
    }
    if q.k < n {
        return false;
    }
    if s.border < number_at(members, at + 1) {
        return false;
    }
    all_low(s.width, &members[at + 2..at + 2 + n], labels, q)
}
