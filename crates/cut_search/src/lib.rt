// One augmenting search over a table of one byte a copy, with a stack of its own: at most f + 1 copies of each node are opened, where f units flow.
#![tactic(auto)]

ghost use Rattle.std.specs.Prelude.{◌≡◌, true, false, suc, ◌+◌, ◌-◌, ◌*◌, ◌/◌, ◌^◌, ◌≤◌, ◌<◌, length, get_or, drop, is_some, IfSome};
ghost use Rattle.cut_circuit.specs.Circuit.{ending_at};
ghost use Rattle.cut_circuit.specs.Packed.{wired, sources_at, counts_at, nexts_at, heads_at};
ghost use Rattle.cut_search.specs.SearchTable.{view_of, Touched, Noted, with_in, with_out, with_flow};
ghost use Rattle.cut_search.specs.SearchParts.{TouchTold, ListRoom, MarkedOutTold, CandidateAsked, CandidateTold, SeekAsked, SeekTold, EntryTold, WayPlace, WayTold};
ghost use Rattle.cut_search.specs.Stacks.{turn_at, frames_of};
ghost use Rattle.cut_search.specs.StackParts.{PushAsked, Pushed};
ghost use Rattle.cut_search.specs.Steps.{ComeAsked, ComeTold, LeaveAsked, LeaveTold, StepAsked, StepTold, RunAsked, RunTold, UnwindAsked, UnwindTold, MemberAsked, MemberTold, SearchAsked, RootsAsked, Turning, SearchTold};

use cut_circuit::{Extent, Wires, first_of, is_forced, number_at, pins_of, put_number, source};
use limits::PINS;

// ---- the byte of a copy

pub fn flow_at(table: &[u8], c: usize) -> usize
    requires { c < length table.now }
    ensures { result ≡ (view_of table.now).flow c }
{
    usize::from(table[c]) % 8
}

// Whether c is marked in, and whether it is marked out.
pub fn in_at(table: &[u8], c: usize) -> bool
    requires { c < length table.now }
    ensures yes { result ≡ true → (view_of table.now).inn c ≡ 1 }
    ensures no { result ≡ false → (view_of table.now).inn c ≡ 0 }
{
    table[c] / 8 % 2 > 0
}

pub fn out_at(table: &[u8], c: usize) -> bool
    requires { c < length table.now }
    ensures yes { result ≡ true → (view_of table.now).out c ≡ 1 }
    ensures no { result ≡ false → (view_of table.now).out c ≡ 0 }
{
    table[c] / 8 / 2 % 2 > 0
}

// Lists a copy, unless it is listed.
fn touch(table: &mut [u8], list: &mut [u32], c: usize)
    requires c_bound { c < length table.old }
    requires touched { Touched table.old list.old }
    requires list_room { ListRoom table.old list.old c }
    requires c_bound_2 { c < 2 ^ 32 }
    requires list_len_bound { length list.old < 2 ^ 32 }
    ensures { TouchTold table.old list.old table.new list.new c }
{
    if table[c] < 32 {
        let n = number_at(list, 0) + 1;
        table[c] = 32;
        put_number(list, n, c);
        put_number(list, 0, n);
    }
}

fn set_in(table: &mut [u8], c: usize)
    requires c_bound { c < length table.old }
    requires c_value { (view_of table.old).inn c ≡ 0 }
    ensures { table.new ≡ with_in table.old c }
{
    table[c] += 8;
}

fn set_out(table: &mut [u8], c: usize)
    requires c_bound { c < length table.old }
    requires c_value { (view_of table.old).out c ≡ 0 }
    ensures { table.new ≡ with_out table.old c }
{
    table[c] += 16;
}

fn set_flow(table: &mut [u8], c: usize, n: u8)
    requires c_bound { c < length table.old }
    requires n_bound { n < 8 }
    ensures { table.new ≡ with_flow table.old c n }
{
    table[c] = table[c] / 8 * 8 + n;
}

fn mark_out(table: &mut [u8], list: &mut [u32], c: usize)
    requires c_bound { c < length table.old }
    requires noted { Noted table.old list.old }
    requires list_room { ListRoom table.old list.old c }
    requires c_bound_2 { (c < 2 ^ 32) × (length list.old < 2 ^ 32) }
    requires c_value { (view_of table.old).out c ≡ 0 }
    ensures { MarkedOutTold table.old table.new list.new c }
{
    touch(table, list, c);
    set_out(table, c);
}

// ---- the graph

// Whether x is a copy of an input, or beyond the border.
fn terminal(s: Extent, x: usize) -> bool
    requires { 0 < s.width }
    ensures yes { result ≡ true → 0 < ending_at s.inputs s.width s.border x }
    ensures no { result ≡ false → ending_at s.inputs s.width s.border x ≡ 0 }
{
    x / s.width < s.inputs || s.border < x % s.width
}

// The copy whose unit came in by the pin at place p from y.
fn candidate(
    s: Extent,
    sources: &[usize],
    counts: &[usize],
    table: &[u8],
    p: usize,
    y: usize,
) -> Option<usize>
    requires { CandidateAsked s.inputs s.width s.border sources.now counts.now table.now p }
    ensures { CandidateTold s.inputs s.width s.border sources.now counts.now table.now y p result }
{
    if sources[p] != y / s.width {
        return None;
    }
    let e = (y % s.width).checked_sub(counts[p])?;
    if s.border < e {
        return None;
    }
    let x = (s.inputs + p / PINS) * s.width + e;
    if flow_at(table, x) != p % PINS + 1 {
        return None;
    }
    Some(x)
}

// The successor of y.
fn successor(
    s: Extent,
    sources: &[usize],
    counts: &[usize],
    heads: &[usize],
    nexts: &[usize],
    table: &[u8],
    y: usize,
) -> Option<usize>
    requires { SeekAsked s.inputs s.gates s.width s.border sources.now counts.now heads.now nexts.now table.now y }
    ensures { SeekTold s.inputs s.width s.border sources.now counts.now heads.now nexts.now table.now y result }
{
    let u = y / s.width;
    let mut at = heads[u];
    while 0 < at {
        let p = at - 1;
        if let Some(x) = candidate(s, sources, counts, table, p, y) {
            return Some(x);
        }
        at = nexts[p];
    }
    None
}

// Whether y is a terminal without a unit.
fn is_open(s: Extent, table: &[u8], y: usize) -> bool
    requires y_in_bounds { y < length table.now }
    requires width_nonzero { 0 < s.width }
    ensures yes { result ≡ true → ((view_of table.now).flow y ≡ 0) × (0 < ending_at s.inputs s.width s.border y) }
    ensures no { result ≡ false → (view_of table.now).flow y ≡ 0 → ending_at s.inputs s.width s.border y ≡ 0 }
{
    flow_at(table, y) == 0 && terminal(s, y)
}

// Where a search out of y comes in: at y, or at its successor where it carries a unit.
fn entry(s: Extent, net: &[usize], table: &[u8], y: usize) -> Option<usize>
    requires seek_asked { SeekAsked s.inputs s.gates s.width s.border (drop (sources_at s.gates) net.now) (drop (counts_at s.gates) net.now) (drop (heads_at s.gates) net.now) (drop (nexts_at s.gates) net.now) table.now y }
    requires y_in_bounds { y < length table.now }
    ensures { EntryTold s.inputs s.width s.border (drop (sources_at s.gates) net.now) (drop (counts_at s.gates) net.now) (drop (heads_at s.gates) net.now) (drop (nexts_at s.gates) net.now) table.now y result }
{
    if flow_at(table, y) == 0 {
        return Some(y);
    }
    let a = 2 * s.gates;
    let b = (2 + PINS) * s.gates;
    let c = (2 + 2 * PINS) * s.gates;
    let d = (2 + 3 * PINS) * s.gates;
    successor(s, &net[a..], &net[b..], &net[d..], &net[c..], table, y)
}

// Where way i out of x leads: to the source of pin i - 1, or for 0 to x itself; nowhere if that source is forced, x carries no unit, or the copy is marked out.
fn way(w: Wires, table: &[u8], x: usize, i: usize) -> Option<usize>
    requires { WayPlace (wired w) table.now x i }
    ensures { WayTold (wired w.entry) table.now x i result }
{
    if i == 0 {
        if flow_at(table, x) == 0 || out_at(table, x) {
            return None;
        }
        return Some(x);
    }
    let y = source(w.s, w.net, x, i - 1);
    if is_forced(w.s, w.slots, y) || out_at(table, y) {
        return None;
    }
    Some(y)
}

// The way that is tried i-th: pin f, then all n pins, then x itself.
fn turn(n: usize, f: usize, i: usize) -> usize
    requires { f < n }
    ensures { result ≡ turn_at n f i }
{
    if i == 0 {
        return f + 1;
    }
    if i <= n {
        return i;
    }
    0
}

// ---- the search

// Puts copy x with turn i on the stack.
fn push(stack: &mut [u32], x: usize, i: usize)
    requires { PushAsked stack.old x i }
    ensures { Pushed stack.old stack.new x i }
{
    let d = number_at(stack, 0) + 1;
    put_number(stack, d, x * 16 + i);
    put_number(stack, 0, d);
}

// Comes to e, which is marked in: it is opened where its node has room, or where it carries only its last turn is taken.
fn come(w: Wires, table: &mut [u8], stack: &mut [u32], counts: &mut [u32], f: usize, e: usize)
    requires { ComeAsked (wired w) f table.old stack.old counts.old e }
    ensures { ComeTold (wired w.entry) f table.old stack.old counts.old table.new stack.new counts.new e }
{
    set_in(table, e);
    let u = e / w.s.width;
    let c = number_at(counts, u);
    if c <= f {
        put_number(counts, u, c + 1);
        push(stack, e, 0);
        return;
    }
    if flow_at(table, e) > 0 {
        push(stack, e, pins_of(w.s, w.net, e) + 1);
    }
}

// Goes out of y, which is marked out: whether it is an open terminal, which takes a unit.
fn leave(
    w: Wires,
    table: &mut [u8],
    stack: &mut [u32],
    counts: &mut [u32],
    f: usize,
    y: usize,
) -> bool
    requires { LeaveAsked (wired w) f table.old stack.old counts.old y }
    ensures { LeaveTold (wired w.entry) f table.old stack.old counts.old table.new stack.new counts.new y result }
{
    if is_open(w.s, table, y) {
        set_flow(table, y, 7);
        return true;
    }
    let Some(e) = entry(w.s, w.net, table, y) else {
        return false;
    };
    if in_at(table, e) {
        return false;
    }
    come(w, table, stack, counts, f, e);
    false
}

// Takes the next turn of the top frame, or takes it off: whether a unit was found.
fn step(
    w: Wires,
    table: &mut [u8],
    list: &mut [u32],
    stack: &mut [u32],
    counts: &mut [u32],
    f: usize,
) -> bool
    requires { StepAsked (wired w) f table.old list.old stack.old counts.old }
    ensures { StepTold (wired w.entry) f table.old stack.old counts.old table.new list.new stack.new counts.new result }
{
    let d = number_at(stack, 0);
    let top = number_at(stack, d);
    let x = top / 16;
    let n = pins_of(w.s, w.net, x);
    if n + 1 < top % 16 {
        put_number(stack, 0, d - 1);
        return false;
    }
    let i = turn(n, first_of(w.s, w.net, x), top % 16);
    put_number(stack, d, top + 1);
    let Some(y) = way(w, table, x, i) else {
        return false;
    };
    mark_out(table, list, y);
    leave(w, table, stack, counts, f, y)
}

// Takes steps until the stack is empty or a unit was found: whether one was.
fn run(
    w: Wires,
    table: &mut [u8],
    list: &mut [u32],
    stack: &mut [u32],
    counts: &mut [u32],
    f: usize,
) -> bool
    requires { RunAsked (wired w) f table.old list.old stack.old counts.old }
    ensures { RunTold (wired w.entry) f table.old stack.old counts.old table.new list.new stack.new counts.new result }
{
    while number_at(stack, 0) > 0 {
        if step(w, table, list, stack, counts, f) {
            return true;
        }
    }
    false
}

// Takes the stack down to its lowest frame; each copy taken off gets its unit by the way that it took last.
fn unwind(w: Wires, table: &mut [u8], stack: &mut [u32])
    requires { UnwindAsked (wired w) table.old stack.old }
    ensures { UnwindTold (wired w.entry) table.old stack.old table.new }
{
    while number_at(stack, 0) > 1 {
        let d = number_at(stack, 0);
        let top = number_at(stack, d);
        let x = top / 16;
        let n = pins_of(w.s, w.net, x);
        let i = turn(n, first_of(w.s, w.net, x), top % 16 - 1);
        set_flow(table, x, i as u8);
        put_number(stack, 0, d - 1);
    }
}

// ---- from the forced set

// Searches for a unit from the forced copy x: whether there is one.
fn try_member(
    w: Wires,
    table: &mut [u8],
    list: &mut [u32],
    stack: &mut [u32],
    counts: &mut [u32],
    f: usize,
    x: usize,
) -> bool
    requires { MemberAsked (wired w) f table.old list.old stack.old counts.old x }
    ensures { MemberTold (wired w.entry) f table.old stack.old counts.old table.new list.new stack.new counts.new x result }
{
    let u = x / w.s.width;
    let c = number_at(counts, u);
    if f < c {
        return false;
    }
    put_number(counts, u, c + 1);
    push(stack, x, 0);
    let found = run(w, table, list, stack, counts, f);
    if found {
        unwind(w, table, stack);
    }
    found
}

// The place that is tried j-th of n, from a place on and then around.
fn place_at(n: usize, from: usize, j: usize) -> usize
    requires { (from ≤ n) × (j < n) }
    ensures { Turning n from j result }
{
    let rest = n - from;
    if j < rest {
        return from + j;
    }
    j - rest
}

// The same for all members of the forced set, those from a place on first, from an empty stack and counters at 0: the place of the member that a unit was found from.
fn try_members(
    w: Wires,
    table: &mut [u8],
    list: &mut [u32],
    stack: &mut [u32],
    counts: &mut [u32],
    f: usize,
    members: &[u32],
    from: usize,
) -> Option<usize>
    requires roots_asked { RootsAsked (wired w) f members.now table.old list.old stack.old counts.old }
    requires from_in_bounds { from ≤ length members.now }
    ensures search_told { SearchTold (wired w.entry) f table.old table.new list.new (is_some result) }
    ensures place { IfSome result (λ i. i < length members.now) }
{
    for j in 0..members.len() {
        let i = place_at(members.len(), from, j);
        let x = number_at(members, i);
        if try_member(w, table, list, stack, counts, f, x) {
            return Some(i);
        }
    }
    None
}

// Searches for one more unit than the f that flow, from no marks: the place of the member that it was found from.
pub fn search(
    w: Wires,
    table: &mut [u8],
    list: &mut [u32],
    stack: &mut [u32],
    counts: &mut [u32],
    f: usize,
    members: &[u32],
    from: usize,
) -> Option<usize>
    requires search_asked { SearchAsked (wired w) f members.now table.old list.old stack.old counts.old }
    requires from_in_bounds { from ≤ length members.now }
    ensures search_told { SearchTold (wired w.entry) f table.old table.new list.new (is_some result) }
    ensures place { IfSome result (λ i. i < length members.now) }
{
    counts.fill(0);
    put_number(stack, 0, 0);
    try_members(w, table, list, stack, counts, f, members, from)
}
