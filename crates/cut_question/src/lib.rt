// The cut question: the forced set of a gate and a threshold, and its nearest minimum cut.
#![tactic(auto)]

ghost use Rattle.std.specs.Prelude.{◌+◌, ◌≤◌, is_some, unwrap_or, IfSome};
ghost use Rattle.cut_circuit.specs.Packed.{packed_of, wired};
ghost use Rattle.cut_least.specs.CutRounds.{Cleared, CutAsked};
ghost use Rattle.cut_question.specs.Question.{Asks, Decides, Takes, Written};
ghost use Rattle.cut_question.specs.Separating.{AtRest, SeparateAsked, SeenKept, LeavesSeen};

use cut_circuit::{Extent, Wires};
use cut_forced::{Ask, Query, few_outside, force, unforce};
use cut_kept::keep_cut;
use cut_least::{clear, leaves, min_cut};

// Whether the forced set of the first f members has a cut of at most k leaves: they are kept, and the table is cleared again.
fn separate(
    w: Wires,
    table: &mut [u8],
    list: &mut [u32],
    stack: &mut [u32],
    counts: &mut [u32],
    members: &mut [u32],
    f: usize,
    q: Query,
) -> bool
    requires { SeparateAsked (wired w) members.old f table.old list.old stack.old counts.old q.k q.gate }
    ensures cleared { Cleared table.new list.new }
    ensures kept { SeenKept (wired w.entry) q.k q.gate members.old members.new result }
{
    let least = min_cut(w, table, list, stack, counts, &members[..f], q.k);
    let Some(r) = least else {
        clear(table, list);
        return false;
    };
    keep_cut(w.s, table, list, members, q, r);
    clear(table, list);
    true
}

// How many leaves the minimum cut of the forced set has, where they are at most k: they are written, and the table is cleared again.
fn separate_leaves(
    w: Wires,
    table: &mut [u8],
    list: &mut [u32],
    stack: &mut [u32],
    counts: &mut [u32],
    members: &[u32],
    nodes: &mut [usize],
    backs: &mut [usize],
    k: usize,
) -> Option<usize>
    requires cut_asked { CutAsked (wired w) members.now table.old list.old stack.old counts.old k }
    requires takes { Takes (wired w) k nodes.old backs.old }
    ensures cleared { Cleared table.new list.new }
    ensures seen { LeavesSeen (wired w.entry) k nodes.new backs.new (unwrap_or result (k + 1)) }
    ensures most { IfSome result (λ r. r ≤ k) }
{
    let least = min_cut(w, table, list, stack, counts, members, k);
    if least.is_some() {
        leaves(w.s, table, list, nodes, backs);
    }
    clear(table, list);
    least
}

// Whether gate g has a k-cut no higher than h. Where the forced set reads few copies, it is a cut by itself.
pub fn question(
    s: Extent,
    net: &[usize],
    slots: &mut [u32],
    table: &mut [u8],
    list: &mut [u32],
    stack: &mut [u32],
    counts: &mut [u32],
    members: &mut [u32],
    labels: &[i64],
    q: Query,
) -> bool
    requires at_rest { AtRest (packed_of s net.now slots.old) table.old list.old stack.old counts.old members.old }
    requires asks { Asks (packed_of s net.now slots.old) labels.now q.phi q.k q.gate }
    ensures rest { AtRest (packed_of s net.now slots.new) table.new list.new stack.new counts.new members.new }
    ensures answer { Decides (packed_of s net.now slots.old) labels.now q.phi q.k q.gate q.height result }
{
    let a = Ask { s, net, labels, q };
    let f = match force(a, slots, members) {
        Ok(f) => f,
        Err(f) => {
            unforce(s, slots, &members[..f]);
            return false;
        }
    };
    let w = Wires { s, net, slots };
    if few_outside(w, &members[..f], q.k) {
        unforce(s, slots, &members[..f]);
        return true;
    }
    let found = separate(w, table, list, stack, counts, members, f, q);
    unforce(s, slots, &members[..f]);
    found
}

// As `question`: how many leaves the separation has that is found, where they are at most k. They are written, rising by node, then by d.
pub fn chosen(
    s: Extent,
    net: &[usize],
    slots: &mut [u32],
    table: &mut [u8],
    list: &mut [u32],
    stack: &mut [u32],
    counts: &mut [u32],
    members: &mut [u32],
    nodes: &mut [usize],
    backs: &mut [usize],
    labels: &[i64],
    q: Query,
) -> Option<usize>
    requires at_rest { AtRest (packed_of s net.now slots.old) table.old list.old stack.old counts.old members.old }
    requires asks { Asks (packed_of s net.now slots.old) labels.now q.phi q.k q.gate }
    requires takes { Takes (packed_of s net.now slots.old) q.k nodes.old backs.old }
    ensures rest { AtRest (packed_of s net.now slots.new) table.new list.new stack.new counts.new members.new }
    ensures answer { Decides (packed_of s net.now slots.old) labels.now q.phi q.k q.gate q.height (is_some result) }
    ensures most { IfSome result (λ r. r ≤ q.k) }
    ensures written { IfSome result (λ r. Written (packed_of s net.now slots.old) labels.now q.phi q.k q.gate q.height nodes.new backs.new r) }
{
    let a = Ask { s, net, labels, q };
    let f = match force(a, slots, members) {
        Ok(f) => f,
        Err(f) => {
            unforce(s, slots, &members[..f]);
            return None;
        }
    };
    let w = Wires { s, net, slots };
    let least = separate_leaves(
        w,
        table,
        list,
        stack,
        counts,
        &members[..f],
        nodes,
        backs,
        q.k,
    );
    unforce(s, slots, &members[..f]);
    least
}
