// Cones: from a root and its leaves the copies between them, by a walk from the root, depth first: each copy is opened once and each of its pins is looked at once.
// A copy is written when it is left, so sources come first. A table of marks has a byte for each copy u:d, at place u * width + d: 1 while the copy is open, then its place in the list, counted round from 2.
#![tactic(auto)]

ghost use Rattle.std.specs.Prelude.{◌≡◌, ℕ, ◌+◌, ◌≤◌, ◌<◌, length, get_or, set, drop, MatchOption};
ghost use Rattle.sequences.specs.Tests.{Tells};
ghost use Rattle.net_model.specs.Arrays.{copy_at};
ghost use Rattle.net_model.specs.Copies.{copy, Rising};
ghost use Rattle.net_model.specs.PackedNet.{sources_at, counts_at};
ghost use Rattle.limits.specs.Limits.{most_pins, most_table};
ghost use Rattle.cone_copies.specs.CopyLists.{copies_in, SmallWires};
ghost use Rattle.cone_walk.specs.WalkTold.{Walk};
ghost use Rattle.cone_descent.specs.Descent.{place, seat_mark, Clear, Denied, Placed, Seat, Wiped};
ghost use Rattle.cone_descent.specs.Descent as descent;
ghost use Rattle.cone_descent.specs.DescentSteps.{Long, Meet, Leaves, TopPin, Advances, Turn, Ran, Asked};

use cone_copies::{CopyList, is_copy};
use cone_leaves::seek;
use cone_walk::Cone;
use limits::{BEYOND, COPIES, PINS, REACH};

// Marks of listed copies: a place modulo ROUND, and 2.
const ROUND: usize = 254;

// A question: are the leaves a cut of the gate? The table has width places for a node, no copy with d above the border is opened, and there is room for so many copies.
#[derive(Clone, Copy)]
pub struct CutQuery {
    pub inputs: usize,
    pub gates: usize,
    pub width: usize,
    pub border: usize,
    pub room: usize,
    pub leaves: usize,
    pub gate: usize,
}

// What a pin meets: a copy that shows that there is no cut, a leaf or a copy met before, or a new copy.
#[derive(Clone, Copy, Debug, PartialEq, Eq)]
enum Met {
    NoCut,
    Known,
    New,
}

// The open copies, each with the number of its pins that were passed.
#[derive(Drop)]
struct Stack<'a> {
    nodes: &'a mut [usize],
    backs: &'a mut [usize],
    turns: &'a mut [usize],
}

// The copy is put on the stack, no pin passed, and marked as open.
fn push(stack: &mut Stack<'_>, depth: usize, marks: &mut [u8], at: usize, node: usize, back: usize)
    requires { (depth < length stack.old.nodes.now) × (depth < length stack.old.backs.now) × (depth < length stack.old.turns.now) × (at < length marks.old) }
    ensures { (stack.new.nodes.now ≡ set stack.old.nodes.now depth node) × (stack.new.backs.now ≡ set stack.old.backs.now depth back) × (stack.new.turns.now ≡ set stack.old.turns.now depth 0) × (marks.new ≡ set marks.old at 1) }
{
    stack.nodes[depth] = node;
    stack.backs[depth] = back;
    stack.turns[depth] = 0;
    marks[at] = 1;
}

// The copy is written at the end of the list and marked with its place.
fn leave(
    nodes: &mut [usize],
    backs: &mut [usize],
    len: usize,
    marks: &mut [u8],
    at: usize,
    node: usize,
    back: usize,
)
    requires { (len < length nodes.old) × (len < length backs.old) × (at < length marks.old) }
    ensures { (nodes.new ≡ set nodes.old len node) × (backs.new ≡ set backs.old len back) × (marks.new ≡ set marks.old at (seat_mark len)) }
{
    nodes[len] = node;
    backs[len] = back;
    marks[at] = (len % ROUND + 2) as u8;
}

// One copy met by a pin, with its place in the table.
fn meet(
    q: CutQuery,
    leaves: CopyList,
    seen: &mut [usize],
    marks: &[u8],
    at: usize,
    size: usize,
    node: usize,
    back: usize,
) -> Met
    requires { Leaves leaves.nodes.now leaves.backs.now leaves.len seen.old × (at < length marks.now) }
    ensures { Meet q.inputs q.border q.room size (copies_in leaves.entry.nodes.now leaves.entry.backs.now leaves.entry.len) (copy node back) (get_or marks.now at 0) seen.old result seen.new }
{
    if let Some(leaf) = seek(leaves.nodes, leaves.backs, leaves.len, node, back) {
        seen[leaf] = 1;
        return Met::Known;
    }
    if node < q.inputs {
        return Met::NoCut;
    }
    if q.border < back {
        return Met::NoCut;
    }
    if marks[at] != 0 {
        return Met::Known;
    }
    if q.room <= size {
        return Met::NoCut;
    }
    Met::New
}

// One pin more of the copy at place top, the last of the stack: the new depth, or none where there is no cut.
fn advance(
    q: CutQuery,
    net: &[usize],
    leaves: CopyList,
    seen: &mut [usize],
    len: usize,
    stack: &mut Stack<'_>,
    top: usize,
    marks: &mut [u8],
) -> Option<usize>
    requires { Leaves leaves.nodes.now leaves.backs.now leaves.len seen.old × TopPin q.inputs q.width q.room len (drop (sources_at q.gates) net.now) (drop (counts_at q.gates) net.now) stack.old.nodes.now stack.old.backs.now stack.old.turns.now top marks.old }
    ensures long { Long stack.old stack.new }
    ensures moved { Advances q.inputs q.width q.border q.room (drop (sources_at q.gates) net.now) (drop (counts_at q.gates) net.now) (copies_in leaves.entry.nodes.now leaves.entry.backs.now leaves.entry.len) len stack.old.nodes.now stack.old.backs.now stack.old.turns.now top marks.old seen.old result stack.new.nodes.now stack.new.backs.now stack.new.turns.now marks.new seen.new }
{
    let j = stack.turns[top];
    let next = j + 1;
    let pin = PINS * (stack.nodes[top] - q.inputs) + j;
    let node = net[2 * q.gates + pin];
    let back = stack.backs[top] + net[(2 + PINS) * q.gates + pin];
    let at = node * q.width + back;
    let depth = top + 1;
    let met = meet(q, leaves, seen, marks, at, len + depth, node, back);
    match met {
        Met::NoCut => None,
        Met::Known => {
            stack.turns[top] = next;
            Some(depth)
        }
        Met::New => {
            push(stack, depth, marks, at, node, back);
            stack.turns[top] = next;
            Some(depth + 1)
        }
    }
}

// The walk from a stack with the root alone: the length of the list, or none where there is no cut. No mark stays then.
fn run(
    q: CutQuery,
    net: &[usize],
    leaves: CopyList,
    seen: &mut [usize],
    nodes: &mut [usize],
    backs: &mut [usize],
    stack: &mut Stack<'_>,
    marks: &mut [u8],
) -> Option<usize>
    requires { Turn q.inputs q.gates q.width q.border q.room net.now (drop (sources_at q.gates) net.now) (drop (counts_at q.gates) net.now) leaves.nodes.now leaves.backs.now leaves.len (q.inputs + q.gate) nodes.old backs.old 0 stack.old.nodes.now stack.old.backs.now stack.old.turns.now 1 seen.old marks.old }
    ensures { MatchOption result (Clear marks.new × Denied q.inputs q.gates q.border net.now (drop (sources_at q.gates) net.now) (drop (counts_at q.gates) net.now) (copies_in leaves.entry.nodes.now leaves.entry.backs.now leaves.entry.len) (q.inputs + q.gate)) (λ len. Ran q.inputs q.gates q.width q.border q.room net.now (drop (sources_at q.gates) net.now) (drop (counts_at q.gates) net.now) leaves.entry.nodes.now leaves.entry.backs.now leaves.entry.len (q.inputs + q.gate) nodes.new backs.new len stack.new.nodes.now stack.new.backs.now stack.new.turns.now 0 seen.new marks.new) }
{
    let mut len = 0;
    let mut depth = 1;
    while 0 < depth {
        let top = depth - 1;
        let node = stack.nodes[top];
        if stack.turns[top] < net[node - q.inputs] {
            let next = advance(q, net, leaves, seen, len, stack, top, marks);
            match next {
                None => {
                    clear(nodes, backs, len, q.width, marks);
                    close(stack, depth, q.width, marks);
                    return None;
                }
                Some(d) => depth = d,
            }
        } else {
            let back = stack.backs[top];
            leave(nodes, backs, len, marks, node * q.width + back, node, back);
            len += 1;
            depth = top;
        }
    }
    Some(len)
}

// The marks of the open copies go.
fn close(stack: &Stack<'_>, depth: usize, width: usize, marks: &mut [u8])
    requires { (depth ≤ length stack.now.nodes.now) × (depth ≤ length stack.now.backs.now) × ((p : ℕ) → p < depth → place width (copy_at stack.now.nodes.now stack.now.backs.now p) < length marks.old) }
    ensures { Wiped width stack.now.nodes.now stack.now.backs.now depth marks.old marks.new }
{
    clear(stack.nodes, stack.backs, depth, width, marks);
}

// The marks of the first len copies go.
pub fn clear(nodes: &[usize], backs: &[usize], len: usize, width: usize, marks: &mut [u8])
    requires { (len ≤ length nodes.now) × (len ≤ length backs.now) × ((p : ℕ) → p < len → place width (copy_at nodes.now backs.now p) < length marks.old) }
    ensures { Wiped width nodes.now backs.now len marks.old marks.new }
{
    for p in 0..len {
        marks[nodes[p] * width + backs[p]] = 0;
    }
}

// Whether one of n leaves is not touched.
fn untouched(seen: &[usize], n: usize) -> bool
    requires { n ≤ length seen.now }
    ensures { Tells result ((i : ℕ) × (i < n) × (get_or seen.now i 0 ≡ 0)) }
{
    seen[..n].contains(&0)
}

// The walk from the gate back to the leaves, over lent arrays of any length: the length of the list, or none for no cut. Marks stay where there is a cut: those of the listed copies.
pub fn descend(
    q: CutQuery,
    net: &[usize],
    leaf_nodes: &[usize],
    leaf_backs: &[usize],
    seen: &mut [usize],
    nodes: &mut [usize],
    backs: &mut [usize],
    stack_nodes: &mut [usize],
    stack_backs: &mut [usize],
    turns: &mut [usize],
    marks: &mut [u8],
) -> Option<usize>
    requires { Asked q.inputs q.gates q.width q.border q.room net.now (drop (sources_at q.gates) net.now) (drop (counts_at q.gates) net.now) leaf_nodes.now leaf_backs.now q.leaves q.gate nodes.old backs.old stack_nodes.old stack_backs.old turns.old seen.old marks.old }
    ensures { descent.Told q.inputs q.gates q.width q.border net.now (drop (sources_at q.gates) net.now) (drop (counts_at q.gates) net.now) (copies_in leaf_nodes.now leaf_backs.now q.leaves) (q.inputs + q.gate) result nodes.new backs.new marks.new }
{
    let root = q.inputs + q.gate;
    if let Some(_) = seek(leaf_nodes, leaf_backs, q.leaves, root, 0) {
        return None;
    }
    let mut stack = Stack {
        nodes: stack_nodes,
        backs: stack_backs,
        turns,
    };
    push(&mut stack, 0, marks, root * q.width, root, 0);
    let leaves = CopyList {
        nodes: leaf_nodes,
        backs: leaf_backs,
        len: q.leaves,
    };
    let len = run(q, net, leaves, seen, nodes, backs, &mut stack, marks)?;
    if untouched(seen, q.leaves) {
        clear(nodes, backs, len, q.width, marks);
        return None;
    }
    Some(len)
}

// The walk from gate g to the n leaves, with document 01's limits: the cone with sources first and the root last, or none where the leaves are no cut. Marks stay where there is a cut: those of the cone's copies.
pub fn walk(
    inputs: usize,
    gates: usize,
    net: &[usize],
    leaf_nodes: &[usize],
    leaf_backs: &[usize],
    n: usize,
    g: usize,
    marks: &mut [u8],
) -> Option<Cone>
    requires { SmallWires inputs gates net.now (drop (sources_at gates) net.now) (drop (counts_at gates) net.now) × (n ≤ most_pins) × (n ≤ length leaf_nodes.now) × (n ≤ length leaf_backs.now) × (g < gates) × Rising (copies_in leaf_nodes.now leaf_backs.now n) × (most_table ≤ length marks.old) × Clear marks.old }
    ensures { Walk inputs gates net.now (drop (sources_at gates) net.now) (drop (counts_at gates) net.now) leaf_nodes.now leaf_backs.now n g result × MatchOption result (Clear marks.new) (λ r. Placed inputs g r marks.new) }
{
    let mut nodes = [0usize; COPIES];
    let mut backs = [0usize; COPIES];
    let mut stack_nodes = [0usize; COPIES];
    let mut stack_backs = [0usize; COPIES];
    let mut turns = [0usize; COPIES];
    let mut seen = [0usize; PINS];
    let width = REACH + BEYOND;
    let q = CutQuery {
        inputs,
        gates,
        width,
        border: REACH,
        room: COPIES,
        leaves: n,
        gate: g,
    };
    let len = descend(
        q,
        net,
        leaf_nodes,
        leaf_backs,
        &mut seen,
        &mut nodes,
        &mut backs,
        &mut stack_nodes,
        &mut stack_backs,
        &mut turns,
        marks,
    )?;
    Some(Cone { nodes, backs, len })
}

// The place in the list of the copy whose place in the table is `at`.
pub fn seat(
    nodes: &[usize],
    backs: &[usize],
    len: usize,
    marks: &[u8],
    at: usize,
    node: usize,
    back: usize,
) -> Option<usize>
    requires { (len ≤ length nodes.now) × (len ≤ length backs.now) × (at < length marks.now) }
    ensures { MatchOption result (Seat nodes.now backs.now len marks.now at (copy node back) len) (λ p. (p < len) × Seat nodes.now backs.now len marks.now at (copy node back) p) }
{
    let mark = usize::from(marks[at]);
    if mark < 2 {
        return None;
    }
    for p in (mark - 2..len).step_by(ROUND) {
        if is_copy(nodes, backs, p, node, back) {
            return Some(p);
        }
    }
    None
}
