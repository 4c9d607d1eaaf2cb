// The chosen roots of a cover and the chosen cut of each: from the outputs back, one root after another. They are kept in one slice, rows.
#![tactic(auto)]

ghost use Rattle.std.specs.Prelude.{◌≡◌, false, IfSome, [], ◌≤◌, ◌<◌, length};
ghost use Rattle.net_model.specs.Arrays.{stride};
ghost use Rattle.net_model.specs.PackedNet.{packed_room};
ghost use Rattle.cover_records.specs.Rows.{sizes_in, nodes_in, backs_in, row_room};
ghost use Rattle.cut_circuit.specs.Packed.{packed_of};
ghost use Rattle.cut_question.specs.Separating.{AtRest};
ghost use Rattle.label_aim.specs.Aims.{mode_of};
ghost use Rattle.label_sweep.specs.Sweeps.{outs_in};
ghost use Rattle.cover_roots.specs.Choosing.{Asking, Chooses, RootsTold};
ghost use Rattle.cover_roots.specs.RootMarks.{IsAt, Among, Marks, Pending};
ghost use Rattle.cover_roots.specs.RootRounds.{RowKept, Stored, Taken};

use cut_circuit::Extent;
use cut_forced::Query;
use cut_question::chosen;
use label_aim::{Aim, narrowed};
use limits::PINS;
use net_marks::store;

// Marks node u with 1, where it is a gate without a mark.
fn mark(inputs: usize, gates: usize, marks: &mut [usize], u: usize)
    requires { gates ≤ length marks.old }
    ensures { Marks (IsAt inputs gates u) marks.old marks.new }
{
    if u < inputs {
        return;
    }
    let g = u - inputs;
    if g < gates && marks[g] == 0 {
        marks[g] = 1;
    }
}

// Marks the gates among the nodes from one place up to another.
fn mark_nodes(
    inputs: usize,
    gates: usize,
    marks: &mut [usize],
    nodes: &[usize],
    from: usize,
    to: usize,
)
    requires { (gates ≤ length marks.old) × (from ≤ to) × (to ≤ length nodes.now) }
    ensures { Marks (Among inputs gates nodes.now from to) marks.old marks.new }
{
    for i in from..to {
        mark(inputs, gates, marks, nodes[i]);
    }
}

// The first of n gates whose mark is 1.
fn pending(marks: &[usize], n: usize) -> Option<usize>
    requires { n ≤ length marks.now }
    ensures { Pending marks.now n result }
{
    marks[..n].iter().position(|m| *m == 1)
}

// The gates that the outputs read are marked.
fn mark_outputs(s: Extent, net: &[usize], n: usize, rows: &mut [usize])
    requires n_in_bounds { packed_room s.inputs s.gates n ≤ length net.now }
    requires gates_in_bounds { s.gates ≤ length rows.old }
    ensures { Marks (Among s.inputs s.gates (outs_in s net.now) 0 n) rows.old rows.new }
{
    let y = (2 + 3 * PINS) * s.gates + (s.inputs + s.gates) + s.gates + s.gates;
    mark_nodes(s.inputs, s.gates, rows, &net[y..], 0, n);
}

// Gate g is done, with r leaves, at its places.
fn keep(gates: usize, rows: &mut [usize], nodes: &[usize], backs: &[usize], g: usize, r: usize)
    requires { (g < gates) × (r ≤ stride) × (row_room gates ≤ length rows.old) × (r ≤ length nodes.now) × (r ≤ length backs.now) }
    ensures { RowKept gates g r nodes.now backs.now rows.old rows.new }
{
    rows[g] = 2;
    rows[gates + g] = r;
    store(nodes, r, rows, 2 * gates + PINS * g);
    store(backs, r, rows, (2 + PINS) * gates + PINS * g);
}

// Gate g is done: the leaves that were found are kept, and those that are gates are marked.
fn finish(
    inputs: usize,
    gates: usize,
    rows: &mut [usize],
    nodes: &[usize],
    backs: &[usize],
    g: usize,
    found: Option<usize>,
)
    requires { (g < gates) × (row_room gates ≤ length rows.old) × (stride ≤ length nodes.now) × (stride ≤ length backs.now) × IfSome found (λ r. r ≤ stride) }
    ensures { Stored inputs gates g nodes.now backs.now found rows.old rows.new }
{
    match found {
        None => rows[g] = 2,
        Some(r) => {
            keep(gates, rows, nodes, backs, g, r);
            mark_nodes(inputs, gates, rows, nodes, 0, r);
        }
    }
}

// Takes the chosen cut of the root g.
fn take(
    s: Extent,
    net: &[usize],
    slots: &mut [u32],
    table: &mut [u8],
    list: &mut [u32],
    stack: &mut [u32],
    counts: &mut [u32],
    members: &mut [u32],
    labels: &[i64],
    a: Aim,
    rows: &mut [usize],
    g: usize,
)
    requires at_rest { AtRest (packed_of s net.now slots.old) table.old list.old stack.old counts.old members.old }
    requires asking { Asking (packed_of s net.now []) labels.now a.phi a.k × (g < s.gates) × (row_room s.gates ≤ length rows.old) × (a.trial ≡ false) }
    ensures rest { AtRest (packed_of s net.now slots.new) table.new list.new stack.new counts.new members.new }
    ensures taken { Taken (mode_of a.forward) (packed_of s net.now []) labels.now a.phi a.k g rows.old rows.new }
{
    let v = s.inputs + g;
    let h = labels[v];
    let e = narrowed(s, a, h);
    let q = Query {
        phi: a.phi,
        k: a.k,
        gate: g,
        height: h,
    };
    let mut nodes = [0usize; PINS];
    let mut backs = [0usize; PINS];
    let found = chosen(
        e, net, slots, table, list, stack, counts, members, &mut nodes, &mut backs, labels, q,
    );
    finish(s.inputs, s.gates, rows, &nodes, &backs, g, found);
}

// The chosen roots of the outputs are marked, and each has its chosen cut's leaves, rising by node, then by d.
pub fn choose(
    s: Extent,
    net: &[usize],
    slots: &mut [u32],
    table: &mut [u8],
    list: &mut [u32],
    stack: &mut [u32],
    counts: &mut [u32],
    members: &mut [u32],
    labels: &[i64],
    a: Aim,
    rows: &mut [usize],
)
    requires at_rest { AtRest (packed_of s net.now slots.old) table.old list.old stack.old counts.old members.old }
    requires outputs_in_bounds { (packed_room s.inputs s.gates a.outputs ≤ length net.now) × (a.trial ≡ false) }
    requires chooses { Chooses (packed_of s net.now []) labels.now a.phi a.k rows.old }
    ensures rest { AtRest (packed_of s net.now slots.new) table.new list.new stack.new counts.new members.new }
    ensures chosen { RootsTold (mode_of a.forward) (packed_of s net.now []) labels.now (outs_in s net.now) a.outputs a.phi a.k rows.new (sizes_in s.gates rows.new) (nodes_in s.gates rows.new) (backs_in s.gates rows.new) }
{
    mark_outputs(s, net, a.outputs, rows);
    while let Some(g) = pending(rows, s.gates) {
        take(
            s, net, slots, table, list, stack, counts, members, labels, a, rows, g,
        );
    }
}
