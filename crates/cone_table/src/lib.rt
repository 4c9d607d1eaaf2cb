// The table of a LUT over a cone: a word for each copy, from the words of the copies before it. A copy's place in the list is found by its mark in the walk's table.
#![tactic(auto)]

ghost use Rattle.std.specs.Prelude.{◌≡◌, ℕ, ◌-◌, ◌*◌, ◌≤◌, ◌<◌, length, get_or, drop};
ghost use Rattle.limits.specs.Limits.{most_pins, most_nodes, most_table};
ghost use Rattle.net_model.specs.Arrays.{copy_at};
ghost use Rattle.net_model.specs.Copies.{copy, Rising};
ghost use Rattle.net_model.specs.PackedNet.{sources_at, counts_at};
ghost use Rattle.cone_copies.specs.CopyLists.{copies_in, members, most, Place, source_at};
ghost use Rattle.cone_descent.specs.Descent.{wide_most, Marked};
ghost use Rattle.cone_table.specs.ConeWords.{Given, Carries, WordAt, WordsSettled, TableOver};

use cone_copies::CopyList;
use cone_descent::seat;
use cone_leaves::seek;
use cone_walk::Cone;
use limits::{BEYOND, COPIES, PINS, REACH};

// A net in slices, with its numbers of inputs and gates.
#[derive(Clone, Copy)]
struct Circuit<'a> {
    inputs: usize,
    gates: usize,
    net: &'a [usize],
    tables: &'a [u64],
}

// The word of a copy: a leaf's own, or a listed copy's from `words`.
fn source_word(
    leaves: CopyList,
    cone: CopyList,
    words: &[u64],
    marks: &[u8],
    node: usize,
    back: usize,
) -> u64
    requires { ((leaves.len ≤ most_pins) × (leaves.len ≤ length leaves.nodes.now) × (leaves.len ≤ length leaves.backs.now) × (cone.len ≤ length cone.nodes.now) × (cone.len ≤ length cone.backs.now) × (cone.len ≤ length words.now) × Rising (copies_in leaves.nodes.now leaves.backs.now leaves.len) × (most_table ≤ length marks.now) × Marked wide_most cone.nodes.now cone.backs.now cone.len marks.now) × (node < most_nodes) × (back < wide_most) }
    ensures { Carries (copies_in leaves.entry.nodes.now leaves.entry.backs.now leaves.entry.len) (copies_in cone.entry.nodes.now cone.entry.backs.now cone.entry.len) words.now (copy node back) result }
{
    if let Some(leaf) = seek(leaves.nodes, leaves.backs, leaves.len, node, back) {
        return cone_words::leaf_word(leaf);
    }
    let place = node * (REACH + BEYOND) + back;
    match seat(cone.nodes, cone.backs, cone.len, marks, place, node, back) {
        Some(at) => words[at],
        None => 0,
    }
}

// The words of the copies that feed the listed copy of gate g at place p, from the words of the copies before it.
fn gather(
    s: Circuit,
    leaves: CopyList,
    cone: CopyList,
    words: &[u64],
    marks: &[u8],
    p: usize,
    g: usize,
) -> [u64; PINS]
    requires { ((leaves.len ≤ most_pins) × (leaves.len ≤ length leaves.nodes.now) × (leaves.len ≤ length leaves.backs.now) × (p ≤ length cone.nodes.now) × (p < length cone.backs.now) × (p ≤ length words.now) × Rising (copies_in leaves.nodes.now leaves.backs.now leaves.len) × (most_table ≤ length marks.now) × Marked wide_most cone.nodes.now cone.backs.now p marks.now) × ((j : ℕ) → j < get_or s.net.now g 0 → Place (drop (sources_at s.gates) s.net.now) (drop (counts_at s.gates) s.net.now) g j) × (g < length s.net.now) × (get_or s.net.now g 0 ≤ most_pins) × (get_or cone.backs.now p 0 ≤ most * members) }
    ensures { (get_or s.entry.net.now g 0 ≤ length result) × ((j : ℕ) → j < get_or s.entry.net.now g 0 → Carries (copies_in leaves.entry.nodes.now leaves.entry.backs.now leaves.entry.len) (copies_in cone.entry.nodes.now cone.entry.backs.now p) words.now (source_at (drop (sources_at s.entry.gates) s.entry.net.now) (drop (counts_at s.entry.gates) s.entry.net.now) g (get_or cone.entry.backs.now p 0) j) (get_or result j 0)) }
{
    let base = cone.backs[p];
    let before = CopyList { len: p, ..cone };
    let mut fed = [0u64; PINS];
    for j in 0..s.net[g] {
        let at = PINS * g + j;
        fed[j] = source_word(
            leaves,
            before,
            words,
            marks,
            s.net[2 * s.gates + at],
            base + s.net[(2 + PINS) * s.gates + at],
        );
    }
    fed
}

// The word of the listed copy at place p, from the words of the copies before it.
fn copy_word(
    s: Circuit,
    leaves: CopyList,
    cone: CopyList,
    words: &[u64],
    marks: &[u8],
    p: usize,
) -> u64
    requires { Given s.inputs s.gates s.net.now (drop (sources_at s.gates) s.net.now) (drop (counts_at s.gates) s.net.now) s.tables.now leaves.nodes.now leaves.backs.now leaves.len cone.nodes.now cone.backs.now cone.len marks.now × (cone.len ≤ length words.now) × (p < cone.len) }
    ensures { WordAt s.entry.inputs s.entry.net.now (drop (sources_at s.entry.gates) s.entry.net.now) (drop (counts_at s.entry.gates) s.entry.net.now) s.entry.tables.now (copies_in leaves.entry.nodes.now leaves.entry.backs.now leaves.entry.len) cone.entry.nodes.now cone.entry.backs.now p words.now 64 result }
{
    let g = cone.nodes[p] - s.inputs;
    let fed = gather(s, leaves, cone, words, marks, p, g);
    cone_words::compose(s.tables[g], fed, s.net[g])
}

// The words of the listed copies, one after the other.
fn fill_words(s: Circuit, leaves: CopyList, cone: CopyList, marks: &[u8]) -> [u64; COPIES]
    requires { Given s.inputs s.gates s.net.now (drop (sources_at s.gates) s.net.now) (drop (counts_at s.gates) s.net.now) s.tables.now leaves.nodes.now leaves.backs.now leaves.len cone.nodes.now cone.backs.now cone.len marks.now }
    ensures { (length result ≡ members) × WordsSettled s.entry.inputs s.entry.gates s.entry.net.now (drop (sources_at s.entry.gates) s.entry.net.now) (drop (counts_at s.entry.gates) s.entry.net.now) s.entry.tables.now (copies_in leaves.entry.nodes.now leaves.entry.backs.now leaves.entry.len) cone.entry.nodes.now cone.entry.backs.now cone.entry.len result 64 cone.entry.len }
{
    let mut words = [0u64; COPIES];
    for p in 0..cone.len {
        words[p] = copy_word(s, leaves, cone, &words, marks, p);
    }
    words
}

// The full table of the LUT over the cone with these leaves, 64 bits, in one pass over the cone, whose last copy is the root.
pub fn table(
    inputs: usize,
    gates: usize,
    net: &[usize],
    tables: &[u64],
    leaf_nodes: &[usize],
    leaf_backs: &[usize],
    n: usize,
    cone: Cone,
    marks: &[u8],
) -> u64
    requires { Given inputs gates net.now (drop (sources_at gates) net.now) (drop (counts_at gates) net.now) tables.now leaf_nodes.now leaf_backs.now n cone.nodes cone.backs cone.len marks.now }
    ensures { (v : ℕ) → copy_at cone.nodes cone.backs (cone.len - 1) ≡ copy v 0 → TableOver inputs gates net.now (drop (sources_at gates) net.now) (drop (counts_at gates) net.now) tables.now (copies_in leaf_nodes.now leaf_backs.now n) (copies_in cone.nodes cone.backs cone.len) v result }
{
    let s = Circuit {
        inputs,
        gates,
        net,
        tables,
    };
    let leaves = CopyList {
        nodes: leaf_nodes,
        backs: leaf_backs,
        len: n,
    };
    let copies = CopyList {
        nodes: &cone.nodes,
        backs: &cone.backs,
        len: cone.len,
    };
    let words = fill_words(s, leaves, copies, marks);
    words[cone.len - 1]
}
