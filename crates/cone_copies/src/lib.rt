// Lists of copies in arrays: a list is two arrays, nodes and backs.
// A net's wiring is in arrays: gate g has pins[g] pins, and pin j of gate g stands at 6g + j.
#![tactic(auto)]

ghost use Rattle.std.specs.Prelude.{◌≡◌, ◌<◌, length};
ghost use Rattle.net_model.specs.Copies.{copy};
ghost use Rattle.net_model.specs.Arrays.{copy_at};
ghost use Rattle.sequences.specs.Tests.{Tells};

// A list of copies: those in the first len places.
#[derive(Clone, Copy)]
pub struct CopyList<'a> {
    pub nodes: &'a [usize],
    pub backs: &'a [usize],
    pub len: usize,
}

// Whether the copy at place j is this one.
pub fn is_copy(
    cone_nodes: &[usize],
    cone_backs: &[usize],
    j: usize,
    node: usize,
    back: usize,
) -> bool
    requires { (j < length cone_nodes.now) × (j < length cone_backs.now) }
    ensures { Tells result (copy_at cone_nodes.now cone_backs.now j ≡ copy node back) }
{
    (cone_nodes[j], cone_backs[j]) == (node, back)
}
