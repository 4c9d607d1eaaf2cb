// The leaf lookup: the test whether a copy is a leaf ends at the first leaf beyond the copy, by node, then by d.
#![tactic(auto)]

ghost use Rattle.std.specs.Prelude.{◌≡◌, ◌<◌, length, MatchOption};
ghost use Rattle.net_model.specs.Copies.{copy};
ghost use Rattle.net_model.specs.Arrays.{copy_at};
ghost use Rattle.cone_copies.specs.CopyLists.{copies_in};
ghost use Rattle.cone_leaves.specs.Lookup.{seek_of, Readable};
ghost use Rattle.cone_leaves.specs.Sides.{Seen};

use std::cmp::Ordering;

// How the leaf at place j stands to the copy, by node, then by d.
fn compare(
    leaf_nodes: &[usize],
    leaf_backs: &[usize],
    j: usize,
    node: usize,
    back: usize,
) -> Ordering
    requires { (j < length leaf_nodes.now) × (j < length leaf_backs.now) }
    ensures { Seen (copy node back) (copy_at leaf_nodes.now leaf_backs.now j) result }
{
    if leaf_nodes[j] == node {
        leaf_backs[j].cmp(&back)
    } else {
        leaf_nodes[j].cmp(&node)
    }
}

// The place of the copy among n leaves. Of leaves that do not rise only those up to the first one beyond the copy count, and none behind it is read.
pub fn seek(
    leaf_nodes: &[usize],
    leaf_backs: &[usize],
    n: usize,
    node: usize,
    back: usize,
) -> Option<usize>
    requires { Readable leaf_nodes.now leaf_backs.now n (copy node back) }
    ensures { MatchOption result (seek_of (copies_in leaf_nodes.now leaf_backs.now n) (copy node back) ≡ n) (λ j. (j < n) × (seek_of (copies_in leaf_nodes.now leaf_backs.now n) (copy node back) ≡ j)) }
{
    for j in 0..n {
        match compare(leaf_nodes, leaf_backs, j, node, back) {
            Ordering::Less => {}
            Ordering::Equal => return Some(j),
            Ordering::Greater => return None,
        }
    }
    None
}
