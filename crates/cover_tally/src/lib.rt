// A tally of registers shared at their source: for each node the largest number on what it feeds. It is made empty, takes one connection or output per call, and the total is read at the end.
#![tactic(auto)]

ghost use Rattle.std.specs.Prelude.{◌≡◌, List, [], ◌∷◌, ◌<◌, ◌≤◌, pos, sum, length};
ghost use Rattle.limits.specs.Limits.{most_nodes};
ghost use Rattle.cover_theory.specs.SharedRegisters.{Tap, tap, shared_count};
ghost use Rattle.cover_tally.specs.Tallies.{Tallied, Took};

use limits::NODES;

#[derive(Drop)]
pub struct Tally {
    pub places: [u32; Tally::NODES],
}

// The sum of few numbers.
fn added(numbers: &[u32]) -> usize
    requires { length numbers.now ≤ most_nodes }
    ensures { result ≡ sum numbers.now }
{
    numbers.iter().map(|n| *n as usize).sum()
}

impl Tally {
    // A place for each node that a net can have.
    pub const NODES: usize = NODES;

    pub fn new() -> Tally
        ensures { Tallied [] result.places }
    {
        Tally {
            places: [0u32; Tally::NODES],
        }
    }

    // One connection or output: the node that feeds it, and its number of registers. What no node feeds has no place.
    pub fn take(mut self, source: usize, number: u32) -> Tally
        ensures { Took (tap source (pos number) ∷ []) self.places result.places }
    {
        if source < Tally::NODES {
            self.places[source] = self.places[source].max(number);
        }
        self
    }

    pub fn total(self) -> usize
        ensures { (ts : List Tap) → Tallied ts self.places → result ≡ shared_count most_nodes ts }
    {
        added(&self.places)
    }
}
