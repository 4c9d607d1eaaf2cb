// What a walk from a root back to its leaves leaves where they are a cut: the copies between them.
#![tactic(auto)]

use limits::COPIES;

// The members of the cone in the first len places, sources first if the net has no loop of register-free pins.
#[derive(Clone, Copy)]
pub struct Cone {
    pub nodes: [usize; COPIES],
    pub backs: [usize; COPIES],
    pub len: usize,
}
