// What the reader and the checks of nets and covers share: a net's wiring and outputs; marks of gates, which are numbers other than 0; numbers stored in a row.
#![tactic(auto)]

ghost use Rattle.std.specs.Prelude.{◌≡◌, ℕ, ◌+◌, ◌≤◌, ◌<◌, length, get_or};
ghost use Rattle.sequences.specs.Stored.{Stored};
ghost use Rattle.sequences.specs.Tests.{Tells};
ghost use Rattle.net_marks.specs.Marks.{Marked, Known};

// A net's wiring: gate g has pins[g] pins, pin j of gate g stands at PINS·g + j.
#[derive(Clone, Copy)]
pub struct Wiring<'a> {
    pub inputs: usize,
    pub gates: usize,
    pub pins: &'a [usize],
    pub sources: &'a [usize],
    pub counts: &'a [usize],
}

// A net's outputs: output i reads node outs[i] through delays[i] registers.
#[derive(Clone, Copy)]
pub struct Ends<'a> {
    pub outputs: usize,
    pub outs: &'a [usize],
    pub delays: &'a [usize],
}

// Whether a node is an input or a marked gate. A mark is a number other than 0.
pub fn known(inputs: usize, seen: &[usize], node: usize) -> bool
    requires { node < inputs + length seen.now }
    ensures { Tells result (Known inputs seen.now node) }
{
    node < inputs || seen[node - inputs] != 0
}

// Whether the first n gates are all marked.
pub fn all_marked(seen: &[usize], n: usize) -> bool
    requires { n ≤ length seen.now }
    ensures { Tells result ((g : ℕ) → g < n → Marked seen.now g) }
{
    seen[..n].iter().all(|x| *x != 0)
}

// Sets all to 0.
pub fn zero(seen: &mut [usize])
    ensures { (length seen.new ≡ length seen.old) × ((g : ℕ) → g < length seen.old → get_or seen.new g 0 ≡ 0) }
{
    seen.fill(0);
}

// Stores the first n numbers of `from` at place `at`.
pub fn store(from: &[usize], n: usize, net: &mut [usize], at: usize)
    requires n_in_bounds { n ≤ length from.now }
    requires n_in_bounds_2 { at + n ≤ length net.old }
    ensures { Stored net.old at from.now n net.new }
{
    for i in 0..n {
        net[at + i] = from[i];
    }
}
