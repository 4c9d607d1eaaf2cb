// The extent of the expanded circuit, and the chains of the pins that read a node.
#![tactic(auto)]

ghost use Rattle.std.specs.Prelude.{◌≡◌, ◌==◌, true, false, ◌+◌, ◌-◌, ◌*◌, ◌/◌, ◌^◌, ◌≤◌, ◌<◌, [], length, get_or, set, drop};
ghost use Rattle.std.specs.List.{list_any};
ghost use Rattle.limits.specs.Limits.{most_pins};
ghost use Rattle.cut_circuit.specs.Circuit.{feeding_at, forced_at};
ghost use Rattle.cut_circuit.specs.Packed.{packed_of, first_at, sources_at, counts_at, GateAsked, SourceAsked, SlotAsked};
ghost use Rattle.cut_circuit.specs.PinLinks.{Emptied, LinkAsked, PlaceAsked, PlaceLinked, LinkedIn, Links};

use limits::{PINS, SLOTS};

// The copy u:d has the number u * width + d; copies with d above the border are terminals.
#[derive(Clone, Copy)]
pub struct Extent {
    pub inputs: usize,
    pub gates: usize,
    pub width: usize,
    pub border: usize,
}

// A net in its slice, with its extent, and the slots of its forced copies.
#[derive(Clone, Copy)]
pub struct Wires<'a> {
    pub s: Extent,
    pub net: &'a [usize],
    pub slots: &'a [u32],
}

// ---- the chains of the pins that read a node, in the slice of a net

// No pin reads any of the nodes yet.
fn empty_heads(net: &mut [usize], at: usize, nodes: usize)
    requires { at + nodes ≤ length net.old }
    ensures { Emptied net.old net.new at nodes }
{
    net[at..at + nodes].fill(0);
}

// A pin at place p stands before those that read its node so far.
fn link_place(nodes: usize, gates: usize, net: &mut [usize], p: usize)
    requires { PlaceAsked nodes gates net.old p }
    ensures { PlaceLinked nodes gates net.old net.new p }
{
    let g = p / PINS;
    let next = (2 + 2 * PINS) * gates + p;
    if net[g] <= p % PINS {
        net[next] = 0;
        return;
    }
    let u = net[2 * gates + p];
    let head = (2 + 3 * PINS) * gates + u;
    net[next] = net[head];
    net[head] = p + 1;
}

fn link_places(nodes: usize, gates: usize, net: &mut [usize])
    requires { LinkAsked nodes gates net.old × LinkedIn nodes gates net.old 0 }
    ensures { Links nodes gates net.old net.new }
{
    for p in 0..PINS * gates {
        link_place(nodes, gates, net, p);
    }
}

// Chains the pins that read each node.
pub fn link(nodes: usize, gates: usize, net: &mut [usize])
    requires { LinkAsked nodes gates net.old }
    ensures { Links nodes gates net.old net.new }
{
    let at = (2 + 3 * PINS) * gates;
    empty_heads(net, at, nodes);
    link_places(nodes, gates, net);
}

// ---- the pins of a copy

// The number of pins of the gate's copy x.
pub fn pins_of(s: Extent, net: &[usize], x: usize) -> usize
    requires { GateAsked (packed_of s net.now []) net.now x }
    ensures { result ≡ get_or net.now (x / s.width - s.inputs) 0 }
{
    let g = x / s.width - s.inputs;
    net[g]
}

// The pin of x that is searched first.
pub fn first_of(s: Extent, net: &[usize], x: usize) -> usize
    requires { GateAsked (packed_of s net.now []) (drop (first_at s.gates) net.now) x }
    ensures { result ≡ get_or (drop (first_at s.gates) net.now) (x / s.width - s.inputs) 0 }
{
    let g = x / s.width - s.inputs;
    net[s.gates + g]
}

// The copy that feeds x by pin j.
pub fn source(s: Extent, net: &[usize], x: usize, j: usize) -> usize
    requires { SourceAsked (packed_of s net.now []) x j }
    ensures { result ≡ feeding_at s.width (drop (sources_at s.gates) net.now) (drop (counts_at s.gates) net.now) x (most_pins * (x / s.width - s.inputs) + j) }
{
    let p = PINS * (x / s.width - s.inputs) + j;
    net[2 * s.gates + p] * s.width + (x % s.width + net[(2 + PINS) * s.gates + p])
}

// ---- the forced copies

// A number of 32 bits of a slice.
pub fn number_at(list: &[u32], i: usize) -> usize
    requires { i < length list.now }
    ensures { result ≡ get_or list.now i 0 }
{
    list[i] as usize
}

// Writes a number that fits 32 bits.
pub fn put_number(list: &mut [u32], i: usize, n: usize)
    requires i_bound { i < length list.old }
    requires n_bound { n < 2 ^ 32 }
    ensures { list.new ≡ set list.old i n }
{
    list[i] = n as u32;
}

// Whether d is one of the numbers.
fn held(numbers: &[u32], d: usize) -> bool
    ensures { result ≡ list_any (λ x. x == d) numbers.now }
{
    numbers.iter().any(|x| *x as usize == d)
}

// Whether the copy x stands in one of its gate's slots.
pub fn is_forced(s: Extent, slots: &[u32], x: usize) -> bool
    requires { SlotAsked s slots.now x }
    ensures yes { result ≡ true → 0 < forced_at s.inputs s.gates s.width s.border slots.now x }
    ensures no { result ≡ false → forced_at s.inputs s.gates s.width s.border slots.now x ≡ 0 }
{
    let u = x / s.width;
    let d = x % s.width;
    if u < s.inputs {
        return false;
    }
    if s.border < d {
        return false;
    }
    let g = u - s.inputs;
    let n = number_at(slots, g);
    let at = s.gates + SLOTS * g;
    held(&slots[at..at + n], d)
}
