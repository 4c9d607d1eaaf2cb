// Checks 16, 17 and 18 for LUTs kept in arrays. The LUT of a node is found in an array by node, made once.
#![tactic(auto)]

ghost use Rattle.std.specs.Prelude.{◌≡◌, false, ℕ, ◌≤◌, ◌<◌, pos, length, get_or};
ghost use Rattle.std.specs.Int.Signed.{mag};
ghost use Rattle.limits.specs.Limits.{most_count, most_nodes, most_period};
ghost use Rattle.refusals.specs.Refusals.{code_of};
ghost use Rattle.net_model.specs.Arrays.{stride};
ghost use Rattle.sequences.specs.Tests.{Tells};
ghost use Rattle.cover_links.specs.LinkPlaces.{Spotted, Found, LutFed, LutsFed, OutputsFed, raised_at, level_of, LeafEnough, LutEnough, LutsEnough, OutputEnough, OutputsEnough, LeafLong, LutLong, LongAt, NoneLong, Marked, Same, most, LeafRoom, LagRoom, LeafAsked, LutsPlaced};
ghost use Rattle.cover_links.specs.Links.{Linking, LinksTold};

use limits::{LUTS, NODES, PINS};
use net_marks::Ends;
use refusals::Refusal;

// The LUTs: LUT i has sizes[i] leaves from place PINS·i on. Node u has the LUT spots[u], or none where that is not below len.
#[derive(Clone, Copy)]
struct Luts<'a> {
    inputs: usize,
    spots: &'a [usize],
    sizes: &'a [usize],
    nodes: &'a [usize],
    backs: &'a [usize],
    lags: &'a [i64],
    len: usize,
}

// The place of each node's LUT, by node; n where there is none.
fn places(roots: &[usize], n: usize) -> [usize; NODES]
    requires { (n ≤ length roots.now) × ((i : ℕ) → i < n → get_or roots.now i 0 < most_nodes) }
    ensures { (length result ≡ most_nodes) × Spotted roots.now n result }
{
    let mut spots = [n; NODES];
    for i in (0..n).rev() {
        spots[roots[i]] = i;
    }
    spots
}

// Whether node u is an input or has a LUT.
fn is_fed(w: Luts, u: usize) -> bool
    requires { u < length w.spots.now }
    ensures { Tells result (Found w.entry.inputs w.entry.spots.now w.entry.len u) }
{
    u < w.inputs || w.spots[u] < w.len
}

// Whether each leaf of LUT i is an input or has a LUT.
fn lut_fed(w: Luts, i: usize) -> bool
    requires { LeafRoom w.spots.now w.sizes.now w.nodes.now w.len × (i < w.len) }
    ensures { Tells result (LutFed w.entry.inputs w.entry.spots.now w.entry.sizes.now w.entry.nodes.now w.entry.len i) }
{
    (0..w.sizes[i]).all(|j| is_fed(w, w.nodes[PINS * i + j]))
}

// Whether each leaf of each LUT is an input or has a LUT.
fn luts_fed(w: Luts) -> bool
    requires { LeafRoom w.spots.now w.sizes.now w.nodes.now w.len }
    ensures { Tells result (LutsFed w.entry.inputs w.entry.spots.now w.entry.sizes.now w.entry.nodes.now w.entry.len) }
{
    (0..w.len).all(|i| lut_fed(w, i))
}

// Whether each output's source is an input or has a LUT.
fn outputs_fed(w: Luts, e: Ends) -> bool
    requires { (e.outputs ≤ length e.outs.now) × ((o : ℕ) → o < e.outputs → get_or e.outs.now o 0 < length w.spots.now) }
    ensures { Tells result (OutputsFed w.entry.inputs w.entry.spots.now w.entry.len e.entry.outs.now e.entry.outputs) }
{
    (0..e.outputs).all(|o| is_fed(w, e.outs[o]))
}

// The lag of LUT i, raised by 256.
fn raised(lags: &[i64], i: usize) -> usize
    requires { (i < length lags.now) × (mag (get_or lags.now i (pos 0)) ≤ 128) }
    ensures { result ≡ raised_at lags.now i }
{
    (lags[i] + 256) as usize
}

// The lag of node u, raised by 256.
fn level_of(w: Luts, u: usize) -> usize
    requires { LagRoom w.lags.now w.len × Found w.inputs w.spots.now w.len u × (u < length w.spots.now) }
    ensures { result ≡ level_of w.entry.inputs w.entry.spots.now w.entry.lags.now u }
{
    if u < w.inputs {
        256
    } else {
        raised(w.lags, w.spots[u])
    }
}

// Whether leaf j of LUT i has 0 registers or more.
fn leaf_enough(w: Luts, i: usize, j: usize) -> bool
    requires lag_room { LagRoom w.lags.now w.len × (i < w.len) × (w.len ≤ most) × (j < stride) }
    requires leaf_asked { LeafAsked w.inputs w.spots.now w.nodes.now w.backs.now w.len i j }
    ensures { Tells result (LeafEnough w.entry.inputs w.entry.spots.now w.entry.nodes.now w.entry.backs.now w.entry.lags.now i j) }
{
    let at = PINS * i + j;
    let level = level_of(w, w.nodes[at]);
    level <= w.backs[at] + raised(w.lags, i)
}

// Whether each leaf of LUT i has 0 registers or more.
fn lut_enough(w: Luts, i: usize) -> bool
    requires luts_placed { LutsPlaced w.spots.now w.sizes.now w.nodes.now w.backs.now w.lags.now w.len × (i < w.len) }
    requires luts_fed { LutsFed w.inputs w.spots.now w.sizes.now w.nodes.now w.len }
    ensures { Tells result (LutEnough w.entry.inputs w.entry.spots.now w.entry.sizes.now w.entry.nodes.now w.entry.backs.now w.entry.lags.now i) }
{
    (0..w.sizes[i]).all(|j| leaf_enough(w, i, j))
}

// Whether each leaf of each LUT has 0 registers or more.
fn luts_enough(w: Luts) -> bool
    requires luts_placed { LutsPlaced w.spots.now w.sizes.now w.nodes.now w.backs.now w.lags.now w.len }
    requires luts_fed { LutsFed w.inputs w.spots.now w.sizes.now w.nodes.now w.len }
    ensures { Tells result (LutsEnough w.entry.inputs w.entry.spots.now w.entry.sizes.now w.entry.nodes.now w.entry.backs.now w.entry.lags.now w.entry.len) }
{
    (0..w.len).all(|i| lut_enough(w, i))
}

// Whether output o has 0 registers or more.
fn output_enough(w: Luts, e: Ends, o: usize) -> bool
    requires { LagRoom w.lags.now w.len × (o < length e.outs.now) × (o < length e.delays.now) × (get_or e.delays.now o 0 ≤ most_count) × Found w.inputs w.spots.now w.len (get_or e.outs.now o 0) × (get_or e.outs.now o 0 < length w.spots.now) }
    ensures { Tells result (OutputEnough w.entry.inputs w.entry.spots.now w.entry.lags.now e.entry.outs.now e.entry.delays.now o) }
{
    let level = level_of(w, e.outs[o]);
    level <= e.delays[o] + 256
}

// Whether each output has 0 registers or more.
fn outputs_enough(w: Luts, e: Ends) -> bool
    requires lag_room { LagRoom w.lags.now w.len × (e.outputs ≤ length e.outs.now) × (e.outputs ≤ length e.delays.now) × ((o : ℕ) → o < e.outputs → get_or e.outs.now o 0 < length w.spots.now) }
    requires by_index { (o : ℕ) → o < e.outputs → get_or e.delays.now o 0 ≤ most_count }
    requires outputs_fed { OutputsFed w.inputs w.spots.now w.len e.outs.now e.outputs }
    ensures { Tells result (OutputsEnough w.entry.inputs w.entry.spots.now w.entry.lags.now e.entry.outs.now e.entry.delays.now e.entry.outputs) }
{
    (0..e.outputs).all(|o| output_enough(w, e, o))
}

// Whether leaf j of LUT i is a gate, joined with 0 registers, whose LUT is marked.
fn leaf_long(w: Luts, i: usize, j: usize, marks: &[bool]) -> bool
    requires lag_room { LagRoom w.lags.now w.len × (i < w.len) × (w.len ≤ most) × (j < stride) × (w.len ≤ length marks.now) }
    requires leaf_asked { LeafAsked w.inputs w.spots.now w.nodes.now w.backs.now w.len i j }
    ensures { Tells result (LeafLong (Marked marks.now) w.entry.inputs w.entry.spots.now w.entry.nodes.now w.entry.backs.now w.entry.lags.now i j) }
{
    let at = PINS * i + j;
    let u = w.nodes[at];
    if u < w.inputs {
        return false;
    }
    let k = w.spots[u];
    if !marks[k] {
        return false;
    }
    raised(w.lags, k) == w.backs[at] + raised(w.lags, i)
}

// Whether LUT i has such a leaf.
fn lut_long(w: Luts, i: usize, marks: &[bool]) -> bool
    requires luts_placed { LutsPlaced w.spots.now w.sizes.now w.nodes.now w.backs.now w.lags.now w.len × (i < w.len) × (w.len ≤ length marks.now) }
    requires luts_fed { LutsFed w.inputs w.spots.now w.sizes.now w.nodes.now w.len }
    ensures { Tells result (LutLong (Marked marks.now) w.entry.inputs w.entry.spots.now w.entry.sizes.now w.entry.nodes.now w.entry.backs.now w.entry.lags.now i) }
{
    (0..w.sizes[i]).any(|j| leaf_long(w, i, j, marks))
}

// One round: a LUT's next mark from the marks of the LUTs that feed it without registers.
fn round(w: Luts, marks: &[bool]) -> [bool; LUTS]
    requires luts_placed { LutsPlaced w.spots.now w.sizes.now w.nodes.now w.backs.now w.lags.now w.len × (w.len ≤ length marks.now) }
    requires luts_fed { LutsFed w.inputs w.spots.now w.sizes.now w.nodes.now w.len }
    ensures { (length result ≡ most) × ((i : ℕ) → i < w.entry.len → Tells (get_or result i false) (LutLong (Marked marks.now) w.entry.inputs w.entry.spots.now w.entry.sizes.now w.entry.nodes.now w.entry.backs.now w.entry.lags.now i)) }
{
    let mut next = [false; LUTS];
    for i in 0..w.len {
        next[i] = lut_long(w, i, marks);
    }
    next
}

// Whether the first n marks are the same.
fn same(a: &[bool], b: &[bool], n: usize) -> bool
    requires { (n ≤ length a.now) × (n ≤ length b.now) }
    ensures { Tells result (Same a.now b.now n) }
{
    a[..n] == b[..n]
}

// The marks of the LUTs that end a chain of period + 1 LUTs. All end a chain of 1 LUT, and a round asks for one LUT more; marks that a round leaves as they are stay so.
fn rounds(w: Luts, period: usize) -> [bool; LUTS]
    requires luts_placed { LutsPlaced w.spots.now w.sizes.now w.nodes.now w.backs.now w.lags.now w.len × (period ≤ most_period) }
    requires luts_fed { LutsFed w.inputs w.spots.now w.sizes.now w.nodes.now w.len }
    ensures { (length result ≡ most) × ((i : ℕ) → i < w.entry.len → Tells (get_or result i false) (LongAt w.entry.inputs w.entry.spots.now w.entry.sizes.now w.entry.nodes.now w.entry.backs.now w.entry.lags.now period i)) }
{
    let mut marks = [true; LUTS];
    for luts in 1..=period {
        let next = round(w, &marks);
        if same(&marks, &next, w.len) {
            return marks;
        }
        marks = next;
    }
    marks
}

// Whether none of n marks is set.
fn none_marked(marks: &[bool], n: usize) -> bool
    requires { n ≤ length marks.now }
    ensures { Tells result ((i : ℕ) → i < n → get_or marks.now i false ≡ false) }
{
    !marks[..n].contains(&true)
}

// Whether no LUT ends a chain of more than `period` LUTs.
fn chains_short(w: Luts, period: usize) -> bool
    requires luts_placed { LutsPlaced w.spots.now w.sizes.now w.nodes.now w.backs.now w.lags.now w.len × (period ≤ most_period) }
    requires luts_fed { LutsFed w.inputs w.spots.now w.sizes.now w.nodes.now w.len }
    ensures { Tells result (NoneLong w.entry.inputs w.entry.spots.now w.entry.sizes.now w.entry.nodes.now w.entry.backs.now w.entry.lags.now w.entry.len period) }
{
    none_marked(&rounds(w, period), w.len)
}

// Checks 16, 17 and 18 in this order.
pub fn check_links(
    inputs: usize,
    gates: usize,
    outs: &[usize],
    delays: &[usize],
    outputs: usize,
    roots: &[usize],
    sizes: &[usize],
    nodes: &[usize],
    backs: &[usize],
    lags: &[i64],
    n: usize,
    period: usize,
) -> Result<(), Refusal>
    requires { Linking inputs gates outs.now delays.now outputs roots.now sizes.now nodes.now backs.now lags.now n period }
    ensures { LinksTold inputs gates outs.now delays.now outputs roots.now sizes.now nodes.now backs.now lags.now n period (code_of result) }
{
    let spots = places(roots, n);
    let w = Luts {
        inputs,
        spots: &spots,
        sizes,
        nodes,
        backs,
        lags,
        len: n,
    };
    let e = Ends {
        outputs,
        outs,
        delays,
    };
    if !luts_fed(w) || !outputs_fed(w, e) {
        return Err(Refusal::Unfed);
    }
    if !luts_enough(w) || !outputs_enough(w, e) {
        return Err(Refusal::NegativeCount);
    }
    if !chains_short(w, period) {
        return Err(Refusal::LongChain);
    }
    Ok(())
}
