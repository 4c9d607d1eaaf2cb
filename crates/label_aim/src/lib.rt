// What is asked of the labels, and the border of a question about them: in forward mode it is how far back a cone may reach.
#![tactic(auto)]

ghost use Rattle.std.specs.Prelude.{◌≡◌, true, false, ◌+◌, ◌*◌, ◌≤◌, ◌<◌, pos, ◌-ℤ◌, ◌≤ℤ◌, ◌<ℤ◌};
ghost use Rattle.label_theory.specs.Labels.{forward};
ghost use Rattle.label_theory.specs.Modes.{Topped};
ghost use Rattle.signed.specs.Range.{Small, room};
ghost use Rattle.label_aim.specs.Aims.{mode_of, rise_in, BorderTold, Bordering};

use cut_circuit::Extent;
use signed::{minus, no_higher, whole};

// What is asked of the labels: a period, the most leaves of a LUT, the outputs of the net, and a ceiling of all gates, in periods, where each has not its own.
// Whether covers are to be forward, and whether the labels are those of a trial, raised by φ times the width.
#[derive(Clone, Copy)]
pub struct Aim {
    pub phi: usize,
    pub k: usize,
    pub outputs: usize,
    pub cap: Option<usize>,
    pub forward: bool,
    pub trial: bool,
}

// By how much the labels were raised.
fn rise(s: Extent, a: Aim) -> usize
    requires { a.phi * s.width ≤ room }
    ensures { result ≡ rise_in s a }
{
    if a.trial { a.phi * s.width } else { 0 }
}

// The height p without that.
fn lowered(s: Extent, a: Aim, p: i64) -> i64
    requires { Small p × (a.phi * s.width ≤ room) }
    ensures { result ≡ (p -ℤ pos (rise_in s a)) }
{
    minus(p, rise(s, a))
}

// Whether h is above the period.
fn above(phi: usize, h: i64) -> bool
    requires { phi ≤ room }
    ensures yes { result ≡ true → pos phi <ℤ h }
    ensures no { result ≡ false → h ≤ℤ pos phi }
{
    let f = whole(phi);
    no_higher(f, 0, h)
}

// Whether no cone suits the mode at height p.
pub fn too_high(s: Extent, a: Aim, p: i64) -> bool
    requires { Small p × (a.phi * s.width ≤ room) × (1 ≤ s.width) }
    ensures yes { result ≡ true → Topped (mode_of a.forward) a.phi (p -ℤ pos (rise_in s a)) → ⊥ }
    ensures no { result ≡ false → Topped (mode_of a.forward) a.phi (p -ℤ pos (rise_in s a)) }
{
    if a.forward {
        let h = lowered(s, a, p);
        return above(a.phi, h);
    }
    false
}

// φ − h, where h is at most φ.
fn gap(phi: usize, h: i64) -> usize
    requires { (phi ≤ room) × Small h × (h ≤ℤ pos phi) }
    ensures { pos result ≡ (pos phi -ℤ h) }
{
    let f = whole(phi);
    (f - h) as usize
}

// The largest d up to the border with h + φ·d ≤ φ; 0 where there is none.
fn farthest(border: usize, phi: usize, h: i64) -> usize
    requires { phi * (border + 1) ≤ room }
    ensures { BorderTold forward phi h border result }
{
    let f = whole(phi);
    if no_higher(f, phi * border, h) {
        if above(phi, h) {
            return 0;
        }
        return gap(phi, h) / phi;
    }
    border
}

// The extent of a question about height p.
pub fn narrowed(s: Extent, a: Aim, p: i64) -> Extent
    requires { Small p × (a.phi * s.width ≤ room) × (s.border < s.width) }
    ensures { Bordering (mode_of a.forward) a.phi (p -ℤ pos (rise_in s a)) s result }
{
    if a.forward {
        let h = lowered(s, a, p);
        let border = farthest(s.border, a.phi, h);
        return Extent { border, ..s };
    }
    s
}
