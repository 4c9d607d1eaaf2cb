// The highest of a gate's pins: the largest label(u) − φ·w.
#![tactic(auto)]

ghost use Rattle.std.specs.Prelude.{◌≡◌, true, false, ℕ, ◌+◌, ◌*◌, ◌≤◌, ◌<◌, length, ◌≤ℤ◌, ◌<ℤ◌};
ghost use Rattle.label_pins.specs.PinHeights.{height_at, PinFits, Best};

use signed::{minus, no_higher};

// The pins of gates: the node that each reads, and how many registers it has.
#[derive(Clone, Copy)]
pub struct Pins<'a> {
    pub sources: &'a [usize],
    pub counts: &'a [usize],
}

// Whether the pin at place a is lower than the pin at place b.
fn pin_less(pins: Pins, labels: &[i64], phi: usize, a: usize, b: usize) -> bool
    requires { PinFits pins.sources.now pins.counts.now labels.now phi a × PinFits pins.sources.now pins.counts.now labels.now phi b }
    ensures yes { result ≡ true → height_at pins.entry.sources.now pins.entry.counts.now labels.now phi a <ℤ height_at pins.entry.sources.now pins.entry.counts.now labels.now phi b }
    ensures no { result ≡ false → height_at pins.entry.sources.now pins.entry.counts.now labels.now phi b ≤ℤ height_at pins.entry.sources.now pins.entry.counts.now labels.now phi a }
{
    let high = pin_height(pins, labels, phi, b);
    let node = pins.sources[a];
    let shift = phi * pins.counts[a];
    no_higher(labels[node], shift, high)
}

// label(u) − φ·w for the pin at place i.
pub fn pin_height(pins: Pins, labels: &[i64], phi: usize, i: usize) -> i64
    requires { PinFits pins.sources.now pins.counts.now labels.now phi i }
    ensures { result ≡ height_at pins.entry.sources.now pins.entry.counts.now labels.now phi i }
{
    let node = pins.sources[i];
    let shift = phi * pins.counts[i];
    minus(labels[node], shift)
}

// Pin j where it is higher than the best so far.
fn better(pins: Pins, labels: &[i64], phi: usize, at: usize, best: usize, j: usize) -> usize
    requires { (at + j < length pins.sources.now) × PinFits pins.sources.now pins.counts.now labels.now phi (at + best) × PinFits pins.sources.now pins.counts.now labels.now phi (at + j) × Best pins.sources.now pins.counts.now labels.now phi at j best }
    ensures { Best pins.entry.sources.now pins.entry.counts.now labels.now phi at (j + 1) result }
{
    if pin_less(pins, labels, phi, at + best, at + j) {
        j
    } else {
        best
    }
}

// The highest of n pins from place `at` on.
pub fn best_pin(pins: Pins, labels: &[i64], phi: usize, at: usize, n: usize) -> usize
    requires { (0 < n) × (at + n ≤ length pins.sources.now) × ((j : ℕ) → j < n → PinFits pins.sources.now pins.counts.now labels.now phi (at + j)) }
    ensures { Best pins.entry.sources.now pins.entry.counts.now labels.now phi at n result }
{
    let mut best = 0;
    for j in 1..n {
        best = better(pins, labels, phi, at, best, j);
    }
    best
}
