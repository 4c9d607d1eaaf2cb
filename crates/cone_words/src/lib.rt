// Truth tables as words of 64 bits, shifted and masked: bit i is the value in choice i of the leaves' values.
#![tactic(auto)]

ghost use Rattle.std.specs.Prelude.{◌≡◌, ◌+◌, ◌*◌, ◌%◌, ◌^◌, ◌≤◌, ◌<◌, length, get_or};
ghost use Rattle.limits.specs.Limits.{most_pins};
ghost use Rattle.net_model.specs.Tables.{bit, as_number};
ghost use Rattle.net_model.specs.FullTables.{repeated_table};
ghost use Rattle.cone_words.specs.LeafWords.{LeafWord, Composed};
ghost use Rattle.cone_words.specs.WholeWords.{Muxed, Repeated, Spread, Folded, Halved};

use limits::PINS;

// The choices of six leaves' values.
const CHOICES: usize = 64;

// The words of the six leaves: bit i of word j is bit j of i.
const WORDS: [u64; PINS] = [
    0xaaaaaaaaaaaaaaaa,
    0xcccccccccccccccc,
    0xf0f0f0f0f0f0f0f0,
    0xff00ff00ff00ff00,
    0xffff0000ffff0000,
    0xffffffff00000000,
];

// The lowest 2^n bits, for n up to six.
const MASKS: [u64; PINS + 1] = [0x1, 0x3, 0xf, 0xff, 0xffff, 0xffffffff, 0xffffffffffffffff];

// The word of leaf j.
pub fn leaf_word(j: usize) -> u64
    requires { j < most_pins }
    ensures { LeafWord j result }
{
    WORDS[j]
}

// Bit `index` of a table, 0 or 1.
pub fn value_at(table: u64, index: usize) -> u64
    requires { index < 64 }
    ensures { result ≡ as_number (bit table index) }
{
    (table >> index) & 1
}

// a where s has a 1, else b, bit by bit.
fn mux(s: u64, a: u64, b: u64) -> u64
    ensures { Muxed s a b result }
{
    b ^ ((a ^ b) & s)
}

// Bit i of a table, 64 times.
fn repeated(table: u64, i: usize) -> u64
    requires { i < 64 }
    ensures { Repeated table i result }
{
    if value_at(table, i) == 1 {
        0xffffffffffffffff
    } else {
        0
    }
}

// The first n bits of a table, each in a word of its own.
fn spread(table: u64, n: usize, words: &mut [u64])
    requires { (n ≤ 64) × (n ≤ length words.old) }
    ensures { Spread table words.new n }
{
    for i in 0..n {
        words[i] = repeated(table, i);
    }
}

// Of two words from place 2·i on the one that s says, bit by bit.
fn neighbours(s: u64, words: &[u64], i: usize) -> u64
    requires { 2 * i + 1 < length words.now }
    ensures { Muxed s (get_or words.now (2 * i + 1) 0) (get_or words.now (2 * i) 0) result }
{
    mux(s, words[2 * i + 1], words[2 * i])
}

// Each of the first n words is chosen by s from two neighbours.
fn halve(s: u64, n: usize, words: &mut [u64])
    requires { 2 * n ≤ length words.old }
    ensures { Halved s n words.old words.new }
{
    for i in 0..n {
        words[i] = neighbours(s, words, i);
    }
}

// The table's words halved by each of the m pins' words.
fn fold(table: u64, pins: [u64; PINS], m: usize, words: &mut [u64])
    requires { (m ≤ most_pins) × (2 ^ m ≤ length words.old) × Folded table pins 0 (2 ^ m) words.old }
    ensures { Folded table pins m 1 words.new }
{
    let mut n: usize = 1 << m;
    for j in 0..m {
        n /= 2;
        halve(pins[j], n, words);
    }
}

// The table applied to the first m words, in each of the 64 choices.
pub fn compose(table: u64, words: [u64; PINS], m: usize) -> u64
    requires { m ≤ most_pins }
    ensures { Composed table words m 64 result }
{
    let mut all = [0u64; CHOICES];
    spread(table, 1 << m, &mut all);
    fold(table, words, m, &mut all);
    all[0]
}

// The lowest 2^n bits of a word.
pub fn low(word: u64, n: usize) -> u64
    requires { n ≤ most_pins }
    ensures { result ≡ word % 2 ^ (2 ^ n) }
{
    word & MASKS[n]
}

// A word of 2^j bits, twice.
fn twice(word: u64, j: usize) -> u64
    requires { (j < most_pins) × (word < 2 ^ (2 ^ j)) }
    ensures { result ≡ word + word * 2 ^ (2 ^ j) }
{
    let bits: usize = 1 << j;
    word + (word << bits)
}

// The lowest 2^n bits of a table, repeated until 64 bits are full.
pub fn whole(table: u64, n: usize) -> u64
    requires { n ≤ most_pins }
    ensures { result ≡ repeated_table n table }
{
    let mut word = low(table, n);
    for j in n..PINS {
        word = twice(word, j);
    }
    word
}
