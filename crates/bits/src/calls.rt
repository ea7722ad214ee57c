ghost use Rattle.std.specs.Prelude.{◌≡◌, ℕ, ◌+◌, ◌*◌, ◌/◌, ◌%◌, ◌<◌, ◌≤◌, Bool, true, false, ◌&&◌, ◌||◌, ◌==◌, if◌then◌else◌, length, slice_index, bit_or, count_ones, sum_by};
ghost use Rattle.bits.specs.Bits.{bit, tally};
ghost use Rattle.bits.specs.Lowest.{lowest};
ghost use Rattle.bits.specs.Numbers.{has, in_both, in_first, from_on};

use crate::{Words, bit_of, joined};
use std::array;

// How many bits of the words are set.
fn ones_of(words: &[u64]) -> usize
    requires { length words.now < 1024 }
    ensures { result ≡ sum_by count_ones words.now }
{
    words.iter().map(|w| w.count_ones()).sum::<u32>() as usize
}

impl<const N: usize> From<[u64; N]> for Words<N> {
    ghost from_gives = { λ ws r. r.words ≡ ws };

    fn from(words: [u64; N]) -> Words<N> {
        Words { words }
    }
}

impl<const N: usize> Words<N> {
    pub fn none() -> Words<N>
        ensures { (c : ℕ) → has result c ≡ false }
    {
        Words { words: [0; N] }
    }

    // All numbers below 64 * N.
    pub fn all() -> Words<N>
        ensures { (c : ℕ) → c < 64 * N → has result c ≡ true }
    {
        Words {
            words: [u64::MAX; N],
        }
    }

    pub fn has(&self, c: u16) -> bool
        ensures { result ≡ has self.now c }
    {
        bit_of(self.word((c / 64) as usize), (c % 64) as u32)
    }

    pub fn insert(&mut self, c: u16)
        requires { c < 64 * N }
        ensures { (k : ℕ) → has self.new k ≡ (if k == c then true else has self.old k) }
    {
        let i = (c / 64) as usize;
        self.words[i] |= 1 << (c % 64);
    }

    pub fn remove(&mut self, c: u16)
        requires { c < 64 * N }
        ensures { (k : ℕ) → has self.new k ≡ (if k == c then false else has self.old k) }
    {
        let i = (c / 64) as usize;
        self.words[i] &= !(1 << (c % 64));
    }

    // Adds the numbers of word i whose bits are set in w.
    pub fn insert_word(&mut self, i: usize, w: u64)
        requires { i < N }
        ensures { (c : ℕ) → has self.new c ≡ (has self.old c || (c / 64 == i && bit w (c % 64))) }
    {
        self.words[i] |= w;
    }

    // Word i, and nothing past the last.
    pub fn word(&self, i: usize) -> u64
        ensures { result ≡ slice_index self.now.words i }
    {
        self.words.get(i).copied().unwrap_or(0)
    }

    // The 64 numbers from `from` on, the lowest in the lowest bit.
    pub fn window(&self, from: u16) -> u64
        ensures { (k : ℕ) → k < 64 → bit result k ≡ has self.now (from + k) }
    {
        let i = (from / 64) as usize;
        let r = from % 64;
        if r == 0 {
            self.word(i)
        } else {
            joined(self.word(i + 1), self.word(i), 64 - r)
        }
    }

    pub fn size(&self) -> usize
        requires { N < 1024 }
        ensures { result ≡ tally (has self.now) (64 * N) }
    {
        ones_of(&self.words)
    }

    // What either holds.
    pub fn union(&self, other: &Words<N>) -> Words<N>
        ensures { (c : ℕ) → has result c ≡ (has self.now c || has other.now c) }
    {
        // by an index: after a zip of `iter_mut` nothing is known of the words
        let either = |i: usize|
            ensures { result ≡ bit_or (slice_index self.entry.now.words i) (slice_index other.entry.now.words i) }
        { self.word(i) | other.word(i) };
        Words {
            words: array::from_fn(either),
        }
    }

    // The lowest number from `from` on.
    pub fn lowest_from(&self, from: u16) -> Option<u16>
        requires at { from < 64 * N }
        requires few { N < 1024 }
        ensures { result ≡ lowest (from_on self.now from) (64 * N) }
    {
        let at = (from / 64) as usize;
        let skip = from % 64;
        let words = self.words.as_slice();
        let w = words[at] >> skip << skip;
        if w != 0 {
            return Some(64 * at as u16 + w.trailing_zeros() as u16);
        }
        let rest = &words[at + 1..];
        // a loop here and below: `find_map` would take one closure more, with clauses of its own
        for (i, w) in rest.iter().enumerate() {
            if *w != 0 {
                return Some(64 * (at + 1 + i) as u16 + w.trailing_zeros() as u16);
            }
        }
        None
    }

    // The lowest bit in the words that `pair` makes of each two at one place.
    fn lowest_where<F: Fn(u64, u64) -> u64>(&self, other: &Words<N>, pair: F) -> Option<u16>
        requires callable { F.IsAlwaysCallable pair }
        requires few { N < 1024 }
        ensures { (p : ℕ → Bool) → ((i w b : ℕ) → i < N → b < 64 → F.post pair (slice_index self.now.words i) (slice_index other.now.words i) w → p (64 * i + b) ≡ bit w b) → result ≡ lowest p (64 * N) }
    {
        for (i, (a, b)) in self.words.iter().zip(&other.words).enumerate() {
            let w = pair(*a, *b);
            if w != 0 {
                return Some(64 * i as u16 + w.trailing_zeros() as u16);
            }
        }
        None
    }

    // The lowest number that both hold.
    pub fn lowest_in_both(&self, other: &Words<N>) -> Option<u16>
        requires { N < 1024 }
        ensures { result ≡ lowest (in_both self.now other.now) (64 * N) }
    {
        self.lowest_where(other, |a, b| a & b)
    }

    // The lowest number that `other` has not.
    pub fn lowest_outside(&self, other: &Words<N>) -> Option<u16>
        requires { N < 1024 }
        ensures { result ≡ lowest (in_first self.now other.now) (64 * N) }
    {
        self.lowest_where(other, |a, b| a & !b)
    }
}
