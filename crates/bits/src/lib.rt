// The bits of numbers, and sets of numbers as bits of 64-bit words.
#![tactic(auto)]

ghost use Rattle.std.specs.Prelude.{◌≡◌, ℕ, ◌+◌, ◌-◌, ◌<◌, length, nat_lt, if◌then◌else◌};
ghost use Rattle.bits.specs.Bits.{bit, Fit};

// The calls stand below the struct, since definitions that name it cannot be imported where it is declared.
mod calls;

// A set of numbers below 64 * N: a bit for each, the lowest in the lowest bit of the first word. That N is below 1024, so that the numbers fit
// 16 bits, is required where a number is found and not in the type: at a given N it costs nobody anything, and `From` could not ask for it.
#[derive(Clone, Copy, PartialEq, Eq, Debug)]
pub struct Words<const N: usize> {
    words: [u64; N],
    ghost whole: { length words ≡ N },
    ghost fits: { Fit words },
}

// Bit `k` of a word, the lowest being bit 0; past the word there are none.
pub fn bit_of(w: u64, k: u32) -> bool
    ensures { result ≡ bit w k }
{
    k < 64 && (w >> k) % 2 == 1
}

// A word moved up by r bits, with the top r bits of the word below it.
pub fn joined(high: u64, low: u64, r: u16) -> u64
    requires { r < 64 }
    ensures { (k : ℕ) → k < 64 → bit result k ≡ (if nat_lt k r then bit low (k + 64 - r) else bit high (k - r)) }
{
    (high << r) | (low >> (63 - r) >> 1)
}
