// The first octets that a pile claims, as a set of numbers below 256.
#![tactic(auto, unfolding(bits::specs::Bits::bit_in))]

ghost use Rattle.std.specs.Prelude.{◌≡◌, ℕ, ◌<◌, true, false, ◌||◌, [], ◌∷◌};
ghost use Rattle.bits.specs.Bits.{bit_within};
ghost use Rattle.claims.specs.Views.{claims, shared};

use bits::Words;

#[derive(Clone, Copy)]
pub struct Claims {
    octets: Words<4>,
}

impl Claims {
    // The octets whose bits are set in four words, the lowest first. Four numbers and no array: so the clauses of formats list them.
    pub fn of(a: u64, b: u64, c: u64, d: u64) -> Claims
        ensures { (o : ℕ) → claims result o ≡ bit_within (a ∷ b ∷ c ∷ d ∷ []) o }
    {
        Claims {
            octets: Words::from([a, b, c, d]),
        }
    }

    pub fn none() -> Claims
        ensures { (o : ℕ) → o < 256 → claims result o ≡ false }
    {
        Claims {
            octets: Words::none(),
        }
    }

    pub fn all() -> Claims
        ensures { (o : ℕ) → o < 256 → claims result o ≡ true }
    {
        Claims {
            octets: Words::all(),
        }
    }

    pub fn has(&self, o: u8) -> bool
        ensures { result ≡ claims self.now o }
    {
        self.octets.has(o as u16)
    }

    // What either claims.
    pub fn union(&self, other: &Claims) -> Claims
        ensures { (o : ℕ) → claims result o ≡ (claims self.now o || claims other.now o) }
    {
        Claims {
            octets: self.octets.union(&other.octets),
        }
    }

    // The lowest octet that both claim.
    pub fn common(&self, other: &Claims) -> Option<u8>
        ensures { result ≡ shared (claims self.now) (claims other.now) }
    {
        let octet = self.octets.lowest_in_both(&other.octets)?;
        Some(octet as u8)
    }
}
