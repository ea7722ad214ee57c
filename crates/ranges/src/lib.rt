// The range formats of GSM 04.08: a list as a tree of numbers, each the distance of a channel from a base, told by the way to the root.
#![tactic(auto)]

ghost use Rattle.std.specs.Prelude.{◌≡◌, ℕ, ◌<◌, ◌≤◌, [], ◌∷◌};
ghost use Rattle.bits.specs.Bits.{bit_within};
ghost use Rattle.claims.specs.Views.{claims};
ghost use Rattle.packing.specs.Ranges.{width_of};
ghost use Rattle.packing.specs.declared.Range.TheVariants.{R1024, R512, R256, R128};
ghost use Rattle.ranges.specs.Ranges.{range_at, range_codec, claim_of, fits_of};
ghost use Rattle.ranges.specs.RangeLaws.{range_faithful};

use channels::ChannelSet;
use claims::Claims;
use faults::{FormatFault, PileFault};
use packing::Range;
use piles::format::Format;

mod reading;
mod writing;

// The octets claimed, as words: facts that a call brings in; they cost nothing at run time.
fn claimed_words()
    ensures r1024 { (o : ℕ) → o < 256 → bit_within (0 ∷ 0 ∷ 71777214294589695 ∷ 0 ∷ []) o ≡ claim_of R1024 o }
    ensures r512 { (o : ℕ) → o < 256 → bit_within (0 ∷ 0 ∷ 216176080698999552 ∷ 0 ∷ []) o ≡ claim_of R512 o }
    ensures r256 { (o : ℕ) → o < 256 → bit_within (0 ∷ 0 ∷ 864704322795998208 ∷ 0 ∷ []) o ≡ claim_of R256 o }
    ensures r128 { (o : ℕ) → o < 256 → bit_within (0 ∷ 0 ∷ 3458817291183992832 ∷ 0 ∷ []) o ≡ claim_of R128 o }
{}

fn all_claimed(range: Range) -> Claims
    ensures { (o : ℕ) → o < 256 → claims result o ≡ claim_of range o }
{
    claimed_words();
    match range {
        Range::R1024 => Claims::of(0, 0, 0x00FF_00FF_00FF_00FF, 0),
        Range::R512 => Claims::of(0, 0, 0x0300_0300_0300_0300, 0),
        Range::R256 => Claims::of(0, 0, 0x0C00_0C00_0C00_0C00, 0),
        Range::R128 => Claims::of(0, 0, 0x3000_3000_3000_3000, 0),
    }
}

// Whether bits 8, 7, 4, 3, 2 of a first octet are the range's.
fn is_claimed(range: Range, first: u8) -> bool
    ensures { result ≡ claim_of range first }
{
    match range {
        Range::R1024 => first & 0xC8 == 0x80,
        Range::R512 => first & 0xCE == 0x88,
        Range::R256 => first & 0xCE == 0x8A,
        Range::R128 => first & 0xCE == 0x8C,
    }
}

fn has_length(range: Range, len: usize) -> bool
    ensures { result ≡ fits_of range len }
{
    let least = match range {
        Range::R1024 => 1,
        Range::R512 | Range::R256 | Range::R128 => 3,
    };
    least <= len && len <= piles::MOST
}

// A range by the width K of its first number, as a type of its own, so that a nest of piles says which it has.
#[derive(Clone, Copy)]
pub struct RangeOf<const K: u32> {
    ghost known: { (7 ≤ K) × (K ≤ 10) },
}

pub type Range1024 = RangeOf<10>;

pub type Range512 = RangeOf<9>;

pub type Range256 = RangeOf<8>;

pub type Range128 = RangeOf<7>;

impl<const K: u32> RangeOf<K> {
    fn range(&self) -> Range
        ensures range { result ≡ range_at K }
        ensures width { width_of result ≡ K }
    {
        match K {
            7 => Range::R128,
            8 => Range::R256,
            9 => Range::R512,
            _ => Range::R1024,
        }
    }
}

impl<const K: u32> Format for RangeOf<K> {
    ghost codec = { λ _. range_codec (range_at K) };

    ghost faithful = { λ _. range_faithful (range_at K) };

    fn first_octets(&self) -> Claims {
        all_claimed(self.range())
    }

    fn begins(&self, first: u8) -> bool {
        is_claimed(self.range(), first)
    }

    fn has_length(&self, len: usize) -> bool {
        has_length(self.range(), len)
    }

    fn decode(&self, contents: &[u8]) -> Result<ChannelSet, FormatFault> {
        reading::decode(self.range(), contents)
    }

    fn encode(&self, set: &ChannelSet, len: usize, out: &mut [u8; 130]) -> Result<(), PileFault> {
        let range = self.range();
        let base = writing::base_of(range, set).ok_or(PileFault::Unwritten)?;
        writing::encode(range, set, base, len, out)
    }
}
