ghost use Rattle.std.specs.Prelude.{◌≡◌, ℕ, ◌+◌, ◌-◌, ◌*◌, ◌<◌, not, ◌&&◌, [], ◌∷◌, ◌++◌, length, drop, is_some};
ghost use Rattle.bits.specs.Bits.{bit, bit_within};
ghost use Rattle.bits.specs.Lowest.{lowest};
ghost use Rattle.formats.specs.BitMap0.{bit_map0, map_claim, in_map, beyond, map_set, map_octets};
ghost use Rattle.formats.specs.MapLaws.{map_faithful};

use channels::ChannelSet;
use claims::Claims;
use faults::{FormatFault, PileFault};
use piles::format::Format;

// A bit for each of the channels 1 to 124, in sixteen octets, the lowest channel in the lowest bit of the last.
#[derive(Clone, Copy)]
pub struct BitMap0 {}

// First octets from here on are another format's.
const UNCLAIMED: u8 = 0x40;

const OCTETS: usize = 16;

// The highest channel that has a bit.
const LAST: u16 = 124;

// The octets claimed, as words: a fact that a call brings in; it costs nothing at run time.
fn claimed_words()
    ensures { (o : ℕ) → o < 256 → bit_within (18446744073709551615 ∷ 0 ∷ 0 ∷ 0 ∷ []) o ≡ map_claim o }
{}

// The bits that stand for channels in the octet with index i: the upper half of the first octet has none.
fn channel_bits(i: usize, octet: u8) -> u8
    requires { i < 16 }
    ensures { (k : ℕ) → bit result k ≡ (in_map (8 * (15 - i) + 1 + k) && bit octet k) }
{
    if i == 0 { octet & 0x0F } else { octet }
}

// What a map of sixteen octets stands for.
fn set_in(contents: &[u8]) -> ChannelSet
    requires { length contents.now ≡ 16 }
    ensures { result ≡ map_set contents.now }
{
    let mut set = ChannelSet::new();
    for (i, octet) in contents.iter().enumerate() {
        // none of these is over 1023
        let _ = set.add_eight(8 * (15 - i as u16) + 1, channel_bits(i, *octet));
    }
    set
}

// Whether each channel has a bit.
fn in_map(set: &ChannelSet) -> bool
    ensures { result ≡ not (is_some (lowest (beyond set.now) 1024)) }
{
    !set.holds(0) && set.next_above(LAST).is_none()
}

// Writes the map of a set.
fn put_map(set: &ChannelSet, out: &mut [u8; 130])
    ensures { out.new ≡ map_octets set.now ++ drop 16 out.old }
{
    for (j, octet) in out[..OCTETS].iter_mut().enumerate() {
        *octet = set.eight_from(8 * (15 - j as u16) + 1);
    }
}

impl Format for BitMap0 {
    ghost codec = { λ _. bit_map0 };

    ghost faithful = { λ _. map_faithful };

    fn first_octets(&self) -> Claims {
        claimed_words();
        Claims::of(0xFFFFFFFFFFFFFFFF, 0, 0, 0)
    }

    fn begins(&self, first: u8) -> bool {
        first < UNCLAIMED
    }

    fn has_length(&self, len: usize) -> bool {
        len == OCTETS
    }

    fn decode(&self, contents: &[u8]) -> Result<ChannelSet, FormatFault> {
        Ok(set_in(contents))
    }

    fn encode(&self, set: &ChannelSet, _len: usize, out: &mut [u8; 130]) -> Result<(), PileFault> {
        if !in_map(set) {
            return Err(PileFault::Unwritten);
        }
        put_map(set, out);
        Ok(())
    }
}
