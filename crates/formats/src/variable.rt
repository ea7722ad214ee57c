ghost use Rattle.std.specs.Prelude.{◌≡◌, ℕ, ◌+◌, ◌-◌, ◌*◌, ◌/◌, ◌%◌, ◌<◌, ◌≤◌, [], ◌∷◌, length, take, drop, ◌==◌, bit_and, bit_or};
ghost use Rattle.std.specs.Int.{reverse_bits_onto};
ghost use Rattle.bits.specs.Bits.{bit_within};
ghost use Rattle.channels.specs.Sets.{turned, set_of, eight_from};
ghost use Rattle.formats.specs.Variable.{variable, variable_claim, orig_in, is_marked, variable_set, variable_octets, variable_octet, marks_in};
ghost use Rattle.formats.specs.VariableLaws.{variable_faithful};

use channels::ChannelSet;
use claims::Claims;
use faults::{FormatFault, PileFault};
use origins::{origin, turned_down, turned_up};
use packing::origin_of;
use piles::MOST;
use piles::format::Format;

// A channel, ORIG, and a bit for each of the channels after it, round the circle, as far as the octets go.
#[derive(Clone, Copy)]
pub struct Variable {}

// The bits of the first octet that the claim is by, and what they are.
const CLAIM_BITS: u8 = 0xCE;

const CLAIM: u8 = 0x8E;

// ORIG ends in the highest bit of the third octet.
const LEAST: usize = 3;

const HEAD_BITS: usize = 17;

// The octets claimed, as words and by their bits: facts that a call brings in; they cost nothing at run time.
fn claimed_octets()
    ensures words { (o : ℕ) → o < 256 → bit_within (0 ∷ 0 ∷ 13835269164735971328 ∷ 0 ∷ []) o ≡ variable_claim o }
    ensures bits { (o : ℕ) → o < 256 → (bit_and o 206 == 142) ≡ variable_claim o }
{}

// What an octet of the map is, its highest bit being the nearest channel: facts that a call brings in.
fn bits_turn(j: usize, octet: u8)
    ensures nearest { reverse_bits_onto 8 (bit_or octet 128) 0 ≡ marks_in 2 octet }
    ensures others { 2 < j → reverse_bits_onto 8 octet 0 ≡ marks_in j octet }
{}

// The channels that the octet with index j has, the nearest in the lowest bit. ORIG itself is the first of the first such octet.
fn channel_bits(j: usize, octet: u8) -> u8
    requires { 2 ≤ j }
    ensures { result ≡ marks_in j octet }
{
    bits_turn(j, octet);
    if j < LEAST {
        return (octet | 0x80).reverse_bits();
    }
    octet.reverse_bits()
}

// The set as it is seen from ORIG.
fn ahead_of_orig(contents: &[u8]) -> ChannelSet
    requires least { 3 ≤ length contents.now }
    requires most { length contents.now ≤ 130 }
    ensures { result ≡ set_of (is_marked contents.now) }
{
    let mut seen = ChannelSet::new();
    for (i, octet) in contents[2..].iter().enumerate() {
        // none of these is over 1023
        let _ = seen.add_eight(8 * i as u16, channel_bits(2 + i, *octet));
    }
    seen
}

// Turned up to ORIG it is the set: a fact that a call brings in.
fn orig_turns(contents: &[u8])
    ensures { turned (set_of (is_marked contents.now)) (orig_in contents.now % 1024) ≡ variable_set contents.now }
{}

// What contents stand for.
fn set_in(contents: &[u8]) -> ChannelSet
    requires least { 3 ≤ length contents.now }
    requires most { length contents.now ≤ 130 }
    ensures { result ≡ variable_set contents.now }
{
    orig_turns(contents);
    turned_up(&ahead_of_orig(contents), origin_of(contents))
}

// A set as it is seen from ORIG.
#[derive(Clone, Copy)]
struct Seen {
    set: ChannelSet,
    orig: u16,
    ghost low: { orig < 1024 },
}

impl Seen {
    // What the octet with index j comes to: facts that a call brings in.
    fn octets_are(&self, j: usize)
        ensures first { j ≡ 0 → 142 + self.now.orig / 512 ≡ variable_octet self.now.set self.now.orig j }
        ensures second { j ≡ 1 → self.now.orig / 2 % 256 ≡ variable_octet self.now.set self.now.orig j }
        ensures third { j ≡ 2 → reverse_bits_onto 8 (eight_from self.now.set 0) 0 % 128 + self.now.orig % 2 * 128 ≡ variable_octet self.now.set self.now.orig j }
        ensures others { 2 < j → reverse_bits_onto 8 (eight_from self.now.set (8 * (j - 2))) 0 ≡ variable_octet self.now.set self.now.orig j }
    {}

    // The octet with index j.
    fn octet(&self, j: usize) -> u8
        requires { j < 130 }
        ensures { result ≡ variable_octet self.now.set self.now.orig j }
    {
        self.octets_are(j);
        match j {
            0 => CLAIM + (self.orig / 512) as u8,
            1 => (self.orig / 2 % 256) as u8,
            2 => self.set.eight_from(0).reverse_bits() % 128 + (self.orig % 2) as u8 * 128,
            _ => self.set.eight_from(8 * (j as u16 - 2)).reverse_bits(),
        }
    }
}

// Writes a set from ORIG.
fn put_from(set: &ChannelSet, orig: u16, len: usize, out: &mut [u8; 130])
    requires most { len ≤ 130 }
    requires small { orig < 1024 }
    ensures front { take len out.new ≡ variable_octets set.now len orig }
    ensures rest { drop len out.new ≡ drop len out.old }
{
    let seen = Seen {
        set: turned_down(set, orig),
        orig,
    };
    for (j, o) in out[..len].iter_mut().enumerate() {
        *o = seen.octet(j);
    }
}

impl Format for Variable {
    ghost codec = { λ _. variable };

    ghost faithful = { λ _. variable_faithful };

    fn first_octets(&self) -> Claims {
        claimed_octets();
        Claims::of(0, 0, 0xC000C000C000C000, 0)
    }

    fn begins(&self, first: u8) -> bool {
        claimed_octets();
        first & CLAIM_BITS == CLAIM
    }

    fn has_length(&self, len: usize) -> bool {
        LEAST <= len && len <= MOST
    }

    fn decode(&self, contents: &[u8]) -> Result<ChannelSet, FormatFault> {
        Ok(set_in(contents))
    }

    fn encode(&self, set: &ChannelSet, len: usize, out: &mut [u8; 130]) -> Result<(), PileFault> {
        let orig = origin(set, (8 * len - HEAD_BITS) as u16).ok_or(PileFault::Unwritten)?;
        put_from(set, orig, len, out);
        Ok(())
    }
}
