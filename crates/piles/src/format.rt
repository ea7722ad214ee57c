// Formats: piles whose contents are told by the first octet and the length alone. What is the same in all of them, the order in which
// contents are looked at and the refusals, stands here once.
ghost use Rattle.std.specs.Prelude.{◌≡◌, ℕ, ◌<◌, true, length, slice_index};
ghost use Rattle.claims.specs.Views.{claims};
ghost use Rattle.piles.specs.Laws.{Put};
ghost use Rattle.piles.specs.Codecs.{Codec, or_unwritten, format_of};
ghost use Rattle.piles.specs.Faithful.{Faithful, format_lawful};

use crate::{Pile, first_octet};
use channels::ChannelSet;
use claims::Claims;
use faults::{FormatFault, PileFault};

pub trait Format {
    // the first octets and the lengths that it has, what contents stand for, and what a set is written as
    ghost codec: { Self → Codec };

    // All first octets that it has.
    fn first_octets(&self) -> Claims
        ensures { (o : ℕ) → o < 256 → claims result o ≡ (codec self.now).claimed o };

    // Whether an octet is one of them.
    fn begins(&self, first: u8) -> bool
        ensures { result ≡ (codec self.now).claimed first };

    fn has_length(&self, len: usize) -> bool
        ensures { result ≡ (codec self.now).fits len };

    // The set that contents stand for which begin and are as long as its contents are.
    fn decode(&self, contents: &[u8]) -> Result<ChannelSet, FormatFault>
        requires begins { (codec self.now).claimed (slice_index contents.now 0) ≡ true }
        requires fits { (codec self.now).fits (length contents.now) ≡ true }
        ensures { result ≡ (codec self.now).decoded contents.now };

    // Writes the set to the first `len` octets, one of its lengths; the others stand, and a refusal leaves all.
    fn encode(&self, set: &ChannelSet, len: usize, out: &mut [u8; 130]) -> Result<(), PileFault>
        requires fits { (codec self.now).fits len ≡ true }
        ensures { Put (or_unwritten ((codec self.now).encoded set.now len)) len result out.old out.new };

    ghost faithful: { (f : Self) → Faithful (codec f) };
}

// Every format is a pile.
impl<F: Format> Pile for F {
    ghost meaning = { λ f. format_of (F.codec f) };

    ghost lawful = { λ f. format_lawful (F.codec f) (F.faithful f) };

    fn claims(&self) -> Claims {
        self.first_octets()
    }

    fn read(&self, contents: &[u8], set: &mut ChannelSet) -> Result<(), PileFault> {
        let first = first_octet(contents)?;
        if !self.begins(first) {
            return Err(PileFault::Unclaimed);
        }
        if !self.has_length(contents.len()) {
            return Err(PileFault::Format(FormatFault::Length));
        }
        *set = self.decode(contents)?;
        Ok(())
    }

    fn write(&self, set: &ChannelSet, len: usize, out: &mut [u8; 130]) -> Result<(), PileFault> {
        if !self.has_length(len) {
            return Err(PileFault::Unwritten);
        }
        self.encode(set, len, out)
    }
}
