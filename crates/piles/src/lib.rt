// Piles: ways of putting a set of channels into octets. Each format is a pile, and so is what is made of piles; an
// equipment maker's own is one by showing the same laws.
#![tactic(auto)]

pub mod beside;
pub mod filing;
pub mod flags;
pub mod format;
pub mod lengths;
pub mod licence;

ghost use Rattle.std.specs.Prelude.{◌≡◌, ℕ, ◌+◌, ◌<◌, ◌≤◌, Bool, true, false, List, length, if◌then◌else◌, Ok, Err, slice_index};
ghost use Rattle.claims.specs.Views.{claims};
ghost use Rattle.piles.specs.Laws.{sized, Meaning, Lawful, Filled, Put};

use channels::ChannelSet;
use claims::Claims;
use faults::{FormatFault, PileFault};

// The most octets that the contents of a list have.
pub const MOST: usize = 130;

pub trait Pile {
    // the first octets claimed, the set that contents are read as, the octets written for a set at a length
    ghost meaning: { Self → Meaning };

    // All first octets that it claims.
    fn claims(&self) -> Claims
        ensures { (o : ℕ) → o < 256 → claims result o ≡ (meaning self.now).claimed o };

    // Puts into `set` what the contents are read as, in place of what it held; a refusal leaves it.
    fn read(&self, contents: &[u8], set: &mut ChannelSet) -> Result<(), PileFault>
        ensures { Filled ((meaning self.now).reads contents.now) result set.old set.new };

    // Writes the set to the first `len` octets; the others stand, and a refusal leaves all. Octets and length are the caller's, since the
    // library has no memory of its own.
    fn write(&self, set: &ChannelSet, len: usize, out: &mut [u8; 130]) -> Result<(), PileFault>
        ensures { Put ((meaning self.now).writes set.now len) len result out.old out.new };

    ghost lawful: { (p : Self) → Lawful (meaning p) };
}

// The first of 1 to 130 octets. Every reading looks at this before it looks at claims.
pub fn first_octet(contents: &[u8]) -> Result<u8, FormatFault>
    ensures { result ≡ (if sized (length contents.now) then Ok (slice_index contents.now 0) else Err FormatFault.Length) }
{
    match contents {
        [first, ..] if contents.len() <= MOST => Ok(*first),
        _ => Err(FormatFault::Length),
    }
}
