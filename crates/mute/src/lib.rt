// A pile as an equipment maker may write it, in small: it claims every first octet, and neither reads nor writes anything.
// Its refusals are its own: a number that piles may give, with a layer and a place of its choice.
#![tactic(auto)]

ghost use Rattle.std.specs.Prelude.{◌≡◌};
ghost use Rattle.mute.specs.Mute.{mute};
ghost use Rattle.mute.specs.Lawful.{mute_lawful};

use channels::ChannelSet;
use claims::Claims;
use faults::{Cause, Layer, PileFault};
use piles::Pile;

#[derive(Clone, Copy)]
pub struct Mute {}

impl Pile for Mute {
    ghost meaning = { λ _. mute };

    ghost lawful = { λ p. mute_lawful };

    fn claims(&self) -> Claims {
        Claims::all()
    }

    fn read(&self, _contents: &[u8], _set: &mut ChannelSet) -> Result<(), PileFault> {
        Err(PileFault::Maker {
            cause: Cause::NumberAfterNull,
            layer: Layer::Pile,
            place: 5,
        })
    }

    fn write(&self, _set: &ChannelSet, len: usize, _out: &mut [u8; 130]) -> Result<(), PileFault> {
        Err(PileFault::Maker {
            cause: Cause::OutsideLicence,
            layer: Layer::Volume,
            place: len,
        })
    }
}
