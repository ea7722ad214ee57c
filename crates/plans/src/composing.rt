// A list composed as a message takes it, and read back.
ghost use Rattle.std.specs.Prelude.{◌≡◌};
ghost use Rattle.plans.specs.Trials.{Tried};

use crate::Trial;
use channels::ChannelSet;
use faults::PileFault;
use piles::Pile;
use piles::filing::compose;
use piles::flags::Flags;
use piles::lengths::Lengths;

// How many octets a message has for a list.
const OCTETS: usize = 16;

// Composes the octets of a list, without flags, and reads them back.
pub fn compose_and_read<P: Pile>(pile: &P, set: &ChannelSet) -> Result<Trial, PileFault>
    ensures { Tried (P.meaning pile.now) set.now result }
{
    let Some(lengths) = Lengths::between(OCTETS, OCTETS) else {
        unreachable()
    };
    let flags = Flags {
        extension: false,
        allocation: false,
    };
    let mut out = [0; 130];
    compose(pile, set, lengths, flags, &mut out)?;
    let mut octets = [0; 16];
    octets.copy_from_slice(&out[0..OCTETS]);
    let mut back = ChannelSet::new();
    pile.read(&octets, &mut back)?;
    Ok(Trial { octets, back })
}
