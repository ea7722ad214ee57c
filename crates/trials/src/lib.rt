// Piles nested in one another, as an office uses them, proved from the laws of the parts alone; and worked cases as tests.
#![tactic(auto)]

ghost use Rattle.std.specs.Prelude.{◌≡◌};
ghost use Rattle.piles.specs.Laws.{Filled, Put};
ghost use Rattle.piles.specs.Combined.{beside_of, licence_of};
ghost use Rattle.piles.specs.Codecs.{format_of};
ghost use Rattle.formats.specs.BitMap0.{bit_map0};
ghost use Rattle.mute.specs.Mute.{mute};

use channels::ChannelSet;
use faults::PileFault;
use formats::bitmap0::BitMap0;
use mute::Mute;
use piles::Pile;
use piles::beside::Beside;
use piles::licence::Licence;

#[cfg(test)]
mod tests;

// A licensed bit map beside a maker's pile.
pub type Nest = Beside<Licence<BitMap0>, Mute>;

pub fn nest(allowed: ChannelSet) -> Nest
    ensures { result.first.allowed ≡ allowed }
{
    Beside {
        first: Licence {
            allowed,
            pile: BitMap0 {},
        },
        second: Mute {},
    }
}

pub fn read_nested(nest: &Nest, contents: &[u8], set: &mut ChannelSet) -> Result<(), PileFault>
    ensures { Filled ((beside_of (licence_of nest.now.first.allowed (format_of bit_map0)) mute).reads contents.now) result set.old set.new }
{
    nest.read(contents, set)
}

pub fn write_nested(
    nest: &Nest,
    set: &ChannelSet,
    len: usize,
    out: &mut [u8; 130],
) -> Result<(), PileFault>
    ensures { Put ((beside_of (licence_of nest.now.first.allowed (format_of bit_map0)) mute).writes set.now len) len result out.old out.new }
{
    nest.write(set, len, out)
}
