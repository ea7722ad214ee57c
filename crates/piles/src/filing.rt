// The rule by which one list is filed: at the least allowed length at which the pile has octets for it, with its flags.
ghost use Rattle.std.specs.Prelude.{◌≡◌, ◌≤◌, take, Ok};
ghost use Rattle.piles.specs.Filing.{Shortest, Composes, Marked};

use crate::Pile;
use crate::flags::Flags;
use crate::lengths::Lengths;
use channels::ChannelSet;
use faults::PileFault;

// Writes the set at the least of the lengths at which the pile writes it.
fn shortest<P: Pile>(
    pile: &P,
    set: &ChannelSet,
    lengths: Lengths,
    out: &mut [u8; 130],
) -> Result<usize, PileFault>
    ensures { Shortest (P.meaning pile.now) set.now lengths.least lengths.most result out.old out.new }
{
    let most = lengths.most();
    for len in lengths.least()..most {
        if let Ok(()) = pile.write(set, len, out) {
            return Ok(len);
        }
    }
    pile.write(set, most, out)?;
    Ok(most)
}

// Puts flags into contents of `len` octets, which are read as before.
fn mark<P: Pile>(pile: &P, set: &ChannelSet, len: usize, flags: Flags, out: &mut [u8; 130])
    requires { (P.meaning pile.now).reads (take len out.old) ≡ Ok set.now }
    ensures { Marked (P.meaning pile.now) set.now len flags out.old out.new }
{
    out[0] = flags.put_into(out[0]);
}

// Pile, set and octets go together through these three, but are the caller's: a struct of them would be made here and taken apart at once.

// Composes the contents of a list at the front of `out`, and says how many octets they are.
pub fn compose<P: Pile>(
    pile: &P,
    set: &ChannelSet,
    lengths: Lengths,
    flags: Flags,
    out: &mut [u8; 130],
) -> Result<usize, PileFault>
    ensures { Composes (P.meaning pile.now) set.now lengths.least lengths.most flags result out.old out.new }
{
    let len = shortest(pile, set, lengths, out)?;
    mark(pile, set, len, flags, out);
    Ok(len)
}
