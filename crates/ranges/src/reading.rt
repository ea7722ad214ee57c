ghost use Rattle.std.specs.Prelude.{◌≡◌, ℕ, ◌<◌, ◌≤◌, true, false, length, if◌then◌else◌, nat_eq, slice_index};
ghost use Rattle.channels.specs.Sets.{holds, set_of};
ghost use Rattle.packing.specs.Reading.{unpacked};
ghost use Rattle.tree.specs.Number.{entries, number as number_of, reaches};
ghost use Rattle.ranges.specs.Ranges.{base_in, base_held, gathered, member, range_read};

use channels::ChannelSet;
use faults::FormatFault;
use origins::turned_up;
use packing::{Range, flag_of, origin_of, unpack};
use tree::Tree;

// The channel that distances are counted from, and whether it is itself in the list: they are counted from it either way.
#[derive(Clone, Copy)]
struct Base {
    channel: u16,
    held: bool,
    ghost low: { channel < 1024 },
}

// Channel 0, or nothing.
fn zero_if(held: bool) -> ChannelSet
    ensures { (c : ℕ) → holds result c ≡ (if nat_eq c 0 then held else false) }
{
    let mut set = ChannelSet::new();
    if held {
        // this is not over 1023
        let _ = set.add(0);
    }
    set
}

impl Base {
    // Channel 0, which a flag tells of, or the origin, which is always in the list.
    fn of(range: Range, contents: &[u8]) -> Base
        ensures channel { result.channel ≡ base_in range contents.now }
        ensures held { result.held ≡ base_held range contents.now }
    {
        match range {
            Range::R1024 => Base {
                channel: 0,
                held: flag_of(contents),
            },
            Range::R512 | Range::R256 | Range::R128 => Base {
                channel: origin_of(contents),
                held: true,
            },
        }
    }

    // The set of the channels that lie at these distances from the base, and of the base itself if it is held.
    fn gather(self, distances: &[u16]) -> ChannelSet
        requires { (j : ℕ) → j < length distances.now → (1 ≤ slice_index distances.now j) × (slice_index distances.now j ≤ 1023) }
        ensures { result ≡ set_of (gathered self.channel self.held distances.now) }
    {
        let mut set = zero_if(self.held);
        for d in distances {
            // none of these is over 1023
            let _ = set.add(*d);
        }
        turned_up(&set, self.channel)
    }

    // The set that the first n numbers of a tree stand for: its table has room for more than were read.
    fn stand_for(self, tree: &Tree, n: usize) -> ChannelSet
        requires room { n ≤ 512 }
        requires there { reaches tree.now.table.now tree.now.width n ≡ true }
        requires circle { (i : ℕ) → 1 ≤ i → i ≤ n → (1 ≤ number_of tree.now.width (entries tree.now.table.now) i) × (number_of tree.now.width (entries tree.now.table.now) i ≤ 1023) }
        ensures { result ≡ set_of (member self.channel self.held tree.now.width (entries tree.now.table.now) n) }
    {
        let mut scratch = [0u16; 512];
        let distances = &mut scratch[..n];
        // there are so many
        let _ = tree.numbers(distances);
        self.gather(distances)
    }
}

// What contents of a range are read as.
pub(crate) fn decode(range: Range, contents: &[u8]) -> Result<ChannelSet, FormatFault>
    ensures { result ≡ range_read range contents.now (unpacked range contents.now) }
{
    let mut table = [0u16; 512];
    let n = unpack(range, contents, &mut table)?;
    let Ok(tree) = Tree::new(&table, range.top_width()) else {
        unreachable()
    };
    Ok(Base::of(range, contents).stand_for(&tree, n))
}
