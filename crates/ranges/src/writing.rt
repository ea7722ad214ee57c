ghost use Rattle.std.specs.Prelude.{◌≡◌, ℕ, ◌<◌, ◌≤◌, true, Some};
ghost use Rattle.channels.specs.Sets.{holds, size_of};
ghost use Rattle.tree.specs.Written.{full};
ghost use Rattle.ranges.specs.Ranges.{fits_of, base_of, tail_in, others_from};
ghost use Rattle.ranges.specs.Writing.{Planted, Encoded};

use channels::ChannelSet;
use faults::PileFault;
use origins::{origin, turned_down};
use packing::{Range, head, pack, slots};

// The channel that a set is written from, if it has one.
pub(crate) fn base_of(range: Range, set: &ChannelSet) -> Option<u16>
    ensures { result ≡ base_of range set.now }
{
    // an arm for each, since the reaches are the standard's own numbers: by the width, one arm would only hide them
    match range {
        Range::R1024 => Some(0),
        Range::R512 => origin(set, 511),
        Range::R256 => origin(set, 255),
        Range::R128 => origin(set, 127),
    }
}

// Set and base are parameters of these calls: a struct of them would be made in `encode` of the format and taken apart here.

// What stands behind the mark of the range, in bits: whether channel 0 is in the list, or the origin.
fn tail(range: Range, set: &ChannelSet, base: u16) -> u16
    ensures { result ≡ tail_in range set.now base }
{
    match range {
        Range::R1024 => set.holds(0) as u16,
        Range::R512 | Range::R256 | Range::R128 => base,
    }
}

// The distances of the members besides the base.
fn others_from(set: &ChannelSet, base: u16) -> ChannelSet
    requires { base < 1024 }
    ensures { result ≡ others_from set.now base }
{
    let mut turned = turned_down(set, base);
    // this is not over 1023
    let _ = turned.remove(0);
    turned
}

// Writes the tree of a set of distances to the places from 1 on of a table, and says how many numbers it has: the table is the caller's,
// since the library has no memory of its own.
fn plant(k: u32, distances: &ChannelSet, table: &mut [u16; 512]) -> usize
    requires narrow { k ≤ 10 }
    requires few { size_of distances.now < 512 }
    requires circle { (d : ℕ) → holds distances.now d ≡ true → (1 ≤ d) × (d ≤ full k) }
    ensures count { result ≡ size_of distances.now }
    ensures tree { Planted k distances.now table.new }
{
    let mut scratch = [0u16; 1024];
    let n = distances.members(&mut scratch);
    // they rise within the circle, and the table has room for them
    let _ = spread::write(&mut scratch[..n], k, table);
    n
}

// Writes the set at the front of `out` if there are slots enough for it.
pub(crate) fn encode(
    range: Range,
    set: &ChannelSet,
    base: u16,
    len: usize,
    out: &mut [u8; 130],
) -> Result<(), PileFault>
    requires base { base_of range set.now ≡ Some base }
    requires length { fits_of range len ≡ true }
    ensures { Encoded result range set.now base len out.old out.new }
{
    let distances = others_from(set, base);
    if distances.size() > slots(range, len) {
        return Err(PileFault::Unwritten);
    }
    let mut table = [0u16; 512];
    let n = plant(range.top_width(), &distances, &mut table);
    pack(
        range,
        head(range, tail(range, set, base)),
        &table,
        n,
        len,
        out,
    );
    Ok(())
}
