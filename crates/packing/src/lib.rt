// The numbers W(1), W(2), .. of a channel list in one of the 'range' formats of GSM 04.08, and where they stand in its octets.
// A bit position counts from the highest bit of the first octet. The numbers follow one another from a position on, highest bit first,
// and W(i) is narrower by one bit at each power of two that i reaches.
#![tactic(auto)]

ghost use Rattle.std.specs.Prelude.{◌≡◌, ◌^◌, ◌<◌, ◌≤◌};
ghost use Rattle.packing.specs.Ranges.{width_of, start_of};
ghost use Rattle.packing.specs.Fields.{width};

mod reading;
mod tables;
mod writing;

pub use reading::{flag_of, origin_of, unpack};
pub use tables::slots;
pub use writing::{head, pack};

#[derive(Clone, Copy, PartialEq, Eq, Debug)]
pub enum Range {
    R1024,
    R512,
    R256,
    R128,
}

// How many bits a number takes.
#[derive(Clone, Copy)]
struct Width {
    bits: u32,
    ghost some: { 1 ≤ bits },
    ghost narrow: { bits ≤ 10 },
}

impl Range {
    // The width of W(1).
    pub fn top_width(self) -> u32
        ensures { result ≡ width_of self }
    {
        match self {
            Range::R1024 => 10,
            Range::R512 => 9,
            Range::R256 => 8,
            Range::R128 => 7,
        }
    }

    // The bit position of W(1).
    pub fn start(self) -> usize
        ensures { result ≡ start_of self }
    {
        match self {
            Range::R1024 => 6,
            Range::R512 | Range::R256 | Range::R128 => 17,
        }
    }

    // The width of W(i).
    fn width_at(self, i: usize) -> Width
        requires first { 1 ≤ i }
        requires inside { i < 2 ^ width_of self }
        ensures { result.bits ≡ width (width_of self) i }
    {
        Width {
            bits: self.top_width() - i.ilog2(),
        }
    }
}
