// Plans: the lines that name cells and their channels, and the report on each.
#![tactic(auto)]

pub mod composing;
pub mod reading;
pub mod reporting;
pub mod tallies;
pub mod words;

ghost use Rattle.std.specs.Prelude.{◌≡◌};
ghost use Rattle.plans.specs.Plurals.{plural};

use channels::ChannelSet;
use faults::SetFault;
use notation::{Cell, Expected};

// Where a word of a line stands: the places of its first byte and of the byte after its last.
#[derive(Clone, Copy, Debug, PartialEq, Eq)]
pub struct Word {
    pub start: usize,
    pub end: usize,
}

// What is wrong in a line.
#[derive(Clone, Copy, Debug, PartialEq, Eq)]
pub enum Why {
    // something else should have stood there
    Misread(Expected),
    // the channels were refused
    Refused(SetFault),
}

// Where a line went wrong: from the place at fault to the end of its word.
#[derive(Clone, Copy, Debug, PartialEq, Eq)]
pub struct Complaint {
    pub start: usize,
    pub end: usize,
    pub why: Why,
}

// A cell and its channels: what a good line has that is not blank.
#[derive(Clone, Copy, Debug, PartialEq, Eq)]
pub struct Entry {
    pub cell: Cell,
    pub channels: ChannelSet,
}

// The contents that a list is composed of, and what they are read back as.
#[derive(Clone, Copy, Debug, PartialEq, Eq)]
pub struct Trial {
    pub octets: [u8; 16],
    pub back: ChannelSet,
}

// What came of a line.
#[derive(Clone, Copy, Debug, PartialEq, Eq)]
pub enum Verdict {
    // nothing stands there
    Blank,
    // the channels were composed, and read back
    Composed,
    // the channels were refused
    Refused,
    // the line was not understood
    Misread,
}

// The answer to a line, and its text, which is empty for a blank line.
#[derive(Drop)]
pub struct Answer {
    pub verdict: Verdict,
    pub text: String,
}

// How many lines came to what; blank lines do not count.
#[derive(Clone, Copy, Debug, PartialEq, Eq)]
pub struct Tally {
    pub composed: usize,
    pub refused: usize,
    pub misread: usize,
}

// The word for one thing or for many, by how many there are.
pub(crate) fn plural(count: usize, one: &'static str, many: &'static str) -> &'static str
    ensures { result.now ≡ plural count one.now many.now }
{
    if count == 1 { one } else { many }
}
