// How values are written as text and read from it: numbers, cells, channels, octets, refusals.
#![tactic(auto)]

pub mod hex;
pub mod lists;
pub mod told;
pub mod words;

ghost use Rattle.std.specs.Prelude.{◌≡◌};

// What a word should have had where it went wrong.
#[derive(Clone, Copy, Debug, PartialEq, Eq)]
pub enum Expected {
    // a decimal digit
    Digit,
    // a decimal digit or the end of the word
    DigitOrEnd,
    // a decimal digit, a dash or the end of the word
    DigitOrDash,
    // a high end that is not below the low end
    NotBelow,
    // a hexadecimal digit
    HexDigit,
    // the colon between the two codes of a cell
    Colon,
    // nothing more
    End,
    // an area that is not deleted
    LiveArea,
}

// What is wrong with a word: the place of the byte at fault, the first being 0, and what should have stood there. That the place is within
// the word is said at each call and not in the type, which knows no word.
#[derive(Clone, Copy, Debug, PartialEq, Eq)]
pub struct WordFault {
    pub offset: usize,
    pub expected: Expected,
}

// The channels from one to another, both included. The order is no part of the type: any two numbers can be printed.
#[derive(Clone, Copy, Debug, PartialEq, Eq)]
pub struct Span {
    pub low: u16,
    pub high: u16,
}

// A cell by its location area code and its cell identity.
#[derive(Clone, Copy, Debug, PartialEq, Eq)]
pub struct Cell {
    pub lac: u16,
    pub ci: u16,
}

impl Expected {
    // The fault of a word that should have had this at a place.
    pub(crate) fn at(self, offset: usize) -> WordFault
        ensures { result ≡ record { offset = offset; expected = self } }
    {
        WordFault {
            offset,
            expected: self,
        }
    }
}
