// The words of a line, and what each of them says.
ghost use Rattle.std.specs.Prelude.{◌≡◌, ◌^◌, ◌+◌, ◌<◌, ◌≤◌, length, IfErr};
ghost use Rattle.std.specs.Result.{ForErr};
ghost use Rattle.std.specs.Iterator.{YieldsFirst, item_count};
ghost use Rattle.std.specs.List.{prefix_len};
ghost use Rattle.channels.specs.Sets.{Changed};
ghost use Rattle.notation.specs.Octets.{blank};
ghost use Rattle.plans.specs.Words.{solid, end_of, place_of, words_of};
ghost use Rattle.plans.specs.Lines.{Inside, placed, cell_in, with_span, add_in, Taken};

use crate::{Complaint, Why};
use channels::ChannelSet;
use faults::SetFault;
use notation::hex::is_blank;
use notation::{Cell, Span, WordFault};
use std::marker::Model;

// Where a comment begins.
const HASH: u8 = b'#';

// Neither blank nor the beginning of a comment.
fn is_solid(b: u8) -> bool
    ensures { result ≡ solid b }
{
    b != HASH && !is_blank(b)
}

// How many blanks stand in front. This and the next are a chain each: one for both would take the test and what it means besides.
fn blanks(bytes: &[u8]) -> usize
    ensures value { result ≡ prefix_len blank bytes.now }
    ensures within { result ≤ length bytes.now }
{
    bytes.iter().take_while(|b| is_blank(**b)).count()
}

// How many bytes of a word stand in front.
fn solids(bytes: &[u8]) -> usize
    ensures value { result ≡ prefix_len solid bytes.now }
    ensures within { result ≤ length bytes.now }
{
    bytes.iter().take_while(|b| is_solid(**b)).count()
}

// A word of a line: its place and its bytes.
#[derive(Drop)]
pub struct Word<'a> {
    start: usize,
    text: &'a [u8],
}

impl<'a> Model for Word<'a> {
    ghost use Rattle.std.specs.Prelude.{◌+◌, ◌<◌, ◌^◌, length};
    ghost use Rattle.plans.specs.Pieces.{Piece};

    ghost Value = { Piece };

    ghost view = { λ w. record { start = w.start; text = w.text.now } };

    ghost invariant = { λ w. w.start + length w.text.now < 2 ^ 64 };
}

impl<'a> Word<'a> {
    // Where the word stands.
    pub fn place(&self) -> crate::Word
        ensures { result ≡ place_of self.now }
    {
        let start = self.start;
        let end = start + self.text.len();
        crate::Word { start, end }
    }

    // What was read of the word's bytes, with a fault at its place in the line. How far a complaint may reach is said at each
    // call and not in its type, which knows no line.
    fn placed<T>(&self, read: Result<T, WordFault>) -> Result<T, Complaint>
        requires { ForErr read (λ f. f.offset ≤ length self.now.text) }
        ensures value { result ≡ placed self.now read }
        ensures within { IfErr result (Inside (end_of self.now)) }
    {
        let crate::Word { start, end } = self.place();
        // written out, here and in `add_to`: of a closure that captures a word whole nothing is inferred
        read.map_err(|fault| Complaint {
            start: start + fault.offset,
            end,
            why: Why::Misread(fault.expected),
        })
    }

    // The cell that the word names.
    pub fn cell(&self) -> Result<Cell, Complaint>
        ensures value { result ≡ cell_in self.now }
        ensures within { IfErr result (Inside (end_of self.now)) }
    {
        self.placed(Cell::try_from(self.text))
    }

    // Adds the channels that the word names; a refusal leaves the set.
    pub fn add_to(&self, set: &mut ChannelSet) -> Result<(), Complaint>
        ensures value { Taken (add_in set.old self.now) result set.new }
        ensures stands { IfErr result (λ _. set.new ≡ set.old) }
        ensures within { IfErr result (Inside (end_of self.now)) }
    {
        let span = self.placed(Span::try_from(self.text))?;
        let crate::Word { start, end } = self.place();
        add_span(set, span).map_err(|fault| Complaint {
            start,
            end,
            why: Why::Refused(fault),
        })
    }
}

// Adds the channels of a range. The highest goes first, so that a refusal leaves the set.
fn add_span(set: &mut ChannelSet, span: Span) -> Result<(), SetFault>
    requires { span.low ≤ span.high }
    ensures { Changed span.high result set.old (with_span set.old span) set.new }
{
    let low = span.low;
    let high = span.high;
    set.add(high)?;
    for c in low..high {
        // none of these is over 1023
        let _ = set.add(c);
    }
    Ok(())
}

// The words of a line that are still to come, up to a comment or the end.
#[derive(Drop)]
pub struct Words<'a> {
    line: &'a [u8],
    at: usize,
}

impl<'a> Model for Words<'a> {
    ghost use Rattle.std.specs.Prelude.{◌≤◌, length, List};
    ghost use Rattle.plans.specs.Pieces.{Piece};
    ghost use Rattle.plans.specs.Words.{words_after};

    ghost Value = { List Piece };

    ghost view = { λ w. words_after w.line.now w.at };

    ghost invariant = { λ w. w.at ≤ length w.line.now };
}

impl<'a> Words<'a> {
    pub fn new(line: &'a [u8]) -> Words<'a>
        ensures { result ≡ words_of line.now }
    {
        Words { line, at: 0 }
    }
}

impl<'a> Iterator for Words<'a> {
    type Item = Word<'a>;

    ghost next_gives = { YieldsFirst (λ left. left) };

    ghost remaining = { item_count (λ left. left) };

    fn next(&mut self) -> Option<Word<'a>> {
        let line = self.line;
        let start = self.at + blanks(&line[self.at..]);
        let end = start + solids(&line[start..]);
        if end == start {
            return None;
        }
        self.at = end;
        Some(Word {
            start,
            text: &line[start..end],
        })
    }
}
