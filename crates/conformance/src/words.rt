// The words of a call: numbers, channels and octets.
ghost use Rattle.std.specs.Prelude.{◌≡◌, Ok, IfOk};
ghost use Rattle.notation.specs.Numbers.{number_of};

use crate::texts::NONE;
use channels::ChannelSet;
use faults::SetFault;
use notation::hex::HexFault;
use notation::{Span, WordFault, hex, words};
use std::alloc::{AllocError, Global};
use std::num::ParseIntError;

// Why a call is not answered: it is none, or no memory is left.
#[derive(Clone, Copy, PartialEq, Eq, Debug)]
pub enum Unread {
    Call,
    Memory,
}

impl From<AllocError> for Unread {
    fn from(_fault: AllocError) -> Unread {
        Unread::Memory
    }
}

impl From<ParseIntError> for Unread {
    fn from(_fault: ParseIntError) -> Unread {
        Unread::Call
    }
}

impl From<WordFault> for Unread {
    fn from(_fault: WordFault) -> Unread {
        Unread::Call
    }
}

impl From<SetFault> for Unread {
    fn from(_fault: SetFault) -> Unread {
        Unread::Call
    }
}

impl From<HexFault> for Unread {
    fn from(fault: HexFault) -> Unread {
        match fault {
            HexFault::Word(_) => Unread::Call,
            HexFault::Memory => Unread::Memory,
        }
    }
}

// Cuts a text in two at the first place where a mark stands.
pub fn cut<'a>(text: &'a str, mark: &str) -> Result<(&'a str, &'a str), Unread> {
    text.split_once(mark).ok_or(Unread::Call)
}

// A number: all above 65535 are one, since none of them is a channel.
pub fn number(word: &str) -> Result<u16, Unread>
    ensures { IfOk result (λ n. number_of word.now ≡ Ok n) }
{
    Ok(words::number(word.as_bytes())?)
}

// A count of octets.
pub fn length(word: &str) -> Result<usize, Unread> {
    // digits alone: `parse` would take a sign
    number(word)?;
    Ok(word.parse()?)
}

// What a list is read as: nothing for the word `-`, and else what a closure makes of its items.
fn listed<T: Drop, F: FnOnce(&str) -> Result<T, Unread> + Drop>(
    text: &str,
    nothing: T,
    items: F,
) -> Result<T, Unread>
    requires { F.IsAlwaysCallable items }
{
    if text == NONE {
        Ok(nothing)
    } else {
        items(text)
    }
}

fn blank_separated(text: &str) -> Result<ChannelSet, Unread> {
    if text.trim().is_empty() {
        return Err(Unread::Call);
    }
    let mut set = ChannelSet::new();
    // a `for`, since each turn has two `?`
    for word in text.split_whitespace() {
        set.add(number(word)?)?;
    }
    Ok(set)
}

// Channels with blanks between them.
pub fn channels(text: &str) -> Result<ChannelSet, Unread> {
    listed(text, ChannelSet::new(), blank_separated)
}

// Crate plans has its own, which leaves the set where it refuses; here a refused set is dropped.
fn add_span(set: &mut ChannelSet, span: Span) -> Result<(), SetFault> {
    (span.low..=span.high).try_for_each(|c| set.add(c))
}

fn plus_separated(text: &str) -> Result<ChannelSet, Unread> {
    let mut set = ChannelSet::new();
    // a `for`, since each turn has two `?`
    for word in text.split('+') {
        add_span(&mut set, Span::try_from(word.as_bytes())?)?;
    }
    Ok(set)
}

// Channels and ranges of them with a plus between two.
pub fn spans(text: &str) -> Result<ChannelSet, Unread> {
    listed(text, ChannelSet::new(), plus_separated)
}

// Octets of two hexadecimal digits each.
pub fn octets(heap: Global, word: &str) -> Result<Vec<u8>, Unread> {
    listed(
        word,
        Vec::new(heap),
        |digits| Ok(hex::read(heap, digits.as_bytes())?),
    )
}
