// Calls as they are read.
use crate::nest::{Nest, licensed};
use crate::plain::Plain;
use crate::words::{Unread, channels, cut, length, number, octets};
use channels::ChannelSet;
use packing::Range;
use piles::licence::Licence;
use std::alloc::Global;
use std::str::FromStr;

// What a set is asked or told.
#[derive(Clone, Copy, PartialEq, Eq, Debug)]
pub enum SetCall {
    Add(u16),
    Remove(u16),
    Shift(u16),
    Holds(u16),
    Next(u16),
    Size,
}

// Plain piles, in which up to two of the words beside and licence stand around one another. A type that contains itself by a `Box`
// would have no such bound, and would do again what `Beside` and `Licence` do, since these hold their parts by value.
pub type Shape = Nest<Nest<Plain>>;

// A pile by its name, held to a licence or not.
pub type Named = Nest<Shape>;

// What a pile is asked.
#[derive(PartialEq, Eq, Debug, Drop)]
pub enum PileCall {
    Claims,
    Read(Vec<u8>),
    Write(usize, ChannelSet),
}

#[derive(Drop)]
pub enum Call {
    Set(SetCall, ChannelSet),
    Slots(Range, usize),
    Pile(Named, PileCall),
}

impl FromStr for SetCall {
    type Err = Unread;

    fn from_str(text: &str) -> Result<SetCall, Unread> {
        if text == "size" {
            return Ok(SetCall::Size);
        }
        let (word, n) = cut(text, " ")?;
        let n = number(n)?;
        match word {
            "add" => Ok(SetCall::Add(n)),
            "remove" => Ok(SetCall::Remove(n)),
            "shift" => Ok(SetCall::Shift(n)),
            "holds" => Ok(SetCall::Holds(n)),
            "next" => Ok(SetCall::Next(n)),
            _ => Err(Unread::Call),
        }
    }
}

fn set(text: &str) -> Result<Call, Unread> {
    let (call, of) = cut(text, " of ")?;
    Ok(Call::Set(call.parse()?, channels(of)?))
}

// A range by the width of its first number. No `FromStr`: these words are this program's, and crate packing, which alone could give it one,
// knows no text.
fn range(width: &str) -> Result<Range, Unread> {
    match width {
        "10" => Ok(Range::R1024),
        "9" => Ok(Range::R512),
        "8" => Ok(Range::R256),
        "7" => Ok(Range::R128),
        _ => Err(Unread::Call),
    }
}

fn slots(text: &str) -> Result<Call, Unread> {
    let (width, len) = cut(text, " ")?;
    Ok(Call::Slots(range(width)?, length(len)?))
}

// Plain piles and two beside one another are answered, and some in which three are nested; what else can be read is no call of this program.
fn is_answered(shape: &Shape) -> bool {
    let Nest::Beside(pair) = shape else {
        return matches!(shape, Nest::Alone(Nest::Alone(_)));
    };
    match (&pair.first, &pair.second) {
        (Nest::Alone(_), Nest::Alone(_)) => true,
        (Nest::Beside(two), Nest::Alone(_)) => {
            matches!(two.first, Plain::Range128(_)) && matches!(two.second, Plain::Standard(_))
        }
        (Nest::Licence(held), Nest::Alone(_)) => matches!(held.pile, Plain::Variable(_)),
        (Nest::Alone(Plain::Variable(_)), Nest::Beside(two)) => {
            matches!(two.first, Plain::Standard(_)) && matches!(two.second, Plain::Range512(_))
        }
        _ => false,
    }
}

fn shape(text: &str) -> Result<Shape, Unread> {
    let shape = text.parse()?;
    if is_answered(&shape) {
        Ok(shape)
    } else {
        Err(Unread::Call)
    }
}

fn named(text: &str) -> Result<Named, Unread> {
    match licensed(text)? {
        Some((allowed, pile)) => {
            let pile = shape(pile)?;
            Ok(Nest::Licence(Licence { allowed, pile }))
        }
        None => Ok(Nest::Alone(shape(text)?)),
    }
}

fn claims(text: &str) -> Result<Call, Unread> {
    Ok(Call::Pile(named(text)?, PileCall::Claims))
}

fn read(heap: Global, text: &str) -> Result<Call, Unread> {
    let (pile, contents) = cut(text, " ")?;
    Ok(Call::Pile(named(pile)?, PileCall::Read(octets(heap, contents)?)))
}

fn write(text: &str) -> Result<Call, Unread> {
    let (pile, rest) = cut(text, " ")?;
    let (len, set) = cut(rest, " ")?;
    Ok(Call::Pile(named(pile)?, PileCall::Write(length(len)?, channels(set)?)))
}

pub fn parse(heap: Global, text: &str) -> Result<Call, Unread> {
    let (word, rest) = cut(text, " ")?;
    match word {
        "set" => set(rest),
        "slots" => slots(rest),
        "claims" => claims(rest),
        "read" => read(heap, rest),
        "write" => write(rest),
        _ => Err(Unread::Call),
    }
}
