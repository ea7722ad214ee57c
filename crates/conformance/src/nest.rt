// Piles made of others, read from names as beside(licence(1-100+124,bitmap0),mute).
ghost use Rattle.piles.specs.Combined.{beside_of, licence_of};
ghost use Rattle.piles.specs.Combine.{beside_keeps, licence_keeps};
ghost use Rattle.conformance.specs.declared.nest.Nest.TheVariants as nest;

use crate::words::{Unread, cut, spans};
use channels::ChannelSet;
use claims::Claims;
use faults::PileFault;
use piles::Pile;
use piles::beside::Beside;
use piles::licence::Licence;
use std::str::FromStr;

// A pile alone, two beside one another, or one held to a licence: one step of a name, which a nest of nests takes several of.
#[derive(Drop)]
pub enum Nest<P> {
    Alone(P),
    Beside(Beside<P, P>),
    Licence(Licence<P>),
}

// What stands between an opening word and the bracket at the end.
fn inside<'a>(text: &'a str, open: &str) -> Option<&'a str> {
    text.strip_prefix(open)?.strip_suffix(')')
}

// The two parts of a text, cut at the first comma that stands in no brackets.
fn halves(text: &str) -> Result<(&str, &str), Unread> {
    let mut brackets = 0u32;
    let outer_comma = |c: char| {
        match c {
            '(' => brackets = brackets.saturating_add(1),
            ')' => brackets = brackets.saturating_sub(1),
            _ => {}
        }
        c == ',' && brackets == 0
    };
    text.split_once(outer_comma).ok_or(Unread::Call)
}

// The channels of a licence and the name of what is held to it, where a name begins so.
pub fn licensed(text: &str) -> Result<Option<(ChannelSet, &str)>, Unread> {
    let Some(parts) = inside(text, "licence(") else {
        return Ok(None);
    };
    let (channels, pile) = cut(parts, ",")?;
    Ok(Some((spans(channels)?, pile)))
}

impl<P: FromStr<Err = Unread> + Drop> FromStr for Nest<P> {
    type Err = Unread;

    fn from_str(text: &str) -> Result<Nest<P>, Unread> {
        if let Some(parts) = inside(text, "beside(") {
            let (first, second) = halves(parts)?;
            let first = first.parse()?;
            let second = second.parse()?;
            return Ok(Nest::Beside(Beside { first, second }));
        }
        if let Some((allowed, pile)) = licensed(text)? {
            let pile = pile.parse()?;
            return Ok(Nest::Licence(Licence { allowed, pile }));
        }
        Ok(Nest::Alone(text.parse()?))
    }
}

impl<P: Pile> Pile for Nest<P> {
    ghost meaning = { elim [
      | nest.Alone p ↦ P.meaning p
      | nest.Beside p ↦ beside_of (P.meaning p.first) (P.meaning p.second)
      | nest.Licence p ↦ licence_of p.allowed (P.meaning p.pile)
    ] };

    ghost lawful = { elim [
      | nest.Alone p ↦ P.lawful p
      | nest.Beside p ↦ beside_keeps _ _ (P.lawful p.first) (P.lawful p.second)
      | nest.Licence p ↦ licence_keeps p.allowed _ (P.lawful p.pile)
    ] };

    fn claims(&self) -> Claims {
        match self {
            Nest::Alone(pile) => pile.claims(),
            Nest::Beside(pile) => pile.claims(),
            Nest::Licence(pile) => pile.claims(),
        }
    }

    fn read(&self, contents: &[u8], set: &mut ChannelSet) -> Result<(), PileFault> {
        match self {
            Nest::Alone(pile) => pile.read(contents, set),
            Nest::Beside(pile) => pile.read(contents, set),
            Nest::Licence(pile) => pile.read(contents, set),
        }
    }

    fn write(&self, set: &ChannelSet, len: usize, out: &mut [u8; 130]) -> Result<(), PileFault> {
        match self {
            Nest::Alone(pile) => pile.write(set, len, out),
            Nest::Beside(pile) => pile.write(set, len, out),
            Nest::Licence(pile) => pile.write(set, len, out),
        }
    }
}
