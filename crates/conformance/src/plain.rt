// The piles that have a name of one word.
ghost use Rattle.formats.specs.BitMap0.{bit_map0};
ghost use Rattle.formats.specs.Variable.{variable};
ghost use Rattle.piles.specs.Faithful.{format_lawful};
ghost use Rattle.formats.specs.MapLaws.{map_faithful};
ghost use Rattle.formats.specs.VariableLaws.{variable_faithful};
ghost use Rattle.packing.specs.declared.Range.TheVariants.{R1024, R512, R256, R128};
ghost use Rattle.ranges.specs.RangeLaws.{range_lawful};
ghost use Rattle.mute.specs.Lawful.{mute_lawful};
ghost use Rattle.conformance.specs.Standard.{standard_lawful};
ghost use Rattle.conformance.specs.declared.plain.Plain.TheVariants as plain;

use crate::words::Unread;
use channels::ChannelSet;
use claims::Claims;
use faults::PileFault;
use formats::bitmap0::BitMap0;
use formats::variable::Variable;
use mute::Mute;
use piles::Pile;
use ranges::{Range128, Range256, Range512, Range1024};
use standard::{Standard, standard};
use std::str::FromStr;

// One of these piles, which is a pile as that one is.
#[derive(Drop)]
pub enum Plain {
    Standard(Standard),
    BitMap0(BitMap0),
    Variable(Variable),
    Range128(Range128),
    Range256(Range256),
    Range512(Range512),
    Range1024(Range1024),
    Mute(Mute),
}

impl FromStr for Plain {
    type Err = Unread;

    fn from_str(word: &str) -> Result<Plain, Unread> {
        match word {
            "standard" => Ok(Plain::Standard(standard())),
            "bitmap0" => Ok(Plain::BitMap0(BitMap0 {})),
            "variable" => Ok(Plain::Variable(Variable {})),
            "range128" => Ok(Plain::Range128(Range128 {})),
            "range256" => Ok(Plain::Range256(Range256 {})),
            "range512" => Ok(Plain::Range512(Range512 {})),
            "range1024" => Ok(Plain::Range1024(Range1024 {})),
            "mute" => Ok(Plain::Mute(Mute {})),
            _ => Err(Unread::Call),
        }
    }
}

impl Pile for Plain {
    ghost meaning = { elim [
      | plain.Standard p ↦ ⟦<Standard as Pile>⟧.meaning p
      | plain.BitMap0 p ↦ ⟦<BitMap0 as Pile>⟧.meaning p
      | plain.Variable p ↦ ⟦<Variable as Pile>⟧.meaning p
      | plain.Range128 p ↦ ⟦<Range128 as Pile>⟧.meaning p
      | plain.Range256 p ↦ ⟦<Range256 as Pile>⟧.meaning p
      | plain.Range512 p ↦ ⟦<Range512 as Pile>⟧.meaning p
      | plain.Range1024 p ↦ ⟦<Range1024 as Pile>⟧.meaning p
      | plain.Mute p ↦ ⟦<Mute as Pile>⟧.meaning p
    ] };

    ghost lawful = { elim [
      | plain.Standard p ↦ standard_lawful
      | plain.BitMap0 p ↦ format_lawful bit_map0 map_faithful
      | plain.Variable p ↦ format_lawful variable variable_faithful
      | plain.Range128 p ↦ range_lawful R128
      | plain.Range256 p ↦ range_lawful R256
      | plain.Range512 p ↦ range_lawful R512
      | plain.Range1024 p ↦ range_lawful R1024
      | plain.Mute p ↦ mute_lawful
    ] };

    // a match for each call: one for all would have to be handed a closure that is generic in the pile
    fn claims(&self) -> Claims {
        match self {
            Plain::Standard(pile) => pile.claims(),
            Plain::BitMap0(pile) => pile.claims(),
            Plain::Variable(pile) => pile.claims(),
            Plain::Range128(pile) => pile.claims(),
            Plain::Range256(pile) => pile.claims(),
            Plain::Range512(pile) => pile.claims(),
            Plain::Range1024(pile) => pile.claims(),
            Plain::Mute(pile) => pile.claims(),
        }
    }

    fn read(&self, contents: &[u8], set: &mut ChannelSet) -> Result<(), PileFault> {
        match self {
            Plain::Standard(pile) => pile.read(contents, set),
            Plain::BitMap0(pile) => pile.read(contents, set),
            Plain::Variable(pile) => pile.read(contents, set),
            Plain::Range128(pile) => pile.read(contents, set),
            Plain::Range256(pile) => pile.read(contents, set),
            Plain::Range512(pile) => pile.read(contents, set),
            Plain::Range1024(pile) => pile.read(contents, set),
            Plain::Mute(pile) => pile.read(contents, set),
        }
    }

    fn write(&self, set: &ChannelSet, len: usize, out: &mut [u8; 130]) -> Result<(), PileFault> {
        match self {
            Plain::Standard(pile) => pile.write(set, len, out),
            Plain::BitMap0(pile) => pile.write(set, len, out),
            Plain::Variable(pile) => pile.write(set, len, out),
            Plain::Range128(pile) => pile.write(set, len, out),
            Plain::Range256(pile) => pile.write(set, len, out),
            Plain::Range512(pile) => pile.write(set, len, out),
            Plain::Range1024(pile) => pile.write(set, len, out),
            Plain::Mute(pile) => pile.write(set, len, out),
        }
    }
}
