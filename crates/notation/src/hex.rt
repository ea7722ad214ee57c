// Hexadecimal digits and octets, read and written.
ghost use Rattle.std.specs.Prelude.{◌≡◌, ℕ, ◌+◌, ◌*◌, ◌<◌, ◌≤◌, [], ◌∷◌, ◌++◌, length, IfOk, IfErr, Some, string_bytes, OnOk, slice_index};
ghost use Rattle.std.proofs.Math.Utf8.{encode};
ghost use Rattle.notation.specs.Codes.{hex_of, hex_at};
ghost use Rattle.notation.specs.declared.hex.HexFault.TheVariants.{Word as Misread, Memory as NoRoom};
ghost use Rattle.notation.specs.Octets.{blank, pair_at, octets_of, OctetLaws};
ghost use Rattle.notation.specs.Hex.{Read};
ghost use Rattle.notation.specs.Texts.{hex_char, code_text, cell_text, octet_text, hex_text};

use crate::{Cell, Expected, WordFault};
use std::alloc::{AllocError, AllocFailed, Global};
use std::fmt;

const SPACE: u8 = b' ';

const TAB: u8 = b'\t';

// What a hexadecimal digit of either case stands for.
fn digit(b: u8) -> Option<u32>
    ensures { result ≡ hex_of b }
{
    char::from(b).to_digit(16)
}

// The hexadecimal digit at a place of a word.
pub(crate) fn digit_at(word: &[u8], i: usize) -> Result<u16, WordFault>
    ensures value { result ≡ hex_at word.now i }
    ensures small { IfOk result (λ d. d < 16) }
    ensures within { OnOk result (i < length word.now) }
    ensures place { IfErr result (λ f. f.offset ≡ i) }
{
    let d = word.get(i).copied().and_then(digit);
    d.map(|d| d as u16).ok_or(Expected::HexDigit.at(i))
}

// A cell is written as it is read.
impl fmt::Display for Cell {
    ghost output = { λ c. Some (cell_text c) };

    fn fmt<W: fmt::Write>(&self, f: &mut fmt::Formatter<W>) -> fmt::Result {
        let lac = self.lac;
        let ci = self.ci;
        write!(f, "{lac:04X}:{ci:04X}")
    }
}

// An octet in two upper-case digits.
#[derive(Clone, Copy)]
struct Octet(u8);

impl fmt::Display for Octet {
    ghost output = { λ o. Some (octet_text o.0) };

    fn fmt<W: fmt::Write>(&self, f: &mut fmt::Formatter<W>) -> fmt::Result {
        let o = self.0;
        write!(f, "{o:02X}")
    }
}

// Octets as text, with a blank between two. Ranges of channels are written so too, each on its own: an octet is printed by a wrapper, and
// one form for both would take a slice of wrappers.
#[derive(Clone, Copy)]
pub struct Hex<'a>(pub &'a [u8]);

impl fmt::Display for Hex<'_> {
    ghost output = { λ h. Some (hex_text h.0.now) };

    fn fmt<W: fmt::Write>(&self, f: &mut fmt::Formatter<W>) -> fmt::Result {
        let Some((first, others)) = self.0.split_first() else {
            return Ok(());
        };
        let first = Octet(*first);
        write!(f, "{first}")?;
        for o in others {
            let o = Octet(*o);
            write!(f, " {o}")?;
        }
        Ok(())
    }
}

// The number of the digit A.
const TEN: u8 = 10;

// The upper-case digit of a number below 16.
fn hex_char(d: u8) -> char
    requires { d < 16 }
    ensures value { result ≡ hex_char d }
    ensures spelt { encode result ≡ hex_char d ∷ [] }
{
    if d < TEN {
        (b'0' + d) as char
    } else {
        (b'A' + (d - TEN)) as char
    }
}

// Puts the two digits of an octet behind a text.
fn push_octet(text: &mut String, o: u8) -> Result<(), AllocError>
    ensures { OnOk result (string_bytes text.new ≡ string_bytes text.old ++ octet_text o) }
{
    text.push(hex_char(o / 16))?;
    text.push(hex_char(o % 16))?;
    Ok(())
}

// Octets as a text of their own: what `Hex` prints. Put there digit by digit, since an octet that goes through a formatter costs some
// four times as much.
pub fn write(heap: Global, octets: &[u8]) -> Result<String, AllocError>
    ensures { IfOk result (λ s. string_bytes s ≡ hex_text octets.now) }
{
    let mut text = String::new(heap);
    let Some((first, others)) = octets.split_first() else {
        return Ok(text);
    };
    push_octet(&mut text, *first)?;
    for o in others {
        text.push(' ')?;
        push_octet(&mut text, *o)?;
    }
    Ok(text)
}

// Why a text gives no octets.
#[derive(Clone, Copy, Debug, PartialEq, Eq)]
pub enum HexFault {
    Word(WordFault),
    Memory,
}

impl From<WordFault> for HexFault {
    ghost from_gives = { λ f r. r ≡ Misread f };

    fn from(fault: WordFault) -> HexFault {
        HexFault::Word(fault)
    }
}

impl<T: Drop> From<AllocFailed<T>> for HexFault {
    ghost from_gives = { λ _ r. r ≡ NoRoom };

    fn from(_refused: AllocFailed<T>) -> HexFault {
        HexFault::Memory
    }
}

// A space or a tab.
pub fn is_blank(b: u8) -> bool
    ensures { result ≡ blank b }
{
    b == SPACE || b == TAB
}

// The octet of the two digits from a place on.
fn octet_at(text: &[u8], i: usize) -> Result<u8, WordFault>
    requires { i < length text.now }
    ensures value { result ≡ pair_at i (slice_index text.now i) (slice_index text.now (i + 1)) }
    ensures whole { OnOk result (i + 1 < length text.now) }
{
    let high = digit_at(text, i)?;
    let low = digit_at(text, i + 1)?;
    Ok((high * 16 + low) as u8)
}

// Reads octets of two digits each, with or without blanks before, between and behind them.
#[tactic(auto, using(crate::proofs::OctetsBack::octet_laws))]
pub fn read(heap: Global, text: &[u8]) -> Result<Vec<u8>, HexFault>
    ensures value { Read (octets_of text.now) result }
    ensures laws { OctetLaws }
{
    let mut octets = Vec::new(heap);
    let mut rest = text;
    while let Some((first, behind)) = rest.split_first() {
        if is_blank(*first) {
            rest = behind;
        } else {
            octets.push(octet_at(text, text.len() - rest.len())?)?;
            rest = &behind[1..];
        }
    }
    Ok(octets)
}
