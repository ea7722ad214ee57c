// Words that are read: numbers, ranges and cells.
ghost use Rattle.std.specs.Prelude.{◌≡◌, ℕ, ◌+◌, ◌^◌, ◌<◌, ◌≤◌, length, IfOk, IfErr, OnOk};
ghost use Rattle.notation.specs.Numbers.{capped, digits, amount, number_of, high_of};
ghost use Rattle.notation.specs.Back.{NumberBack, CodeBack};
ghost use Rattle.notation.specs.Codes.{four_at, code_of};
ghost use Rattle.notation.specs.Reads.{ReadsSpan, ReadsCell};

use crate::hex::digit_at;
use crate::{Cell, Expected, Span, WordFault};

const DASH: u8 = b'-';

const COLON: u8 = b':';

// Where a code ends.
const CODE_END: usize = 4;

// Where the parts of a cell begin, and where it ends.
const COLON_AT: usize = 4;

const CI_AT: usize = 5;

const CELL_END: usize = 9;

// The area codes that mark a deleted area.
const UNUSED: u16 = 0x0000;

const REMOVED: u16 = 0xFFFE;

// A number with one more digit behind it; past the largest it stays there.
fn with_digit(n: u16, digit: u8) -> u16
    ensures { result ≡ capped n digit }
{
    // in 32 bits: two sums that saturate cost a third more a word
    let more = u32::from(n) * 10 + u32::from(digit.saturating_sub(b'0'));
    more.min(u32::from(u16::MAX)) as u16
}

// The number that the digits in front write, and how many they are.
fn scan(word: &[u8]) -> (u16, usize)
    ensures number { result.0 ≡ amount 0 word.now }
    ensures count { result.1 ≡ digits word.now }
    ensures within { result.1 ≤ length word.now }
{
    let mut n: u16 = 0;
    for (i, b) in word.iter().enumerate() {
        if !b.is_ascii_digit() {
            return (n, i);
        }
        n = with_digit(n, *b);
    }
    (n, word.len())
}

// A decimal number: digits and nothing else. All numbers above 65535 are read as 65535. A function, since a bare number is no
// type of ours that could have a conversion.
#[tactic(auto, using(crate::proofs::Backs::number_back))]
pub fn number(word: &[u8]) -> Result<u16, WordFault>
    ensures value { result ≡ number_of word.now }
    ensures within { IfErr result (λ f. f.offset ≤ length word.now) }
    ensures back { NumberBack }
{
    let (n, end) = scan(word);
    if end == 0 {
        Err(Expected::Digit.at(0))
    } else if end == word.len() {
        Ok(n)
    } else {
        Err(Expected::DigitOrEnd.at(end))
    }
}

// The range from `low` to the number that a part of a word writes; the part begins at the place `from`.
fn up_to(low: u16, from: usize, part: &[u8]) -> Result<Span, WordFault>
    requires { from + length part.now < 2 ^ 64 }
    ensures value { result ≡ high_of low from (number_of part.now) }
    ensures ordered { IfOk result (λ s. s.low ≤ s.high) }
    ensures within { IfErr result (λ f. f.offset ≤ from + length part.now) }
{
    let high = number(part).map_err(|f| f.expected.at(from + f.offset))?;
    if high < low {
        return Err(Expected::NotBelow.at(from));
    }
    Ok(Span { low, high })
}

// A channel, or a range LOW-HIGH of them.
#[tactic(auto, using(crate::proofs::Backs::range_back))]
impl TryFrom<&[u8]> for Span {
    type Error = WordFault;

    ghost try_from_gives = { λ word r. ReadsSpan word.now r };

    fn try_from(word: &[u8]) -> Result<Span, WordFault> {
        let (low, end) = scan(word);
        if end == 0 {
            return Err(Expected::Digit.at(0));
        }
        if end == word.len() {
            return Ok(Span { low, high: low });
        }
        if word[end] != DASH {
            return Err(Expected::DigitOrDash.at(end));
        }
        up_to(low, end + 1, &word[end + 1..])
    }
}

// The four hexadecimal digits from a place on. Four calls: the first that is no digit tells its own place.
fn four_at(word: &[u8], i: usize) -> Result<u16, WordFault>
    requires { i ≤ length word.now }
    ensures value { result ≡ four_at word.now i }
    ensures within { IfErr result (λ f. f.offset ≤ length word.now) }
    ensures long { OnOk result (i + 4 ≤ length word.now) }
{
    let a = digit_at(word, i)?;
    let b = digit_at(word, i + 1)?;
    let c = digit_at(word, i + 2)?;
    let d = digit_at(word, i + 3)?;
    Ok(((a * 16 + b) * 16 + c) * 16 + d)
}

// A code of four hexadecimal digits; a function as `number` is.
#[tactic(auto, using(crate::proofs::Backs::code_back))]
pub fn code(word: &[u8]) -> Result<u16, WordFault>
    ensures value { result ≡ code_of word.now }
    ensures within { IfErr result (λ f. f.offset ≤ length word.now) }
    ensures back { CodeBack }
{
    let n = four_at(word, 0)?;
    if word.len() == CODE_END {
        Ok(n)
    } else {
        Err(Expected::End.at(CODE_END))
    }
}

// A cell: its area code, a colon, its identity.
#[tactic(auto, using(crate::proofs::Backs::cell_back))]
impl TryFrom<&[u8]> for Cell {
    type Error = WordFault;

    ghost try_from_gives = { λ word r. ReadsCell word.now r };

    fn try_from(word: &[u8]) -> Result<Cell, WordFault> {
        let lac = four_at(word, 0)?;
        let Some(COLON) = word.get(COLON_AT).copied() else {
            return Err(Expected::Colon.at(COLON_AT));
        };
        let ci = four_at(word, CI_AT)?;
        if word.len() != CELL_END {
            return Err(Expected::End.at(CELL_END));
        }
        if lac == UNUSED || lac == REMOVED {
            return Err(Expected::LiveArea.at(0));
        }
        Ok(Cell { lac, ci })
    }
}
