// Refusals and expectations in words.
ghost use Rattle.std.specs.Prelude.{◌≡◌, ℕ, ◌++◌, Some, codes};
ghost use Rattle.notation.specs.Told.{name_of, sentence_of, expected_text, told_text};

use crate::Expected;
use faults::{Layer, Refusal};
use std::fmt;

// The name of a layer. No `Display`: crate faults, which alone could give it one, knows no text.
pub fn layer_name(layer: Layer) -> &'static str
    ensures { result.now ≡ name_of layer }
{
    match layer {
        Layer::Set => "set",
        Layer::Format => "format",
        Layer::Pile => "pile",
        Layer::Record => "record",
        Layer::Volume => "volume",
    }
}

// What a refusal's number says. It takes a number, since that is what a refusal tells and what people read.
#[tactic(auto, unfolding(crate::specs::Told::sentence_of))]
pub fn sentence(number: u8) -> &'static str
    ensures { result.now ≡ sentence_of number }
{
    match number {
        1 => "a channel or a shift is over 1023",
        2 => "the format has no contents of this length",
        3 => "no pile claims the first octet",
        4 => "the number at this place is null, and a later one is not",
        5 => "two piles beside one another both claim the first octet of this place",
        6 => "the channel of this place is outside the licence",
        7 => "the pile has no octets of this length for these channels",
        _ => "no refusal has this number",
    }
}

// What should have stood in a word.
#[tactic(auto, unfolding(crate::specs::Told::expected_text))]
pub fn expected_words(expected: Expected) -> &'static str
    ensures { result.now ≡ expected_text expected }
{
    match expected {
        Expected::Digit => "a digit",
        Expected::DigitOrEnd => "a digit or the end of the word",
        Expected::DigitOrDash => "a digit, a dash or the end of the word",
        Expected::NotBelow => "a number not below the one before the dash",
        Expected::HexDigit => "a hexadecimal digit",
        Expected::Colon => "a colon",
        Expected::End => "the end of the word",
        Expected::LiveArea => "an area code other than 0000 and FFFE, which mark a deleted area",
    }
}

impl fmt::Display for Expected {
    ghost output = { λ e. Some (expected_text e) };

    fn fmt<W: fmt::Write>(&self, f: &mut fmt::Formatter<W>) -> fmt::Result {
        f.write_str(expected_words(*self))
    }
}

// A refusal as it is told: number, layer, place, and what the number says.
#[derive(Clone, Copy)]
pub struct Told(pub Refusal);

impl fmt::Display for Told {
    ghost output = { λ t. Some (told_text t.0) };

    fn fmt<W: fmt::Write>(&self, f: &mut fmt::Formatter<W>) -> fmt::Result {
        let number = self.0.number;
        let layer = layer_name(self.0.layer);
        let place = self.0.place;
        let words = sentence(number);
        write!(f, "number {number}, layer {layer}, place {place}: {words}")
    }
}
