ghost use Rattle.std.specs.Prelude.{◌≡◌, ◌+◌, ◌*◌, ◌<◌, MatchResult};
ghost use Rattle.piles.specs.Flagged.{plain, flag_number, flagged};

// Two marks in the first octet of a neighbour cells description; in every other list both are 0.
#[derive(Clone, Copy, PartialEq, Eq, Debug)]
pub struct Flags {
    // EXT-IND, bit 6: the list has a part of the neighbours only
    pub extension: bool,
    // BA-IND, bit 5: which of two lists of neighbours it goes with
    pub allocation: bool,
}

// An octet with its bits 6 and 5 put to a number.
fn with_bits(octet: u8, number: u8) -> u8
    requires { number < 4 }
    ensures { result ≡ plain octet + 16 * number }
{
    (octet & 0xCF) | (number << 4)
}

// A number that stands for no flags: one over 3.
#[derive(Clone, Copy, PartialEq, Eq, Debug)]
pub struct NoFlags(pub u8);

// The flags of a number from 0 to 3, EXT-IND being the higher bit.
impl TryFrom<u8> for Flags {
    type Error = NoFlags;

    ghost try_from_gives = { λ n r. MatchResult r (λ f. flag_number f ≡ n) (λ e. (3 < n) × (e.0 ≡ n)) };

    fn try_from(number: u8) -> Result<Flags, NoFlags> {
        match number {
            0..=3 => Ok(Flags {
                extension: number >= 2,
                allocation: number % 2 == 1,
            }),
            _ => Err(NoFlags(number)),
        }
    }
}

impl From<Flags> for u8 {
    ghost from_gives = { λ f n. n ≡ flag_number f };

    fn from(flags: Flags) -> u8 {
        2 * flags.extension as u8 + flags.allocation as u8
    }
}

impl Flags {
    // An octet with its bits 6 and 5 put to these flags, whatever they were.
    pub fn put_into(&self, octet: u8) -> u8
        ensures { result ≡ flagged self.now octet }
    {
        with_bits(octet, u8::from(*self))
    }
}
