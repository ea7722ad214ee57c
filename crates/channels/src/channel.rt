// A channel (ARFCN): a number from 0 to 1023. A shift of channels round the 1024 is of the same numbers. The type is for this crate: its calls
// take and give plain numbers, as people have them.
ghost use Rattle.std.specs.Prelude.{◌≡◌, ◌<◌, MatchResult};
ghost use Rattle.faults.specs.declared.SetFault.TheVariants.{OverRange};

use faults::SetFault;

// How many channels there are.
pub const CHANNELS: u16 = 1024;

#[derive(Clone, Copy)]
pub struct Channel {
    pub number: u16,
    ghost within: { number < 1024 },
}

impl TryFrom<u16> for Channel {
    type Error = SetFault;

    ghost try_from_gives = { λ number r. MatchResult r (λ c. c.number ≡ number) (λ e. (1023 < number) × (e ≡ OverRange)) };

    fn try_from(number: u16) -> Result<Channel, SetFault> {
        if number < CHANNELS {
            Ok(Channel { number })
        } else {
            Err(SetFault::OverRange)
        }
    }
}
