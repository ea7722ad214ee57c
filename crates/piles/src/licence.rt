ghost use Rattle.std.specs.Prelude.{◌≡◌, Ok};
ghost use Rattle.channels.specs.Sets.{first_outside};
ghost use Rattle.piles.specs.Combined.{licence_of, within};
ghost use Rattle.piles.specs.Combine.{licence_keeps};

use crate::Pile;
use channels::ChannelSet;
use claims::Claims;
use faults::PileFault;

// A pile held to the channels of a set.
#[derive(Drop)]
pub struct Licence<P> {
    pub allowed: ChannelSet,
    pub pile: P,
}

impl<P> Licence<P> {
    // Refuses a set for its lowest channel outside the licence.
    fn admit(&self, set: &ChannelSet) -> Result<(), PileFault>
        ensures { result ≡ within (first_outside set.now self.now.allowed) (Ok tt) }
    {
        match set.lowest_outside(&self.allowed) {
            Some(c) => Err(PileFault::OutsideLicence(c)),
            None => Ok(()),
        }
    }
}

impl<P: Pile> Pile for Licence<P> {
    ghost meaning = { λ p. licence_of p.allowed (P.meaning p.pile) };

    ghost lawful = { λ p. licence_keeps p.allowed (P.meaning p.pile) (P.lawful p.pile) };

    fn claims(&self) -> Claims {
        self.pile.claims()
    }

    fn read(&self, contents: &[u8], set: &mut ChannelSet) -> Result<(), PileFault> {
        let mut got = ChannelSet::new();
        self.pile.read(contents, &mut got)?;
        self.admit(&got)?;
        *set = got;
        Ok(())
    }

    fn write(&self, set: &ChannelSet, len: usize, out: &mut [u8; 130]) -> Result<(), PileFault> {
        self.admit(set)?;
        self.pile.write(set, len, out)
    }
}
