ghost use Rattle.std.specs.Prelude.{◌≡◌, ℕ, ◌<◌, Some, None, Ok, Err, MatchResult};
ghost use Rattle.claims.specs.Views.{claims, shared};
ghost use Rattle.piles.specs.Combined.{beside_of};
ghost use Rattle.piles.specs.Combine.{beside_keeps};

use crate::{Pile, first_octet};
use channels::ChannelSet;
use claims::Claims;
use faults::PileFault;

// Two piles beside one another.
#[derive(Drop)]
pub struct Beside<A, B> {
    pub first: A,
    pub second: B,
}

impl<A: Pile, B: Pile> Beside<A, B> {
    // The lowest first octet that both claim.
    fn clash(&self) -> Option<u8>
        ensures { result ≡ shared (A.meaning self.now.first).claimed (B.meaning self.now.second).claimed }
    {
        let x = self.first.claims();
        let y = self.second.claims();
        x.common(&y)
    }

    // Refuses if both claim an octet.
    fn apart(&self) -> Result<(), PileFault>
        ensures { MatchResult result (λ _. shared (A.meaning self.now.first).claimed (B.meaning self.now.second).claimed ≡ None) (λ f. (o : ℕ) × ((shared (A.meaning self.now.first).claimed (B.meaning self.now.second).claimed ≡ Some o) × (f ≡ PileFault.SharedClaim o))) }
    {
        match self.clash() {
            Some(o) => Err(PileFault::SharedClaim(o)),
            None => Ok(()),
        }
    }

    // What either claims, unless they claim something in common.
    fn joint(&self) -> Claims
        ensures { (o : ℕ) → o < 256 → claims result o ≡ (beside_of (A.meaning self.now.first) (B.meaning self.now.second)).claimed o }
    {
        let x = self.first.claims();
        let y = self.second.claims();
        match x.common(&y) {
            Some(_) => Claims::none(),
            None => x.union(&y),
        }
    }
}

fn claims_one<P: Pile>(p: &P, o: u8) -> bool
    ensures { result ≡ (P.meaning p.now).claimed o }
{
    let c = p.claims();
    c.has(o)
}

impl<A: Pile, B: Pile> Pile for Beside<A, B> {
    ghost meaning = { λ p. beside_of (A.meaning p.first) (B.meaning p.second) };

    ghost lawful = { λ p. beside_keeps (A.meaning p.first) (B.meaning p.second) (A.lawful p.first) (B.lawful p.second) };

    fn claims(&self) -> Claims {
        self.joint()
    }

    fn read(&self, contents: &[u8], set: &mut ChannelSet) -> Result<(), PileFault> {
        self.apart()?;
        let first = first_octet(contents)?;
        if claims_one(&self.first, first) {
            return self.first.read(contents, set);
        }
        if claims_one(&self.second, first) {
            return self.second.read(contents, set);
        }
        Err(PileFault::Unclaimed)
    }

    fn write(&self, set: &ChannelSet, len: usize, out: &mut [u8; 130]) -> Result<(), PileFault> {
        self.apart()?;
        // with `or_else` the proof did not close: its closure takes the octets with it
        match self.first.write(set, len, out) {
            Ok(()) => Ok(()),
            Err(_) => self.second.write(set, len, out),
        }
    }
}
