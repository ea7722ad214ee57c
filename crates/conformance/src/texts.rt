// Answers as text.
ghost use Rattle.std.specs.Prelude.{◌≡◌, ◌++◌, ◌∷◌, IfOk, MatchOption, string_bytes, codes, decimal, if◌then◌else◌};
ghost use Rattle.notation.specs.Told.{name_of};

use channels::ChannelSet;
use claims::Claims;
use faults::{Fault, Refusal};
use notation::hex;
use notation::told::layer_name;
use std::alloc::{AllocError, Global};
use std::fmt;

// The word for no channels and for no octets.
pub const NONE: &str = "-";

// Channels with a blank between two, each on its own: `Ranges` of crate notation prints neighbours as one.
#[derive(Clone, Copy)]
struct Spaced<'a>(&'a [u16]);

impl fmt::Display for Spaced<'_> {
    fn fmt<W: fmt::Write>(&self, f: &mut fmt::Formatter<W>) -> fmt::Result {
        let Some((first, others)) = self.0.split_first() else {
            return Ok(());
        };
        write!(f, "{first}")?;
        for c in others {
            write!(f, " {c}")?;
        }
        Ok(())
    }
}

pub fn channels(heap: Global, set: &ChannelSet) -> Result<String, AllocError> {
    let mut channels = [0; 1024];
    let count = set.members(&mut channels);
    if count == 0 {
        return String::from_str(heap, NONE);
    }
    Spaced(&channels[0..count]).to_string(heap)
}

// Two digits for each octet.
pub fn octets(heap: Global, octets: &[u8]) -> Result<String, AllocError> {
    if octets.is_empty() {
        return String::from_str(heap, NONE);
    }
    hex::write(heap, octets)?.as_str().replace(heap, ' ', "")
}

// All octets claimed, rising.
pub fn claimed(heap: Global, claims: &Claims) -> Result<String, AllocError> {
    let firsts: Vec<u8> = (0..=255u8).filter(|o| claims.has(*o)).collect(heap)?;
    octets(heap, firsts.as_slice())
}

fn refusal(heap: Global, refusal: Refusal) -> Result<String, AllocError>
    ensures { IfOk result (λ t. string_bytes t ≡ codes "refused " ++ (decimal refusal.number ++ (codes " " ++ (name_of refusal.layer ++ (codes " " ++ decimal refusal.place))))) }
{
    let number = refusal.number;
    let layer = layer_name(refusal.layer);
    let place = refusal.place;
    format!(in heap; "refused {number} {layer} {place}")
}

pub fn refused<F: Fault>(heap: Global, fault: &F) -> Result<String, AllocError> {
    refusal(heap, fault.refusal())
}

// The channels of a set after a change, or why there is none.
pub fn changed<E: Fault + Drop, F: FnOnce(&mut ChannelSet) -> Result<(), E>>(
    heap: Global,
    mut set: ChannelSet,
    change: F,
) -> Result<String, AllocError>
    requires { F.IsAlwaysCallable change }
{
    match change(&mut set) {
        Ok(()) => channels(heap, &set),
        Err(fault) => refused(heap, &fault),
    }
}

pub fn truth(heap: Global, yes: bool) -> Result<String, AllocError>
    ensures { IfOk result (λ t. string_bytes t ≡ (if yes then codes "yes" else codes "no")) }
{
    String::from_str(heap, if yes { "yes" } else { "no" })
}

pub fn next(heap: Global, channel: Option<u16>) -> Result<String, AllocError>
    ensures { IfOk result (λ t. MatchOption channel (string_bytes t ≡ codes "none") (λ c. string_bytes t ≡ decimal c)) }
{
    match channel {
        Some(c) => c.to_string(heap),
        None => String::from_str(heap, "none"),
    }
}

pub fn count(heap: Global, n: usize) -> Result<String, AllocError>
    ensures { IfOk result (λ t. string_bytes t ≡ decimal n) }
{
    n.to_string(heap)
}
