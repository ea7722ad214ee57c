// One line of a plan: a cell and its channels, up to a comment or the end.
ghost use Rattle.std.specs.Prelude.{◌≡◌, ℕ, ◌≤◌, length, IfErr};
ghost use Rattle.std.specs.List.{AllByRecursion};
ghost use Rattle.channels.specs.Sets.{no_channels};
ghost use Rattle.plans.specs.Pastes.{PasteLaws};
ghost use Rattle.plans.specs.Words.{end_of};
ghost use Rattle.plans.specs.Lines.{Inside, channels_in, line_of};

use crate::words::Words;
use crate::{Complaint, Entry};
use channels::ChannelSet;

// The channels that words name.
fn channels(words: Words) -> Result<ChannelSet, Complaint>
    ensures value { result ≡ channels_in no_channels words.entry }
    ensures within { (n : ℕ) → AllByRecursion (λ w. end_of w ≤ n) words.entry → IfErr result (Inside n) }
{
    let mut set = ChannelSet::new();
    for word in words {
        word.add_to(&mut set)?;
    }
    Ok(set)
}

// Reads a line of a plan; one without words has no entry. What is printed of a cell and its channels is read as them again.
#[tactic(auto, using(crate::proofs::Pasted::paste_laws))]
pub fn parse(line: &[u8]) -> Result<Option<Entry>, Complaint>
    ensures value { result ≡ line_of line.now }
    ensures within { IfErr result (Inside (length line.now)) }
    ensures laws { PasteLaws }
{
    let mut words = Words::new(line);
    let Some(first) = words.next() else {
        return Ok(None);
    };
    let cell = first.cell()?;
    let channels = channels(words)?;
    Ok(Some(Entry { cell, channels }))
}
