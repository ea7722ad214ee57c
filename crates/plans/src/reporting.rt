// The report on a line of a plan.
ghost use Rattle.std.specs.Prelude.{◌≡◌, ℕ, length, IfOk, Some, string_bytes};
ghost use Rattle.plans.specs.Lines.{Inside, line_of};
ghost use Rattle.plans.specs.Reports.{head_text, likeness_text, composed_text, refused_text, Reported, nothing_text, why_text, verdict_of, Complained, Answered};

use crate::composing::compose_and_read;
use crate::reading::parse;
use crate::{Answer, Complaint, Entry, Trial, Verdict, Why, plural};
use channels::ChannelSet;
use faults::{Fault, PileFault};
use notation::told::Told;
use notation::{hex, lists};
use piles::Pile;
use std::alloc::{AllocError, Global};
use std::fmt;

// The cell of a line and its channels. The allocator goes first and by itself, as in std's calls.
fn head(heap: Global, number: usize, entry: &Entry) -> Result<String, AllocError>
    ensures { IfOk result (λ s. string_bytes s ≡ head_text number entry.now) }
{
    let cell = entry.cell;
    let count = entry.channels.size();
    let noun = plural(count, "channel", "channels");
    let list = lists::write(heap, &entry.channels)?;
    format!(in heap; "line {number}: cell {cell}, {count} {noun}: {list}\n")
}

fn likeness(same: bool) -> &'static str
    ensures { result.now ≡ likeness_text same }
{
    if same {
        "the same channels"
    } else {
        "other channels"
    }
}

// The octets that were composed, and what they are read back as.
fn composed(heap: Global, trial: &Trial, channels: &ChannelSet) -> Result<String, AllocError>
    ensures { IfOk result (λ s. (trial.now.back ≡ channels.now → string_bytes s ≡ composed_text trial.now.octets channels.now)) }
{
    let octets = hex::write(heap, &trial.octets)?;
    let back = lists::write(heap, &trial.back)?;
    let same = likeness(trial.back == *channels);
    format!(in heap; "  composed in 16 octets: {octets}\n  read back: {back}, {same}\n")
}

// What a pile refuses, in a line of its own.
#[tactic(auto, unfolding(crate::specs::Reports::refused_text))]
fn refused(heap: Global, fault: PileFault) -> Result<String, AllocError>
    ensures { IfOk result (λ s. string_bytes s ≡ refused_text fault) }
{
    let told = Told(fault.refusal());
    format!(in heap; "  refused: {told}\n")
}

// The report on a cell: what it has, the octets that its channels are composed of, and what these are read back as.
pub fn report<P: Pile>(
    heap: Global,
    pile: &P,
    number: usize,
    entry: &Entry,
) -> Result<Answer, AllocError>
    ensures { IfOk result (Reported number entry.now ((P.meaning pile.now).writes entry.now.channels 16)) }
{
    let mut text = head(heap, number, entry)?;
    let (verdict, more) = match compose_and_read(pile, &entry.channels) {
        Ok(trial) => (Verdict::Composed, composed(heap, &trial, &entry.channels)?),
        Err(fault) => (Verdict::Refused, refused(heap, fault)?),
    };
    text.push_str(more.as_str())?;
    Ok(Answer { verdict, text })
}

// A part of a word as it was found, in quotes.
fn quoted(heap: Global, part: &[u8]) -> Result<String, AllocError>
    ensures { IfOk result (λ s. (length part.now ≡ 0 → string_bytes s ≡ nothing_text)) }
{
    if part.is_empty() {
        return String::from_str(heap, "the end of the word");
    }
    let text = String::from_utf8_lossy(heap, part)?;
    format!(in heap; "{text:?}")
}

// Why a line went wrong, behind what was found there.
impl fmt::Display for Why {
    ghost output = { λ w. Some (why_text w) };

    fn fmt<W: fmt::Write>(&self, f: &mut fmt::Formatter<W>) -> fmt::Result {
        match self {
            Why::Misread(expected) => write!(f, "expected {expected}"),
            Why::Refused(fault) => {
                let told = Told(fault.refusal());
                write!(f, "refused: {told}")
            }
        }
    }
}

// A line that was refused is one whose channels were.
impl From<Why> for Verdict {
    ghost from_gives = { λ w v. v ≡ verdict_of w };

    fn from(why: Why) -> Verdict {
        match why {
            Why::Misread(_) => Verdict::Misread,
            Why::Refused(_) => Verdict::Refused,
        }
    }
}

// Where a line went wrong, what stands there, and what should have stood there or why it is refused.
fn complain(
    heap: Global,
    number: usize,
    line: &[u8],
    complaint: Complaint,
) -> Result<Answer, AllocError>
    requires { Inside (length line.now) complaint }
    ensures { IfOk result (Complained number complaint) }
{
    let Complaint { start, end, why } = complaint;
    let column = start + 1;
    let found = quoted(heap, &line[start..end])?;
    let text = format!(in heap; "line {number}, column {column}: found {found}, {why}\n")?;
    Ok(Answer {
        verdict: Verdict::from(why),
        text,
    })
}

// The answer to a line of a plan, whose number is told in it.
pub fn answer<P: Pile>(
    heap: Global,
    pile: &P,
    number: usize,
    line: &str,
) -> Result<Answer, AllocError>
    ensures { IfOk result (Answered (P.meaning pile.now) number (line_of line.now)) }
{
    let bytes = line.as_bytes();
    match parse(bytes) {
        Ok(Some(entry)) => report(heap, pile, number, &entry),
        Ok(None) => Ok(Answer {
            verdict: Verdict::Blank,
            text: String::new(heap),
        }),
        Err(complaint) => complain(heap, number, bytes, complaint),
    }
}
