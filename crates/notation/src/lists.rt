// Channels as text: single channels and ranges, as a plan has them.
ghost use Rattle.std.specs.Prelude.{◌≡◌, ℕ, ◌+◌, ◌++◌, IfOk, Some, string_bytes, OnOk, ◌==◌};
ghost use Rattle.channels.specs.Sets.{holds, members_of};
ghost use Rattle.notation.specs.Lists.{span_text, run_of, spans_of, covers, list_text};

use crate::Span;
use channels::ChannelSet;
use std::alloc::{AllocError, Global};
use std::fmt;

// A range is written as it is read.
impl fmt::Display for Span {
    ghost output = { λ s. Some (span_text s) };

    fn fmt<W: fmt::Write>(&self, f: &mut fmt::Formatter<W>) -> fmt::Result {
        let low = self.low;
        let high = self.high;
        if low == high {
            write!(f, "{low}")
        } else {
            write!(f, "{low}-{high}")
        }
    }
}

// Whether one number comes right after another.
fn follows(c: u16, high: u16) -> bool
    ensures { result ≡ (c == high + 1) }
{
    high.checked_add(1) == Some(c)
}

// Puts a run of channels behind others: as a range from three channels on, else one by one.
fn push_run(spans: &mut Vec<Span>, run: Span) -> Result<(), AllocError>
    ensures { OnOk result (spans.new.items ≡ spans.old.items ++ run_of run.low run.high) }
{
    let Span { low, high } = run;
    if follows(high, low) {
        spans.push(Span { low, high: low })?;
        spans.push(Span { low: high, high })?;
    } else {
        spans.push(run)?;
    }
    Ok(())
}

// The runs of a rising list of channels.
fn runs(heap: Global, channels: &[u16]) -> Result<Vec<Span>, AllocError>
    ensures { IfOk result (λ v. v.items ≡ spans_of channels.now) }
{
    let mut spans = Vec::new(heap);
    let Some((first, others)) = channels.split_first() else {
        return Ok(spans);
    };
    let mut low = *first;
    let mut high = *first;
    for c in others {
        if !follows(*c, high) {
            push_run(&mut spans, Span { low, high })?;
            low = *c;
        }
        high = *c;
    }
    push_run(&mut spans, Span { low, high })?;
    Ok(spans)
}

// The channels of a set, as few ranges and single channels as they make; two neighbours are no range.
pub fn spans(heap: Global, set: &ChannelSet) -> Result<Vec<Span>, AllocError>
    ensures value { IfOk result (λ v. v.items ≡ spans_of (members_of set.now)) }
    ensures exact { IfOk result (λ v. ((k : ℕ) → covers v.items k ≡ holds set.now k)) }
{
    let mut channels = [0; 1024];
    let count = set.members(&mut channels);
    runs(heap, &channels[..count])
}

// Ranges as a plan has them, with a blank between two, and `none` for no ranges.
#[derive(Clone, Copy)]
pub struct Ranges<'a>(pub &'a [Span]);

impl fmt::Display for Ranges<'_> {
    ghost output = { λ r. Some (list_text r.0.now) };

    fn fmt<W: fmt::Write>(&self, f: &mut fmt::Formatter<W>) -> fmt::Result {
        let Some((first, others)) = self.0.split_first() else {
            return write!(f, "none");
        };
        write!(f, "{first}")?;
        for span in others {
            write!(f, " {span}")?;
        }
        Ok(())
    }
}

// The channels of a set as a plan has them, and `none` for no channels.
pub fn write(heap: Global, set: &ChannelSet) -> Result<String, AllocError>
    ensures { IfOk result (λ s. string_bytes s ≡ list_text (spans_of (members_of set.now))) }
{
    let spans = spans(heap, set)?;
    Ranges(spans.as_slice()).to_string(heap)
}
