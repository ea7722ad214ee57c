// How many lines came to what.
ghost use Rattle.std.specs.Prelude.{◌≡◌, ℕ, ◌++◌, Some};
ghost use Rattle.plans.specs.Tallies.{none_yet, counted, clean, tally_text};

use crate::{Tally, Verdict, plural};
use std::fmt;

impl Tally {
    pub fn new() -> Tally
        ensures { result ≡ none_yet }
    {
        Tally {
            composed: 0,
            refused: 0,
            misread: 0,
        }
    }

    // Counts a line; no count goes past the largest number.
    pub fn count(&mut self, verdict: Verdict)
        ensures { self.new ≡ counted self.old verdict }
    {
        match verdict {
            Verdict::Blank => {}
            Verdict::Composed => self.composed = self.composed.saturating_add(1),
            Verdict::Refused => self.refused = self.refused.saturating_add(1),
            Verdict::Misread => self.misread = self.misread.saturating_add(1),
        }
    }

    // Whether every line was taken and composed.
    pub fn is_clean(&self) -> bool
        ensures { result ≡ clean self.now }
    {
        self.refused == 0 && self.misread == 0
    }
}

// The summary of a plan.
impl fmt::Display for Tally {
    ghost output = { λ t. Some (tally_text t) };

    fn fmt<W: fmt::Write>(&self, f: &mut fmt::Formatter<W>) -> fmt::Result {
        let composed = self.composed;
        let refused = self.refused;
        let misread = self.misread;
        let cells = plural(composed, "cell", "cells");
        let lines = plural(misread, "line", "lines");
        write!(
            f,
            "{composed} {cells} composed, {refused} refused, {misread} {lines} not understood"
        )
    }
}
