//! Counts of cases.

use std::fmt;

/// How many cases of a file were tried, and how many gave another answer than the expected one.
#[derive(Clone, Copy)]
pub(crate) struct Tally {
    cases: u64,
    differ: u64,
}

impl Tally {
    /// No case yet.
    pub(crate) fn new() -> Tally {
        Tally {
            cases: 0,
            differ: 0,
        }
    }

    /// One case more.
    pub(crate) fn count(&mut self, holds: bool) {
        self.cases = self.cases.saturating_add(1);
        if !holds {
            self.differ = self.differ.saturating_add(1);
        }
    }
}

impl fmt::Display for Tally {
    fn fmt<W: fmt::Write>(&self, f: &mut fmt::Formatter<W>) -> fmt::Result {
        write!(f, "{} cases, {} differ", self.cases, self.differ)
    }
}
