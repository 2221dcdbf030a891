//! The sections of counted lines, and which rows are right in each.

ghost use Rattle.std.specs.Prelude.{◌≡◌, ◌<◌, ◌^◌, slice_index, slice_index_or, cond};
ghost use Rattle.aiger_body.specs.Files.{all_sections, counts, number_in, is_literal, is_plain, is_reset, is_right, is_input, is_latch, is_use, is_size, is_gate};
ghost use Rattle.aiger_body.specs.declared.section.Section.TheVariants.{Gates};
ghost use Rattle.aiger_body.specs.Answers.{Fits};

use crate::header::Header;

/// What a counted line is for. The sections come in this order.
#[derive(Clone, Copy, Debug, PartialEq, Eq)]
pub enum Section {
    Inputs,
    Latches,
    Outputs,
    Bads,
    Constraints,
    /// How many literals a justice property has.
    Sizes,
    /// The literals of the justice properties.
    Justices,
    Fairs,
    Gates,
}

/// How many sections there are.
pub const SECTIONS: usize = 9;

/// Section `i`, counted from 0.
pub fn section_at(i: usize) -> Section
    requires { i < 9 }
    ensures { result ≡ slice_index_or all_sections i Gates }
{
    match i {
        0 => Section::Inputs,
        1 => Section::Latches,
        2 => Section::Outputs,
        3 => Section::Bads,
        4 => Section::Constraints,
        5 => Section::Sizes,
        6 => Section::Justices,
        7 => Section::Fairs,
        _ => Section::Gates,
    }
}

impl Header {
    /// How many lines the section has, where the justice properties have `justice` literals.
    pub fn count(&self, section: Section, justice: u64) -> u64
        ensures { result ≡ slice_index (counts self.now justice) (number_in section) }
    {
        match section {
            Section::Inputs => self.in_lines(self.inputs),
            Section::Latches => self.latches,
            Section::Outputs => self.outputs,
            Section::Bads => self.bads,
            Section::Constraints => self.constraints,
            Section::Sizes => self.justices,
            Section::Justices => justice,
            Section::Fairs => self.fairs,
            Section::Gates => self.in_lines(self.ands),
        }
    }

    /// Inputs and ands have lines in the one form only.
    fn in_lines(&self, count: u64) -> u64
        ensures { result ≡ cond self.now.binary 0 count }
    {
        if self.binary { 0 } else { count }
    }

    /// Whether the row is what a line of the section is to say.
    pub fn is_right(&self, section: Section, row: &[u64]) -> bool
        requires { Fits self.now }
        ensures { result ≡ is_right self.now section row.now }
    {
        match section {
            Section::Inputs => self.is_input(row),
            Section::Latches => self.is_latch(row),
            Section::Sizes => is_size(row),
            Section::Gates => self.is_gate(row),
            _ => self.is_use(row),
        }
    }

    fn is_input(&self, row: &[u64]) -> bool
        requires { Fits self.now }
        ensures { result ≡ is_input self.now row.now }
    {
        match row {
            [l] => self.is_plain(*l),
            _ => false,
        }
    }

    fn is_latch(&self, row: &[u64]) -> bool
        requires { Fits self.now }
        ensures { result ≡ is_latch self.now row.now }
    {
        match row {
            [l, next] => self.is_plain(*l) && self.is_literal(*next),
            [l, next, reset] => {
                self.is_plain(*l) && self.is_literal(*next) && is_reset(*l, *reset)
            }
            _ => false,
        }
    }

    fn is_use(&self, row: &[u64]) -> bool
        requires { Fits self.now }
        ensures { result ≡ is_use self.now row.now }
    {
        match row {
            [l] => self.is_literal(*l),
            _ => false,
        }
    }

    fn is_gate(&self, row: &[u64]) -> bool
        requires { Fits self.now }
        ensures { result ≡ is_gate self.now row.now }
    {
        match row {
            [l, a, b] => self.is_plain(*l) && self.is_literal(*a) && self.is_literal(*b),
            _ => false,
        }
    }

    fn is_literal(&self, l: u64) -> bool
        requires { Fits self.now }
        ensures { result ≡ is_literal self.now l }
    {
        l <= 2 * self.top + 1
    }

    /// Whether the literal stands for a variable.
    fn is_plain(&self, l: u64) -> bool
        requires { Fits self.now }
        ensures { result ≡ is_plain self.now l }
    {
        self.is_literal(l) && 0 < l && l % 2 == 0
    }
}

fn is_size(row: &[u64]) -> bool
    ensures { result ≡ is_size row.now }
{
    match row {
        [_] => true,
        _ => false,
    }
}

fn is_reset(l: u64, reset: u64) -> bool
    ensures { result ≡ is_reset l reset }
{
    reset == 0 || reset == 1 || reset == l
}
