//! Letters: sets of names, each name by a number below 64, in one word of 64 bits.

ghost use Rattle.std.specs.Prelude.{◌≡◌, ℕ, ◌<◌, IfOk};
ghost use Rattle.std.specs.FinSet as set;
ghost use Rattle.hy_bits.specs.Sets.{AreBelow};

use crate::bit_row::BitRow;
use hy_base::{List, M, Remake};
use std::alloc::Global;
use std::marker::Model;

/// A letter: a set of names, each by its number, which is below 64.
#[derive(Clone, Copy, PartialEq, Eq, PartialOrd, Ord, Hash, Debug)]
pub struct LetterMask {
    names: BitRow<1>,
}

impl Model for LetterMask {
    ghost use Rattle.std.specs.Coded.{coded_ℕ};
    ghost use Rattle.std.specs.FinSet as set;
    ghost use Rattle.hy_bits.specs.Letter.{Letter};

    ghost Value = { Letter };

    ghost coded = { set.code coded_ℕ };

    ghost view = { λ m. m.names };

    ghost inverse = { λ s. record { names = s } };
}

/// Letters one after another, as of a trace.
pub type Letters = List<LetterMask>;

impl LetterMask {
    /// The set of no name.
    pub fn empty() -> Self
        ensures { result ≡ set.empty }
    {
        LetterMask {
            names: BitRow::empty(),
        }
    }

    /// The number of each member is below 64.
    pub fn names_below(&self)
        ensures { AreBelow 64 self.now }
    {
        self.names.members_below();
    }

    /// Whether name `i` is a member.
    pub fn has(&self, i: usize) -> bool
        requires { i < 64 }
        ensures { result ≡ set.contains self.now i }
    {
        self.names.has(i)
    }

    /// This set with name `i` too.
    pub fn with(self, i: usize) -> Self
        requires { i < 64 }
        ensures { result ≡ set.insert self i }
    {
        LetterMask {
            names: self.names.with(i),
        }
    }

    /// This set without name `i`.
    pub fn without(self, i: usize) -> Self
        requires { i < 64 }
        ensures { result ≡ set.remove self i }
    {
        LetterMask {
            names: self.names.without(i),
        }
    }

    /// The names of either set.
    pub fn union(&self, other: &Self) -> Self
        ensures { result ≡ set.union self.now other.now }
    {
        LetterMask {
            names: self.names.union(&other.names),
        }
    }

    /// Whether each name of this set is one of the other.
    pub fn is_subset(&self, other: &Self) -> bool
        ensures { result ≡ set.is_subset self.now other.now }
    {
        self.names.is_subset(&other.names)
    }
}

impl Remake for LetterMask {
    fn remake(&self, _alloc: Global) -> M<Self> {
        Ok(*self)
    }
}
