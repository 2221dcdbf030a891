//! Lassos.

ghost use Rattle.std.specs.Prelude.{◌≡◌, ◌↔◌, ◌<◌, ◌≤◌, ℕ, [], length, IfSome, IfNone, IsTrue};
ghost use Rattle.hy_lasso.specs.Equal.{is_equal};
ghost use Rattle.hy_lasso.specs.EqualLaws.{equal_laws, equal_partial_laws};
ghost use Rattle.hy_lasso.specs.NormalForms.{IsNormal};
ghost use Rattle.hy_lasso.specs.Words.{letter_at};

use crate::shorten::{least_round, shared_end};
use hy_base::{List, M, Remake};
use hy_bits::{LetterMask, Letters};
use std::alloc::Global;
use std::marker::Model;

/// An endless word that repeats: a stem, and a cycle of at least one letter that is gone round.
#[derive(Drop)]
pub struct Lasso {
    stem: Letters,
    cycle: Letters,
}

impl Model for Lasso {
    ghost use Rattle.std.specs.Prelude.{◌<◌, length};
    ghost use Rattle.std.specs.Coded.{coded_ℕ, codes};
    ghost use Rattle.std.specs.Ordering.{nat_cmp};
    ghost use Rattle.std.specs.FinSet as set;
    ghost use Rattle.hy_bits.specs.Letter.{Letter};
    ghost use Rattle.hy_formula.specs.Lassos.{Lasso as Endless};

    ghost Value = { Endless Letter };

    ghost coded = { Prim.hlevel (codes, set.code {R = nat_cmp} coded_ℕ) };

    ghost view = { λ l. record { stem = l.stem; cycle = l.cycle } };

    ghost invariant = { λ l. 0 < length l.cycle };
}

impl PartialEq for Lasso {
    ghost eq = { is_equal };

    ghost laws = { equal_partial_laws };

    /// Whether the stems are equal and the cycles are.
    fn eq(&self, other: &Self) -> bool
        ensures computed { result ≡ is_equal self.now other.now }
        ensures equal { IsTrue result ↔ (self.now ≡ other.now) }
    {
        self.stem.as_slice() == other.stem.as_slice()
            && self.cycle.as_slice() == other.cycle.as_slice()
    }
}

impl Eq for Lasso {
    ghost laws = { equal_laws };
}

impl Remake for Lasso {
    fn remake(&self, alloc: Global) -> M<Self> {
        Ok(Lasso {
            stem: self.stem.copy(alloc)?,
            cycle: self.cycle.copy(alloc)?,
        })
    }
}

/// Lassos, each known by its place.
pub type LassoList = List<Lasso>;

impl Lasso {
    /// The lasso with that stem and cycle. `None` exactly where the cycle is empty.
    pub fn new(stem: Letters, cycle: Letters) -> Option<Lasso>
        ensures made { IfSome result (λ l. (l.stem ≡ stem) × (l.cycle ≡ cycle)) }
        ensures some { IfSome result (λ l. 0 < length cycle) }
        ensures refused { IfNone result (cycle ≡ []) }
    {
        if cycle.is_empty() {
            return None;
        }
        Some(Lasso { stem, cycle })
    }

    /// The letters before the cycle.
    pub fn stem(&self) -> &Letters
        ensures { result.now ≡ self.now.stem }
    {
        &self.stem
    }

    /// The letters that are gone round: one at least.
    pub fn cycle(&self) -> &Letters
        ensures letters { result.now ≡ self.now.cycle }
        ensures some { 0 < length result.now }
    {
        &self.cycle
    }

    /// The letter at position `i`, in constant time.
    pub fn at(&self, i: u64) -> LetterMask
        ensures { result ≡ letter_at self.now i }
    {
        let stem = self.stem.len() as u64;
        if i < stem {
            *self.stem.at(i as usize)
        } else {
            let place = (i - stem) % self.cycle.len() as u64;
            *self.cycle.at(place as usize)
        }
    }

    /// The normal form: the same letter at every position, the shortest cycle, and the shortest
    /// stem, so neither is longer than before. In place, in time linear in the lasso times the
    /// divisors of the length of the cycle.
    pub fn shorten(self) -> Lasso
        ensures word { (i : ℕ) → letter_at result i ≡ letter_at self i }
        ensures normal { IsNormal result }
        ensures stem { length result.stem ≤ length self.stem }
        ensures cycle { length result.cycle ≤ length self.cycle }
    {
        let Lasso {
            mut stem,
            mut cycle,
        } = self;
        cycle.truncate(least_round(cycle.as_slice()));
        let shared = shared_end(stem.as_slice(), cycle.as_slice());
        stem.truncate(stem.len() - shared);
        cycle.rotate_right(shared % cycle.len());
        Lasso { stem, cycle }
    }
}
