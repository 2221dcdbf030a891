//! A conflict on its way to a learned clause.

ghost use Rattle.std.specs.Prelude.{◌≡◌, ◌<◌, ◌≤◌, ◌^◌, ◌∷◌, [], length, true, false, slice_index_or, reverse, OnOk, IfOk, ℤ, ℕ, List};
ghost use Rattle.sat_core.specs.Analyses.{IsAnalysis, AreMore};
ghost use Rattle.sat_core.specs.Marks.{AreNone};

use crate::implying::Implied;
use crate::marks::Marks;
use chain_check::{Clause, Learned, Literal};
use hy_base::{List, M, NumList};
use std::alloc::Global;

/// A conflict on its way to a learned clause.
#[derive(Drop)]
pub struct Analysis {
    /// By place: whether it is part of the conflict.
    pub seen: Marks,
    /// For each place below the level that is seen a literal of its variable.
    pub lower: Vec<Literal>,
    /// What is known of what it implies.
    pub implied: Implied,
    /// How many places of the level are seen and not yet resolved.
    pub unsettled: usize,
    /// The numbers of the clauses, the last one first.
    pub chain: Vec<u32>,
}

impl Analysis {
    /// Of no conflict yet.
    pub fn new(alloc: Global) -> Analysis {
        Analysis {
            seen: Marks::new(alloc),
            lower: Vec::new(alloc),
            implied: Implied::new(alloc),
            unsettled: 0,
            chain: Vec::new(alloc),
        }
    }

    /// Begins with the clause of this number, on a trail of `count` places.
    pub fn begin(&mut self, count: usize, number: u32) -> M<()>
        ensures room { OnOk result (count ≤ length self.new.seen) }
        ensures none { OnOk result (AreNone self.new.seen) }
        ensures lower { OnOk result (self.new.lower.items ≡ []) }
        ensures unsettled { OnOk result (self.new.unsettled ≡ 0) }
        ensures chain { OnOk result (self.new.chain.items ≡ number ∷ []) }
    {
        self.seen.clear(count)?;
        self.implied.clear(count)?;
        self.lower.clear();
        self.unsettled = 0;
        self.chain.clear();
        self.chain.push(number)?;
        Ok(())
    }

    /// Marks `place`, where a literal of the variable of `l` stands.
    pub fn see(&mut self, l: Literal, place: usize, start: usize) -> M<()>
        requires inside { place < length self.old.seen }
        requires room { self.old.unsettled < 2 ^ 63 }
        ensures kept { OnOk result ((trail : List ℤ) (p : ℕ) →
            IsAnalysis trail start p self.old.seen (length self.old.lower.items) self.old.unsettled →
            place < p →
            IsAnalysis trail start p self.new.seen (length self.new.lower.items) self.new.unsettled) }
        ensures more { OnOk result (AreMore self.old.seen self.new.seen) }
        ensures seen { OnOk result (slice_index_or self.new.seen place false ≡ true) }
        ensures chain { OnOk result (self.new.chain.items ≡ self.old.chain.items) }
    {
        if self.seen.is_marked(place) {
            return Ok(());
        }
        if place < start {
            self.lower.push(l)?;
        } else {
            self.unsettled += 1;
        }
        self.seen.mark(place);
        Ok(())
    }

    /// Turns from the level to all places below it.
    pub fn descend(&mut self)
        ensures seen { self.new.seen ≡ self.old.seen }
        ensures lower { self.new.lower.items ≡ [] }
        ensures unsettled { self.new.unsettled ≡ length self.old.lower.items }
        ensures chain { self.new.chain.items ≡ self.old.chain.items }
    {
        self.unsettled = self.lower.len();
        self.lower.clear();
    }

    /// The clause with its chain.
    pub fn entry(&self, alloc: Global, clause: Clause) -> M<Learned>
        ensures clause { IfOk result (λ e. e.clause ≡ clause) }
        ensures chain { IfOk result (λ e. e.chain ≡ reverse self.now.chain.items) }
    {
        Ok(Learned {
            clause,
            chain: reversed(alloc, self.chain.as_slice())?,
        })
    }
}

/// The numbers from the last to the first.
fn reversed(alloc: Global, numbers: &[u32]) -> M<NumList>
    ensures { IfOk result (λ r. r ≡ reverse numbers.now) }
{
    let mut reversed = List::new(alloc);
    for i in 0..numbers.len() {
        reversed.push(numbers[numbers.len() - 1 - i])?;
    }
    Ok(reversed)
}
