//! Learning from a conflict, and going back to where what was learned is of use.

ghost use Rattle.std.specs.Prelude.{◌≡◌, ◌<◌, ◌≤◌, ◌-◌, ◌+◌, ◌^◌, ◌∷◌, ◌++◌, [], ℕ, length, pos, neg_ℤ, OnOk, IfOk, MatchOption, slice_index, slice_index_or};
ghost use Rattle.sat_core.specs.Solvers.{IsReady, IsConflict};
ghost use Rattle.chain_check.specs.Clauses.{IsNew};
ghost use Rattle.chain_check.specs.Chains.{Follows};
ghost use Rattle.sat_core.specs.Backs.{IsBack};
ghost use Rattle.sat_core.specs.Lessons.{IsTaught};

use crate::analysis::Analysis;
use crate::order::Order;
use crate::solver::Solver;
use chain_check::{Learned, Literal};
use hy_base::M;
use std::alloc::Global;

/// What was learned from a conflict.
#[derive(Drop)]
pub struct Lesson {
    pub entry: Learned,
    /// The literal of the clause that it makes true.
    pub top: Literal,
    /// Of the other literals the one that became false last.
    pub second: Option<Literal>,
}

impl Solver {
    /// Goes back as far as all places below `highest` stay.
    pub(crate) fn back(&mut self, order: &mut Order, highest: usize)
        requires ready { IsReady self.old }
        requires level { 0 < length self.old.limits.items }
        requires below { highest ≤ slice_index self.old.limits.items
            (length self.old.limits.items - 1) }
        ensures ready { IsReady self.new }
        ensures back { (level : ℕ) × IsBack self.old self.new highest level }
    {
        let mut level = self.limits.len() - 1;
        while 0 < level && highest <= self.limits[level - 1] {
            level -= 1;
        }
        let to = self.limits[level];
        for place in to..self.partial.len() {
            order.release(self.partial.at(place));
        }
        self.partial.truncate(to);
        self.reasons.truncate(to);
        self.limits.truncate(level);
    }

    /// Counts for each variable of the conflict that it was part of it.
    fn reward(&self, analysis: &Analysis, order: &mut Order, place: usize)
        requires { length self.now.partial.literals ≤ length analysis.now.seen }
    {
        for place in place..self.partial.len() {
            if analysis.seen.is_marked(place) {
                order.bump(self.partial.at(place));
            }
        }
        for l in &analysis.lower {
            order.bump(*l);
        }
        order.end_conflict();
    }

    /// Learns from a conflict: goes back, adds the clause and makes its first literal true.
    pub(crate) fn learn(
        &mut self,
        alloc: Global,
        analysis: &mut Analysis,
        order: &mut Order,
        number: u32,
    ) -> M<Lesson>
        requires ready { IsReady self.old }
        requires conflict { IsConflict self.old number }
        requires level { 0 < length self.old.limits.items }
        requires room { length self.old.clauses + 1 < 2 ^ 32 - 1 }
        ensures ready { OnOk result (IsReady self.new) }
        ensures variables { OnOk result (self.new.partial.variables ≡ self.old.partial.variables) }
        ensures clauses { IfOk result (λ lesson.
            self.new.clauses ≡ self.old.clauses ++ lesson.entry.clause ∷ []) }
        ensures follows { IfOk result (λ lesson. Follows self.old.partial.variables
            self.old.clauses lesson.entry.clause lesson.entry.chain) }
        ensures is_new { IfOk result (λ lesson. IsNew self.old.clauses lesson.entry.clause) }
        ensures taught { IfOk result (λ lesson. (level : ℕ) ×
            IsTaught self.old self.new lesson.entry.clause lesson.top lesson.second level) }
    {
        let start = self.last_limit();
        let place = self.analyze(analysis, number, start)?;
        self.reward(analysis, order, place);
        let asserting = self.minimize(alloc, analysis, start, place)?;
        let highest = asserting.highest;
        let top = self.opposite_at(place);
        let second = self.false_at(highest);
        let entry = analysis.entry(alloc, asserting.clause)?;
        self.back(order, highest);
        self.clauses.add(entry.clause.as_slice())?;
        let added = self.clauses.len() as u32;
        self.imply(top, added)?;
        Ok(Lesson { entry, top, second })
    }

    /// The place of the last decision.
    fn last_limit(&self) -> usize
        requires { 0 < length self.now.limits.items }
        ensures { result ≡ slice_index self.now.limits.items (length self.now.limits.items - 1) }
    {
        self.limits[self.limits.len() - 1]
    }

    /// The opposite of the literal at a place.
    pub(crate) fn opposite_at(&self, place: usize) -> Literal
        requires ready { IsReady self.now }
        requires inside { place < length self.now.partial.literals }
        ensures { result ≡ neg_ℤ (slice_index_or self.now.partial.literals place (pos 0)) }
    {
        self.partial.at(place).opposite()
    }

    /// The literal that is false since the place before `next`.
    fn false_at(&self, next: usize) -> Option<Literal>
        requires ready { IsReady self.now }
        requires inside { next ≤ length self.now.partial.literals }
        ensures { MatchOption result (next ≡ 0)
            (λ l. (0 < next)
            × (l ≡ neg_ℤ (slice_index_or self.now.partial.literals (next - 1) (pos 0)))) }
    {
        if next == 0 {
            return None;
        }
        Some(self.opposite_at(next - 1))
    }
}
