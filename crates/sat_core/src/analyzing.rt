//! From a conflict back to what it rests on, reason by reason.

ghost use Rattle.std.specs.Prelude.{◌≡◌, ◌<◌, ◌≤◌, ◌-◌, ◌∷◌, length, true, false, suc, [], ℤ, List, slice_index, slice_index_or, OnOk, IfOk};
ghost use Rattle.chain_check.specs.Chains.{Refutes};
ghost use Rattle.sat_core.specs.Points.{IsPoint};
ghost use Rattle.sat_core.specs.Solvers.{IsReady, IsConflict};
ghost use Rattle.sat_core.specs.Analyses.{IsAnalysis, IsRefuting, AreMarked, AreMore};

use crate::analysis::Analysis;
use crate::solver::Solver;
use chain_check::Learned;
use hy_base::{List, M};
use std::alloc::Global;

impl Solver {
    /// Marks the places below `p` that make literals of the clause false.
    pub(crate) fn mark(&self, analysis: &mut Analysis, number: u32, start: usize, p: usize) -> M<()>
        requires ready { IsReady self.now }
        requires counted { 0 < number }
        requires within { number ≤ length self.now.clauses }
        requires is { IsAnalysis self.now.partial.literals start p analysis.old.seen
            (length analysis.old.lower.items) analysis.old.unsettled }
        ensures kept { OnOk result (IsAnalysis self.now.partial.literals start p
            analysis.new.seen (length analysis.new.lower.items) analysis.new.unsettled) }
        ensures more { OnOk result (AreMore analysis.old.seen analysis.new.seen) }
        ensures marked { OnOk result (AreMarked self.now.partial.literals p analysis.new.seen
            (slice_index_or self.now.clauses (number - 1) [])) }
        ensures chain { OnOk result (analysis.new.chain.items ≡ analysis.old.chain.items) }
    {
        for l in self.clauses.clause(number as usize - 1) {
            let place = self.places[l.variable()] as usize;
            if place < p {
                analysis.see(*l, place, start)?;
            }
        }
        Ok(())
    }

    /// What a conflict has pending: the places of its clause.
    pub(crate) fn conflict(&self, analysis: &mut Analysis, number: u32, start: usize) -> M<()>
        requires ready { IsReady self.now }
        requires conflict { IsConflict self.now number }
        ensures is { OnOk result (IsAnalysis self.now.partial.literals start
            (length self.now.partial.literals) analysis.new.seen
            (length analysis.new.lower.items) analysis.new.unsettled) }
        ensures refuting { OnOk result (IsRefuting self.now.clauses self.now.partial.literals
            (length self.now.partial.literals) [] analysis.new.seen analysis.new.chain.items) }
    {
        let len = self.partial.len();
        analysis.begin(len, number)?;
        self.mark(analysis, number, start, len)?;
        Ok(())
    }

    /// Puts the reason of the literal at `p` in its place.
    pub(crate) fn resolve(&self, analysis: &mut Analysis, start: usize, p: usize) -> M<()>
        requires ready { IsReady self.now }
        requires level { start ≤ p }
        requires seen { slice_index_or analysis.old.seen p false ≡ true }
        requires implied { 0 < slice_index self.now.reasons.items p }
        requires is { IsAnalysis self.now.partial.literals start (suc p) analysis.old.seen
            (length analysis.old.lower.items) analysis.old.unsettled }
        ensures is { OnOk result (IsAnalysis self.now.partial.literals start p
            analysis.new.seen (length analysis.new.lower.items) analysis.new.unsettled) }
        ensures refuting { OnOk result ((kept : List ℤ) → IsRefuting self.now.clauses
            self.now.partial.literals (suc p) kept analysis.old.seen analysis.old.chain.items →
            IsRefuting self.now.clauses self.now.partial.literals p kept
            analysis.new.seen analysis.new.chain.items) }
    {
        analysis.unsettled -= 1;
        let number = self.reasons[p];
        self.mark(analysis, number, start, p)?;
        analysis.chain.push(number)?;
        Ok(())
    }

    /// The empty clause, by a conflict without decisions.
    pub(crate) fn refute(&self, alloc: Global, analysis: &mut Analysis, number: u32) -> M<Learned>
        requires ready { IsReady self.now }
        requires conflict { IsConflict self.now number }
        requires no_level { length self.now.limits.items ≡ 0 }
        ensures empty { IfOk result (λ e. e.clause ≡ []) }
        ensures refuted { IfOk result (λ e. Refutes self.now.clauses [] e.chain) }
    {
        self.conflict(analysis, number, 0)?;
        let mut p = self.partial.len();
        while 0 < p {
            p -= 1;
            if analysis.seen.is_marked(p) {
                self.resolve(analysis, 0, p)?;
            }
        }
        analysis.entry(alloc, List::new(alloc))
    }

    /// Goes back from a conflict to the one place of the level through which all of it goes.
    pub(crate) fn analyze(&self, analysis: &mut Analysis, number: u32, start: usize) -> M<usize>
        requires ready { IsReady self.now }
        requires conflict { IsConflict self.now number }
        requires level { 0 < length self.now.limits.items }
        requires last { start ≡ slice_index self.now.limits.items
            (length self.now.limits.items - 1) }
        ensures { IfOk result (λ p. IsPoint self.now.clauses self.now.partial.literals start p
            analysis.new) }
    {
        self.conflict(analysis, number, start)?;
        let mut p = self.partial.len();
        while start < p {
            p -= 1;
            if analysis.seen.is_marked(p) {
                if analysis.unsettled == 1 {
                    return Ok(p);
                }
                self.resolve(analysis, start, p)?;
            }
        }
        prove!(false);
        Ok(p)
    }
}
