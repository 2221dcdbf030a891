//! The learned clause, minimized: literals that are false without decisions, and those that others of
//! the clause imply, are left out. Which ones are is a choice on which no proof rests.

ghost use Rattle.std.specs.Prelude.{◌≡◌, ◌+◌, ◌<◌, ◌≤◌, ◌^◌, ◌∷◌, ◌++◌, [], length, suc, true, false, slice_index, slice_index_or, max, OnOk, IfOk, ℕ, IsTrue};
ghost use Rattle.sat_core.specs.Analyses.{IsAnalysis};
ghost use Rattle.sat_core.specs.Points.{IsPoint, IsAsserting};
ghost use Rattle.sat_core.specs.Minimizing.{IsMinimizing};
ghost use Rattle.sat_core.specs.Solvers.{IsReady};

use crate::analysis::Analysis;
use crate::implying::Implied;
use crate::marks::Marks;
use crate::solver::Solver;
use chain_check::{Clause, Literal};
use hy_base::{List, M};
use std::alloc::Global;

/// A clause that makes its first literal true where the others are false.
#[derive(Drop)]
pub struct Asserting {
    pub clause: Clause,
    /// One more than the highest place of the others, or 0 where there are none.
    pub highest: usize,
}

impl Asserting {
    /// Of one literal.
    fn new(alloc: Global, top: Literal) -> M<Asserting>
        ensures clause { IfOk result (λ it. it.clause ≡ top ∷ []) }
        ensures highest { IfOk result (λ it. it.highest ≡ 0) }
    {
        let mut clause = List::new(alloc);
        clause.push(top.number())?;
        Ok(Asserting { clause, highest: 0 })
    }

    /// Adds a literal that is false since `place`.
    fn keep(&mut self, l: Literal, place: usize) -> M<()>
        requires { place < 2 ^ 63 }
        ensures clause { OnOk result (self.new.clause ≡ self.old.clause ++ l ∷ []) }
        ensures highest { OnOk result (self.new.highest ≡ max self.old.highest (place + 1)) }
    {
        self.clause.push(l.number())?;
        self.highest = self.highest.max(place + 1);
        Ok(())
    }
}

impl Solver {
    /// The clause that is learned at place `p`, through which all of the conflict goes. Behind its first
    /// literal stand those first that have been false for longest: what changes least is found first to
    /// be watched.
    pub(crate) fn minimize(
        &self,
        alloc: Global,
        analysis: &mut Analysis,
        start: usize,
        p: usize,
    ) -> M<Asserting>
        requires ready { IsReady self.now }
        requires point { IsPoint self.now.clauses self.now.partial.literals start p analysis.old }
        ensures { IfOk result (λ it. IsAsserting self.now.clauses self.now.partial.literals start p
            it.clause it.highest analysis.new.chain.items) }
    {
        analysis.descend();
        let mut asserting = Asserting::new(alloc, self.opposite_at(p))?;
        let mut q = start;
        'places: while 0 < analysis.unsettled {
            q -= 1;
            if analysis.seen.is_marked(q) {
                self.settle(analysis, &mut asserting, q)?;
            }
        }
        asserting.clause.reverse();
        asserting.clause.rotate_right(1);
        Ok(asserting)
    }

    /// Puts the reason of the literal at `q` in its place, or keeps its opposite.
    fn settle(&self, analysis: &mut Analysis, asserting: &mut Asserting, q: usize) -> M<()>
        requires ready { IsReady self.now }
        requires inside { q < length self.now.partial.literals }
        requires seen { slice_index_or analysis.old.seen q false ≡ true }
        requires is { IsAnalysis self.now.partial.literals 0 (suc q) analysis.old.seen
            (length analysis.old.lower.items) analysis.old.unsettled }
        ensures { OnOk result ((start p : ℕ) → IsMinimizing self.now.clauses
            self.now.partial.literals start p (suc q) analysis.old asserting.old → IsMinimizing
            self.now.clauses self.now.partial.literals start p q analysis.new asserting.new) }
    {
        let removable = self.is_removable(&mut analysis.implied, &analysis.seen, q)?;
        if removable {
            self.resolve(analysis, 0, q)?;
            return Ok(());
        }
        analysis.unsettled -= 1;
        asserting.keep(self.opposite_at(q), q)?;
        Ok(())
    }

    /// Whether the literal at `p` has a reason, and what is seen below `p` implies it.
    fn is_removable(&self, implied: &mut Implied, seen: &Marks, p: usize) -> M<bool>
        requires ready { IsReady self.now }
        requires inside { p < length self.now.partial.literals }
        requires long { length self.now.partial.literals ≤ length seen.now }
        ensures { IfOk result (λ removable. IsTrue removable →
            0 < slice_index self.now.reasons.items p) }
    {
        if self.reasons[p] == 0 {
            return Ok(false);
        }
        let answer = self.is_implied(implied, seen, p)?;
        Ok(answer)
    }
}
