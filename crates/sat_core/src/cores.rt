//! From an assumption that is false back to the assumptions by which it is.

ghost use Rattle.std.specs.Prelude.{◌≡◌, ◌<◌, ◌≤◌, ◌-◌, ◌+◌, ℕ, ℤ, ◌∷◌, ◌++◌, [], IsTrue, true, false, neg_ℤ, pos, Contains, length, slice_index, slice_index_or, OnOk, IfOk};
ghost use Rattle.chain_check.specs.Clauses.{IsLiteral, AreLiterals, IsSubset};
ghost use Rattle.sat_core.specs.Analyses.{AreMarked, AreMore};
ghost use Rattle.sat_core.specs.Sessions.{AreDecided, Excludes, IsTraced};
ghost use Rattle.sat_core.specs.Solvers.{IsReady};
ghost use Rattle.sat_core.specs.Watches.{StandsAt};

use crate::marks::Marks;
use crate::solver::Solver;
use chain_check::{Clause, Literal};
use hy_base::{List, M};
use std::alloc::Global;

impl Solver {
    /// Some of the assumptions, `l` among them, which is false: by the clauses they are not all true.
    /// In time linear in the assumptions, in what decisions made true, and in the clauses by which
    /// it became so.
    pub(crate) fn core_of(
        &self,
        alloc: Global,
        seen: &mut Marks,
        assumptions: &[Literal],
        l: Literal,
    ) -> M<Clause>
        requires ready { IsReady self.now }
        requires right { AreLiterals self.now.partial.variables assumptions.now }
        requires there { Contains assumptions.now l }
        requires is_false { Contains self.now.partial.literals (neg_ℤ l) }
        requires decided { AreDecided self.now assumptions.now }
        ensures within { IfOk result (λ core. IsSubset core assumptions.now) }
        ensures excluded { IfOk result (λ core. Excludes self.now.clauses core) }
    {
        seen.clear(self.partial.len())?;
        let place = self.places[l.variable()] as usize;
        seen.mark(place);
        self.trace(seen, place);
        let mut core = List::new(alloc);
        for m in assumptions {
            if self.is_traced(seen, *m) {
                push_literal(&mut core, *m)?;
            }
        }
        push_literal(&mut core, l)?;
        Ok(core)
    }

    /// Marks, from `place` down to the first decision, the places by which those that are marked
    /// became true.
    fn trace(&self, seen: &mut Marks, place: usize)
        requires ready { IsReady self.now }
        requires inside { place < length self.now.partial.literals }
        requires long { length self.now.partial.literals ≤ length seen.old }
        ensures long { length seen.new ≡ length seen.old }
        ensures traced { (l : ℤ) → IsTraced self.now seen.old (place + 1) l →
            IsTraced self.now seen.new 0 l }
    {
        let start = self.first_limit();
        let mut p = place + 1;
        while start < p {
            p -= 1;
            if seen.is_marked(p) {
                self.trace_place(seen, p);
            }
        }
    }

    /// The place of the first decision, or the end of the trail where there is none.
    pub(crate) fn first_limit(&self) -> usize
        requires { IsReady self.now }
        ensures { (i q : ℕ) → i < result → q < length self.now.limits.items →
            i < slice_index self.now.limits.items q }
    {
        if self.limits.is_empty() {
            return self.partial.len();
        }
        self.limits[0]
    }

    /// Marks the places by which the one at `p` became true, if it was not decided.
    fn trace_place(&self, seen: &mut Marks, p: usize)
        requires ready { IsReady self.now }
        requires inside { p < length self.now.partial.literals }
        requires long { length self.now.partial.literals ≤ length seen.old }
        ensures long { length seen.new ≡ length seen.old }
        ensures traced { (l : ℤ) → IsTraced self.now seen.old (p + 1) l →
            IsTraced self.now seen.new p l }
    {
        let number = self.reasons[p];
        if 0 < number {
            self.mark_reason(seen, number, p);
        }
    }

    /// Marks the places below `p` of the literals of a clause.
    fn mark_reason(&self, seen: &mut Marks, number: u32, p: usize)
        requires ready { IsReady self.now }
        requires counted { 0 < number }
        requires within { number ≤ length self.now.clauses }
        requires below { p ≤ length self.now.partial.literals }
        requires long { p ≤ length seen.old }
        ensures long { length seen.new ≡ length seen.old }
        ensures more { AreMore seen.old seen.new }
        ensures marked { AreMarked self.now.partial.literals p seen.new
            (slice_index_or self.now.clauses (number - 1) []) }
    {
        for l in self.clauses.clause(number as usize - 1) {
            let place = self.places[l.variable()] as usize;
            if place < p {
                seen.mark(place);
            }
        }
    }

    /// Whether the literal was decided, at a place that is marked.
    fn is_traced(&self, seen: &Marks, l: Literal) -> bool
        requires ready { IsReady self.now }
        requires right { IsLiteral self.now.partial.variables l }
        requires long { length self.now.partial.literals ≤ length seen.now }
        ensures { (i : ℕ) → StandsAt self.now.partial.literals l i →
            slice_index_or seen.now i false ≡ true → slice_index self.now.reasons.items i ≡ 0 →
            IsTrue result }
    {
        let place = self.places[l.variable()] as usize;
        if self.partial.len() <= place {
            return false;
        }
        if !seen.is_marked(place) || self.reasons[place] != 0 {
            return false;
        }
        self.partial.at(place).is(l)
    }
}

/// Adds a literal last.
fn push_literal(clause: &mut Clause, l: Literal) -> M<()>
    ensures { OnOk result (clause.new ≡ clause.old ++ l ∷ []) }
{
    clause.push(l.number())
}
