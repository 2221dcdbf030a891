//! A clause more between two searches: back to before all decisions, and the clause is watched.

ghost use Rattle.std.specs.Prelude.{◌≡◌, ◌+◌, ◌-◌, ◌<◌, ◌^◌, ◌∷◌, ◌++◌, [], length, IsTrue, OnOk, IfOk, MatchBool};
ghost use Rattle.chain_check.specs.Clauses.{AreLiterals};
ghost use Rattle.sat_core.specs.Solvers.{IsReady, GoesOn, IsConflict};
ghost use Rattle.sat_core.specs.Searches.{IsSound};
ghost use Rattle.sat_core.specs.Sessions.{Excludes};
ghost use Rattle.sat_core.specs.Watches.{IsWatching};

use crate::solver::Solver;
use crate::solving::Search;
use crate::watches::{Watches, replacement};
use chain_check::Literal;
use hy_base::M;
use std::alloc::Global;

/// A solver has at most as many clauses.
const MOST_CLAUSES: usize = 4_294_967_294;

impl Solver {
    /// Whether there is room for one more clause.
    pub(crate) fn has_room(&self) -> bool
        ensures { IsTrue result → length self.now.clauses + 1 < 2 ^ 32 - 1 }
    {
        self.clauses.len() < MOST_CLAUSES
    }

    /// Watches the clause at `place` before all decisions, or makes its last open literal true, in
    /// time linear in the clause. False where all its literals are false.
    pub(crate) fn enter(&mut self, watches: &mut Watches, place: usize) -> M<bool>
        requires ready { IsReady self.old }
        requires place { place < length self.old.clauses }
        requires no_limits { self.old.limits.items ≡ [] }
        requires watching { IsWatching self.old watches.old.done watches.old.pairs.items
            watches.old.lists }
        requires next { length watches.old.pairs.items ≡ place }
        ensures ready { OnOk result (IsReady self.new) }
        ensures goes_on { OnOk result (GoesOn self.old self.new) }
        ensures watching { IfOk result (λ entered. MatchBool entered (IsWatching self.new
            watches.new.done watches.new.pairs.items watches.new.lists
            × (length watches.new.pairs.items ≡ place + 1))
            (IsConflict self.new (place + 1))) }
    {
        let clause = self.clauses.clause(place);
        let Some(first) = replacement(&self.partial, clause, Literal::new(0)) else {
            return Ok(false);
        };
        if let Some(second) = replacement(&self.partial, clause, first) {
            watches.add(first, second)?;
            return Ok(true);
        }
        watches.add_fixed(first)?;
        if !self.partial.is_true(first) {
            self.imply(first, place as u32 + 1)?;
        }
        Ok(true)
    }
}

impl Search {
    /// Goes back to before all decisions, in time linear in what they made true.
    pub(crate) fn rewind(&mut self)
        requires { IsSound self.old }
        ensures sound { IsSound self.new }
        ensures no_limits { self.new.solver.limits.items ≡ [] }
        ensures clauses { self.new.solver.clauses ≡ self.old.solver.clauses }
        ensures variables { self.new.solver.partial.variables ≡ self.old.solver.partial.variables }
    {
        if !self.solver.limits.is_empty() {
            self.solver.back(&mut self.order, 0);
            self.watches.done = self.solver.partial.len();
        }
    }

    /// Adds a clause last, in time linear in it and in what decisions made true. False where it has
    /// only literals that are false without decisions: then nothing is watched any more.
    pub(crate) fn add(&mut self, clause: &[i32]) -> M<bool>
        requires sound { IsSound self.old }
        requires right { AreLiterals self.old.solver.partial.variables clause.now }
        requires room { length self.old.solver.clauses + 1 < 2 ^ 32 - 1 }
        ensures sound { IfOk result (λ entered. MatchBool entered (IsSound self.new)
            (Excludes self.new.solver.clauses [])) }
        ensures clauses { OnOk result (self.new.solver.clauses
            ≡ self.old.solver.clauses ++ clause.now ∷ []) }
        ensures variables { OnOk result (self.new.solver.partial.variables
            ≡ self.old.solver.partial.variables) }
    {
        self.rewind();
        let place = self.solver.clauses.len();
        self.solver.clauses.add(clause)?;
        self.solver.enter(&mut self.watches, place)
    }
}
