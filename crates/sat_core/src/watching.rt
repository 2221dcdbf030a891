//! Propagation by two watched literals a clause: a clause is looked at only where one of its pair
//! becomes false.

ghost use Rattle.std.specs.Prelude.{◌≡◌, ◌+◌, ◌*◌, ◌<◌, [], ⊤, suc, neg_ℤ, Contains, length, slice_index_or, OnOk, IfOk, MatchOption, MatchBool};
ghost use Rattle.chain_check.specs.Clauses.{IsLiteral};
ghost use Rattle.sat_core.specs.Trails.{AreSettled};
ghost use Rattle.sat_core.specs.Solvers.{IsReady, GoesOn, IsConflict};
ghost use Rattle.sat_core.specs.Watches.{IsWatching, StandsAt, no_pair};
ghost use Rattle.sat_core.specs.Visits.{IsVisit};

use crate::lists::remove_at;
use crate::solver::Solver;
use crate::watches::{Watches, replacement};
use chain_check::Literal;
use hy_base::M;
use std::alloc::Global;

/// What a visit to a clause did.
#[derive(Clone, Copy)]
pub enum Visit {
    /// The clause is true, and keeps its pair.
    Kept,
    /// The clause has another pair, without the literal that became false.
    Moved,
    /// The clause has only false literals.
    Conflict,
}

impl Solver {
    /// Watches all clauses, and makes true what a clause has to have true before any decision. The
    /// number of a clause with only false literals.
    pub(crate) fn watch_all(&mut self, watches: &mut Watches) -> M<Option<u32>>
        requires ready { IsReady self.old }
        requires no_limits { self.old.limits.items ≡ [] }
        requires watching { IsWatching self.old watches.old.done watches.old.pairs.items
            watches.old.lists }
        requires none { watches.old.pairs.items ≡ [] }
        requires start { watches.old.done ≡ 0 }
        ensures ready { OnOk result (IsReady self.new) }
        ensures goes_on { OnOk result (GoesOn self.old self.new) }
        ensures watching { IfOk result (λ found. MatchOption found (IsWatching self.new
            watches.new.done watches.new.pairs.items watches.new.lists
            × (length watches.new.pairs.items ≡ length self.new.clauses))
            (λ k. IsConflict self.new k)) }
    {
        for place in 0..self.clauses.len() {
            if !self.watch(watches, place)? {
                return Ok(Some(place as u32 + 1));
            }
        }
        Ok(None)
    }

    /// Watches the clause at `place`, or makes its last open literal true. False where all its
    /// literals are false.
    fn watch(&mut self, watches: &mut Watches, place: usize) -> M<bool>
        requires ready { IsReady self.old }
        requires place { place < length self.old.clauses }
        requires no_limits { self.old.limits.items ≡ [] }
        requires watching { IsWatching self.old 0 watches.old.pairs.items watches.old.lists }
        requires next { length watches.old.pairs.items ≡ place }
        ensures ready { OnOk result (IsReady self.new) }
        ensures goes_on { OnOk result (GoesOn self.old self.new) }
        ensures done { OnOk result (watches.new.done ≡ watches.old.done) }
        ensures watching { IfOk result (λ watched. MatchBool watched (IsWatching self.new
            0 watches.new.pairs.items watches.new.lists
            × (length watches.new.pairs.items ≡ place + 1))
            (IsConflict self.new (place + 1))) }
    {
        let clause = self.clauses.clause(place);
        let Some(first) = clause.first() else {
            return Ok(false);
        };
        let first = *first;
        if let Some(m) = replacement(&self.partial, clause, first) {
            watches.add(first, m)?;
            return Ok(true);
        }
        if self.partial.is_false(first) {
            return Ok(false);
        }
        watches.add_fixed(first)?;
        if !self.partial.is_true(first) {
            self.imply(first, place as u32 + 1)?;
        }
        Ok(true)
    }

    /// Looks at the clause at `place`, of whose pair `l` has become false.
    pub(crate) fn visit(&mut self, watches: &mut Watches, place: u32, l: Literal) -> M<Visit>
        requires ready { IsReady self.old }
        requires place { place < length self.old.clauses }
        requires long { place < length watches.old.pairs.items }
        requires sized { 2 * self.old.partial.variables + 1 < length watches.old.lists }
        requires first { Contains (slice_index_or self.old.clauses place [])
            (slice_index_or watches.old.pairs.items place no_pair).first }
        requires second { Contains (slice_index_or self.old.clauses place [])
            (slice_index_or watches.old.pairs.items place no_pair).second }
        ensures ready { OnOk result (IsReady self.new) }
        ensures goes_on { OnOk result (GoesOn self.old self.new) }
        ensures done { OnOk result (watches.new.done ≡ watches.old.done) }
        ensures visit { IfOk result (λ v. IsVisit self.old self.new watches.old watches.new place l
            v) }
    {
        let other = watches.other(place, l);
        if self.partial.is_true(other) {
            return Ok(Visit::Kept);
        }
        match watches.find(
            &self.partial,
            self.clauses.clause(place as usize),
            place,
            other,
        ) {
            Some(found) => {
                watches.replace(place, other, found)?;
                Ok(Visit::Moved)
            }
            None => {
                if self.partial.is_false(other) {
                    return Ok(Visit::Conflict);
                }
                self.imply(other, place + 1)?;
                Ok(Visit::Kept)
            }
        }
    }

    /// Looks at the clauses that watch `l`, which is false at the next place of the trail. The
    /// number of one with only false literals.
    pub(crate) fn pass(
        &mut self,
        alloc: Global,
        watches: &mut Watches,
        l: Literal,
    ) -> M<Option<u32>>
        requires ready { IsReady self.old }
        requires watching { IsWatching self.old watches.old.done watches.old.pairs.items
            watches.old.lists }
        requires right { IsLiteral self.old.partial.variables l }
        requires at { StandsAt self.old.partial.literals (neg_ℤ l) watches.old.done }
        ensures ready { OnOk result (IsReady self.new) }
        ensures goes_on { OnOk result (GoesOn self.old self.new) }
        ensures done { OnOk result (watches.new.done ≡ watches.old.done) }
        ensures long { OnOk result (length watches.new.pairs.items ≡ length watches.old.pairs.items) }
        ensures watching { IfOk result (λ found. MatchOption found
            (IsWatching self.new (suc watches.old.done) watches.new.pairs.items watches.new.lists)
            (λ k. IsConflict self.new k
            × IsWatching self.new watches.old.done watches.new.pairs.items watches.new.lists)) }
    {
        let mut list = watches.lists.take(alloc, l);
        let mut i = 0;
        'visits: while i < list.len() {
            let place = *list.at(i);
            match self.visit(watches, place, l)? {
                Visit::Kept => i += 1,
                Visit::Moved => remove_at(&mut list, i),
                Visit::Conflict => {
                    watches.lists.put(l, list);
                    return Ok(Some(place + 1));
                }
            }
        }
        watches.lists.put(l, list);
        Ok(None)
    }

    /// Makes true what follows by single clauses. The number of a clause with only false literals,
    /// or none, where each clause has a true literal or two that are not false.
    pub(crate) fn propagate(&mut self, alloc: Global, watches: &mut Watches) -> M<Option<u32>>
        requires ready { IsReady self.old }
        requires watching { IsWatching self.old watches.old.done watches.old.pairs.items
            watches.old.lists }
        requires long { length watches.old.pairs.items ≡ length self.old.clauses }
        ensures ready { OnOk result (IsReady self.new) }
        ensures goes_on { OnOk result (GoesOn self.old self.new) }
        ensures watching { OnOk result (IsWatching self.new watches.new.done watches.new.pairs.items
            watches.new.lists) }
        ensures long { OnOk result (length watches.new.pairs.items ≡ length self.new.clauses) }
        ensures done { IfOk result (λ found. MatchOption found
            (watches.new.done ≡ length self.new.partial.literals) (λ _. ⊤)) }
        ensures found { IfOk result (λ found. MatchOption found
            (AreSettled self.new.clauses self.new.partial.literals)
            (λ k. IsConflict self.new k)) }
    {
        'places: while watches.done < self.partial.len() {
            let l = self.partial.at(watches.done).opposite();
            match self.pass(alloc, watches, l)? {
                Some(number) => return Ok(Some(number)),
                None => watches.done += 1,
            }
        }
        Ok(None)
    }
}
