//! What is watched: two literals of each clause.

ghost use Rattle.std.specs.Prelude.{◌≡◌, ◌+◌, ◌*◌, ◌<◌, ◌^◌, ◌∷◌, ◌++◌, [], unsigned_abs, length, replicate, slice_index_or, slice_set, MatchOption, IfOk, OnOk};
ghost use Rattle.chain_check.specs.Clauses.{AreLiterals};
ghost use Rattle.sat_core.specs.Lists.{place_of};
ghost use Rattle.sat_core.specs.Watches.{AllFalseBut, IsReplacement, IsOther, AreAdded, no_pair};

use crate::lists::Lists;
use chain_check::{Literal, Partial};
use hy_base::M;
use std::alloc::Global;

/// Two literals of a clause.
#[derive(Clone, Copy)]
pub struct Pair {
    pub first: Literal,
    pub second: Literal,
}

impl Pair {
    /// The one that is watched beside `l`.
    pub fn other(self, l: Literal) -> Literal
        ensures { IsOther self l result }
    {
        if self.first.is(l) {
            self.second
        } else {
            self.first
        }
    }
}

/// A literal that can be watched.
#[derive(Clone, Copy)]
pub struct Found {
    pub literal: Literal,
    /// How many literals of its clause stand before it.
    pub before: u32,
}

/// For each clause its pair, and for each literal the clauses that watch it.
#[derive(Drop)]
pub struct Watches {
    /// By place of a clause, from 0.
    pub pairs: Vec<Pair>,
    /// By literal: the places of the clauses whose pair has it, and maybe others.
    pub lists: Lists,
    /// By place of a clause: how many of its literals stood before the one that was found last. No
    /// proof rests on it.
    starts: Vec<u32>,
    /// How many literals of the trail the pairs are right for.
    pub done: usize,
}

impl Watches {
    /// Nothing is watched yet.
    pub fn new(alloc: Global, variables: usize) -> M<Watches>
        requires { variables < 2 ^ 31 }
        ensures pairs { IfOk result (λ w. w.pairs.items ≡ []) }
        ensures lists { IfOk result (λ w. w.lists ≡ replicate (2 * variables + 2) []) }
        ensures done { IfOk result (λ w. w.done ≡ 0) }
    {
        Ok(Watches {
            pairs: Vec::new(alloc),
            lists: Lists::new(alloc, variables)?,
            starts: Vec::new(alloc),
            done: 0,
        })
    }

    /// Watches two literals for the next clause.
    pub fn add(&mut self, first: Literal, second: Literal) -> M<()>
        requires few { length self.old.pairs.items < 2 ^ 32 }
        requires first { unsigned_abs first < 2 ^ 31 }
        requires first_inside { place_of first < length self.old.lists }
        requires second { unsigned_abs second < 2 ^ 31 }
        requires second_inside { place_of second < length self.old.lists }
        ensures pairs { OnOk result (self.new.pairs.items ≡ self.old.pairs.items
            ++ (record { first = first; second = second }) ∷ []) }
        ensures lists { OnOk result (AreAdded
            (length self.old.pairs.items) first second self.old.lists self.new.lists) }
        ensures done { OnOk result (self.new.done ≡ self.old.done) }
    {
        let place = self.pairs.len() as u32;
        self.pairs.push(Pair { first, second })?;
        self.starts.push(0)?;
        self.lists.push(first, place)?;
        self.lists.push(second, place)
    }

    /// The next clause is true for good, by `l`.
    pub fn add_fixed(&mut self, l: Literal) -> M<()>
        ensures pairs { OnOk result (self.new.pairs.items ≡ self.old.pairs.items
            ++ (record { first = l; second = l }) ∷ []) }
        ensures lists { OnOk result (self.new.lists ≡ self.old.lists) }
        ensures done { OnOk result (self.new.done ≡ self.old.done) }
    {
        self.pairs.push(Pair {
            first: l,
            second: l,
        })?;
        self.starts.push(0)?;
        Ok(())
    }

    /// The literal that is watched beside `l` for the clause at `place`.
    pub fn other(&self, place: u32, l: Literal) -> Literal
        requires { place < length self.now.pairs.items }
        ensures { IsOther (slice_index_or self.now.pairs.items place no_pair) l result }
    {
        self.pairs[place as usize].other(l)
    }

    /// Watches `other` and what was found for the clause at `place`, which some list lets go.
    pub fn replace(&mut self, place: u32, other: Literal, found: Found) -> M<()>
        requires place { place < length self.old.pairs.items }
        requires few { unsigned_abs found.literal < 2 ^ 31 }
        requires inside { place_of found.literal < length self.old.lists }
        ensures pairs { OnOk result (self.new.pairs.items ≡ slice_set self.old.pairs.items place
            (record { first = other; second = found.literal })) }
        ensures lists { OnOk result (self.new.lists ≡ slice_set self.old.lists
            (place_of found.literal)
            (slice_index_or self.old.lists (place_of found.literal) [] ++ place ∷ [])) }
        ensures done { OnOk result (self.new.done ≡ self.old.done) }
    {
        self.pairs[place as usize] = Pair {
            first: other,
            second: found.literal,
        };
        if let Some(start) = self.starts.get_mut(place as usize) {
            *start = found.before;
        }
        self.lists.push(found.literal, place)
    }

    /// As `replacement`, of the clause at `place`: it is looked for from where the last one was found,
    /// so that false literals are passed once and not at each visit.
    pub fn find(
        &self,
        partial: &Partial,
        clause: &[Literal],
        place: u32,
        other: Literal,
    ) -> Option<Found>
        requires { AreLiterals partial.now.variables clause.now }
        ensures { MatchOption result (AllFalseBut partial.now.literals clause.now other)
            (λ found. IsReplacement partial.now.literals clause.now other found.literal) }
    {
        let start = match self.starts.get(place as usize) {
            Some(start) => *start,
            None => 0,
        };
        let from = (start as usize).min(clause.len());
        if let Some(found) = search(partial, &clause[from..], other, start) {
            return Some(found);
        }
        search(partial, &clause[..from], other, 0)
    }
}

/// A literal of the clause that is not false and not `other`. None where all others are false.
pub fn replacement(partial: &Partial, clause: &[Literal], other: Literal) -> Option<Literal>
    requires { AreLiterals partial.now.variables clause.now }
    ensures { MatchOption result (AllFalseBut partial.now.literals clause.now other)
        (λ m. IsReplacement partial.now.literals clause.now other m) }
{
    let found = search(partial, clause, other, 0)?;
    Some(found.literal)
}

/// As `replacement`, of a part of a clause behind its first `before` literals.
fn search(partial: &Partial, part: &[Literal], other: Literal, before: u32) -> Option<Found>
    requires { AreLiterals partial.now.variables part.now }
    ensures { MatchOption result (AllFalseBut partial.now.literals part.now other)
        (λ found. IsReplacement partial.now.literals part.now other found.literal) }
{
    let mut before = before;
    for l in part {
        if !l.is(other) && !partial.is_false(*l) {
            return Some(Found {
                literal: *l,
                before,
            });
        }
        before = before.saturating_add(1);
    }
    None
}
