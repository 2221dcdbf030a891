//! The lassos that an answer of a query spells, read off the variables of its members.

ghost use Rattle.std.specs.Prelude.{◌≡◌, ℕ, ◌+◌, ◌<◌, ◌≤◌, All, cond, length, IfOk, true};
ghost use Rattle.std.specs.FinSet.{insert};
ghost use Rattle.hy_base.specs.Rows.{listed, row};
ghost use Rattle.chain_check.specs.Values.{AllMet};
ghost use Rattle.bound_search.specs.Bounds.{IsBound};
ghost use Rattle.bound_search.specs.Queries.{cycle_variable, member_clauses};
ghost use Rattle.bound_search.specs.Spelling.{AreMembersRead, IsMemberRead, letter_read};

use crate::bound::Bound;
use crate::layout::{cycles, letters};
use crate::names::place_of;
use hy_base::{List, M, NumList};
use hy_bits::{LetterMask, Letters};
use hy_lasso::{Lasso, LassoList};
use sat_core::Assignment;
use std::alloc::Global;

/// A value for each variable of a query, and where the variables of its members stand.
#[derive(Clone, Copy)]
pub struct Spelling<'a> {
    pub names: &'a NumList,
    pub bound: Bound,
    pub values: &'a Assignment,
}

/// The letter, with the name where `has` says so.
fn with_name(letter: LetterMask, name: u32, has: bool) -> LetterMask
    requires { name < 64 }
    ensures { result ≡ cond has (insert letter name) letter }
{
    if has {
        letter.with(name as usize)
    } else {
        letter
    }
}

impl Spelling<'_> {
    /// The value of a variable, counted from 0; false past the last one.
    fn value(&self, variable: u32) -> bool
        ensures { result ≡ row self.now.values.now variable }
    {
        let place = variable as usize;
        place < self.values.len() && *self.values.at(place)
    }

    /// The letter of member `t` at place `i`, in time of the square of the names.
    fn letter(&self, t: u32, i: u32) -> M<LetterMask>
        requires bound { IsBound self.now.bound }
        requires names { All (λ name. name < 64) self.now.names.now }
        requires place { i < 32 }
        ensures { IfOk result (λ letter. letter ≡
            letter_read (row self.now.values.now) self.now.names.now self.now.bound t i) }
    {
        let mut letter = LetterMask::empty();
        for name in self.names.as_slice() {
            let place = place_of(*name, self.names);
            let start = letters(self.names, self.bound, t, place)?;
            letter = with_name(letter, *name, self.value(start + i));
        }
        Ok(letter)
    }

    /// The letters of member `t` at `count` places from `from` on.
    fn word(&self, alloc: Global, t: u32, from: u32, count: u32) -> M<Letters>
        requires bound { IsBound self.now.bound }
        requires names { All (λ name. name < 64) self.now.names.now }
        requires places { from + count ≤ 32 }
        ensures { IfOk result (λ word. word ≡ listed from count
            (letter_read (row self.now.values.now) self.now.names.now self.now.bound t)) }
    {
        let mut word = List::new(alloc);
        for i in 0..count {
            word.push(self.letter(t, from + i)?)?;
        }
        Ok(word)
    }

    /// The least number for which the cycle of member `t` may have one letter more.
    fn last_of_cycle(&self, t: u32) -> M<u32>
        requires bound { IsBound self.now.bound }
        requires met { AllMet (row self.now.values.now)
            (member_clauses self.now.names.now self.now.bound t) }
        ensures within { IfOk result (λ d. d < self.now.bound.cycle) }
        ensures may_be { IfOk result (λ d. row self.now.values.now
            (cycle_variable self.now.names.now self.now.bound t d) ≡ true) }
    {
        let start = cycles(self.names, self.bound, t)?;
        for d in 0..self.bound.cycle as u32 {
            if self.value(start + d) {
                return Ok(d);
            }
        }
        unreachable!()
    }

    /// The lasso that member `t` spells, in normal form.
    fn member(&self, alloc: Global, t: u32) -> M<Lasso>
        requires bound { IsBound self.now.bound }
        requires names { All (λ name. name < 64) self.now.names.now }
        requires met { AllMet (row self.now.values.now)
            (member_clauses self.now.names.now self.now.bound t) }
        ensures { IfOk result
            (IsMemberRead (row self.now.values.now) self.now.names.now self.now.bound t) }
    {
        let last = self.last_of_cycle(t)?;
        let stem = self.bound.stem as u32;
        let before = self.word(alloc, t, 0, stem)?;
        let round = self.word(alloc, t, stem, last + 1)?;
        let Some(lasso) = Lasso::new(before, round) else {
            unreachable!()
        };
        Ok(lasso.shorten())
    }

    /// The lassos that all members spell, in normal form.
    pub fn members(&self, alloc: Global) -> M<LassoList>
        requires bound { IsBound self.now.bound }
        requires names { All (λ name. name < 64) self.now.names.now }
        requires met { (t : ℕ) → t < self.now.bound.traces → AllMet (row self.now.values.now)
            (member_clauses self.now.names.now self.now.bound t) }
        ensures { IfOk result
            (AreMembersRead (row self.now.values.now) self.now.names.now self.now.bound) }
    {
        let mut list = List::new(alloc);
        for t in 0..self.bound.traces as u32 {
            list.push(self.member(alloc, t)?)?;
        }
        Ok(list)
    }
}
