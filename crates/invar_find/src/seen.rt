//! What the states that were met leave of facts.

ghost use Rattle.std.specs.Prelude.{◌≡◌, ◌*◌, ◌<◌, ◌≤◌, ◌^◌, ◌↔◌, [], ℕ, true, false, length, min, IsTrue, IfOk, OnOk};
ghost use Rattle.hy_base.specs.Rows.{row};
ghost use Rattle.cnf_frames.specs.declared.facts.Fact.{Fact};
ghost use Rattle.cnf_frames.specs.Facts.{AllIn, HoldsIn, IsIn, fact_at};
ghost use Rattle.invar_find.specs.Standing.{AllStand, HasAdded, HasMet, IsFresh, IsKnown, IsOf, others_of};

use crate::classes::{differ, join, own_classes, split};
use crate::left::{holds, push_copy};
use cnf_frames::{Fact, Inv};
use hy_base::{List, M, NumList};
use std::alloc::Global;

/// What the states that were met leave of facts. That latches are equal is kept by classes, so a state
/// is met in time linear in the latches and in the facts of other kinds, however many pairs there are.
#[derive(Drop)]
pub struct Seen {
    /// For each latch false, where a fact says that it is 0 and each state has it so.
    pub ones: List<bool>,
    /// For each latch one of those that it may equal: those whose class it shares.
    pub classes: NumList,
    /// The facts that say neither that a latch is 0 nor that two are equal.
    pub others: Inv,
    /// For each of these whether it held in each state.
    pub alive: List<bool>,
    /// Lent to each split of classes.
    pub firsts: NumList,
}

/// Whether no latch that has to be 0 is 1.
fn are_zeros(ones: &[bool], state: &[bool]) -> bool
    requires { length ones.now ≡ length state.now }
    ensures { IsTrue result → (j : ℕ) → j < length state.now → row ones.now j ≡ false →
        row state.now j ≡ false }
{
    for (j, value) in state.iter().enumerate() {
        if *value && !ones[j] {
            return false;
        }
    }
    true
}

/// Notes the latches that are 1.
fn note_ones(ones: &mut List<bool>, state: &[bool])
    requires { length ones.old ≡ length state.now }
    ensures many { length ones.new ≡ length ones.old }
    ensures noted { (j : ℕ) → j < length state.now → (row ones.new j ≡ false)
        ↔ ((row ones.old j ≡ false) × (row state.now j ≡ false)) }
{
    for (j, value) in state.iter().enumerate() {
        if *value {
            ones.set(j, true);
        }
    }
}

/// Whether the facts that are alive hold in a state.
fn all_hold(facts: &[Fact], alive: &[bool], state: &[bool]) -> bool
    requires many { length alive.now ≡ length facts.now }
    requires inside { AllIn (length state.now) facts.now }
    ensures { IsTrue result → (k : ℕ) → k < length facts.now → row alive.now k ≡ true →
        HoldsIn (row state.now) (fact_at facts.now k) }
{
    for (k, fact) in facts.iter().enumerate() {
        if alive[k] && !holds(state, fact) {
            return false;
        }
    }
    true
}

/// Notes the facts that fail in a state.
fn note_failing(facts: &[Fact], alive: &mut List<bool>, state: &[bool])
    requires many { length alive.old ≡ length facts.now }
    requires inside { AllIn (length state.now) facts.now }
    ensures many { length alive.new ≡ length alive.old }
    ensures noted { (k : ℕ) → k < length facts.now → (row alive.new k ≡ true)
        ↔ ((row alive.old k ≡ true) × HoldsIn (row state.now) (fact_at facts.now k)) }
{
    for (k, fact) in facts.iter().enumerate() {
        if !holds(state, fact) {
            alive.set(k, false);
        }
    }
}

impl Seen {
    /// Before any state: of so many latches each may be 0, and all of the first `paired` may be equal.
    pub fn of_pairs(alloc: Global, latches: u32, paired: u32) -> M<Seen>
        requires few { latches < 2 ^ 31 }
        requires paired { paired ≤ latches }
        ensures { IfOk result (IsFresh latches paired) }
    {
        let mut classes = own_classes(alloc, latches)?;
        for j in 0..paired {
            classes.set(j as usize, 0);
        }
        Ok(Seen {
            ones: List::filled(alloc, false, latches as usize)?,
            classes,
            others: List::new(alloc),
            alive: List::new(alloc),
            firsts: List::filled(alloc, 0, 2 * latches as usize)?,
        })
    }

    /// Before any state, of so many latches, without facts.
    fn without_facts(alloc: Global, latches: u32) -> M<Seen>
        requires { latches < 2 ^ 31 }
        ensures of { IfOk result (IsOf latches) }
        ensures none { IfOk result (λ seen. seen.others ≡ []) }
    {
        Ok(Seen {
            ones: List::filled(alloc, true, latches as usize)?,
            classes: own_classes(alloc, latches)?,
            others: List::new(alloc),
            alive: List::new(alloc),
            firsts: List::filled(alloc, 0, 2 * latches as usize)?,
        })
    }

    /// Adds a fact, before any state, and what it implies with the others. In time linear in the
    /// latches where it makes two classes one, and else in the fact.
    fn add(&mut self, alloc: Global, fact: &Fact) -> M<()>
        requires of { IsOf (length self.old.ones) self.old }
        requires inside { IsIn (length self.old.ones) fact.now }
        ensures { OnOk result (HasAdded (length self.old.ones) self.old self.new fact.now) }
    {
        match fact {
            Fact::Zero(j) => {
                self.ones.set(*j as usize, false);
                Ok(())
            }
            Fact::Same(i, j) => {
                join(&mut self.classes, *i, *j);
                Ok(())
            }
            _ => {
                push_copy(alloc, &mut self.others, fact)?;
                self.alive.push(true)
            }
        }
    }

    /// Before any state: what is left are these facts, and those that these imply. In time linear in
    /// the facts, and in the latches for each that equals one before it.
    pub fn of_facts(alloc: Global, facts: &Inv, latches: u32) -> M<Seen>
        requires few { latches < 2 ^ 31 }
        requires inside { AllIn latches facts.now }
        ensures of { IfOk result (IsOf latches) }
        ensures others { IfOk result (λ seen. seen.others ≡ others_of facts.now) }
        ensures stand { IfOk result (λ seen. AllStand seen facts.now) }
    {
        let mut seen = Seen::without_facts(alloc, latches)?;
        for fact in facts.as_slice() {
            seen.add(alloc, fact)?;
        }
        Ok(seen)
    }

    /// Whether a state has all facts that are left.
    pub fn is_known(&self, state: &[bool]) -> bool
        requires { IsOf (length state.now) self.now }
        ensures { IsTrue result → IsKnown (length state.now) self.now (row state.now) }
    {
        if !are_zeros(self.ones.as_slice(), state) {
            return false;
        }
        if differ(self.classes.as_slice(), state) {
            return false;
        }
        all_hold(self.others.as_slice(), self.alive.as_slice(), state)
    }

    /// Leaves out the facts that fail in a state. Whether some did.
    pub fn meet(&mut self, state: &[bool]) -> bool
        requires { IsOf (length state.now) self.old }
        ensures { HasMet (length state.now) self.old self.new (row state.now) }
    {
        if self.is_known(state) {
            return false;
        }
        note_ones(&mut self.ones, state);
        split(&mut self.classes, state, &mut self.firsts);
        note_failing(self.others.as_slice(), &mut self.alive, state);
        true
    }
}
