//! A search under assumptions, which are decided before all else.

ghost use Rattle.std.specs.Prelude.{◌≡◌, ◌<◌, ◌≤◌, ◌-◌, ◌+◌, ◌^◌, ◌∷◌, ◌++◌, [], ℕ, ℤ, ◌⊎◌, length, neg_ℤ, pos, List, Contains, OnOk, IfOk, slice_index_or};
ghost use Rattle.chain_check.specs.Clauses.{IsLiteral, AreLiterals};
ghost use Rattle.sat_core.specs.Trails.{IsOpenIn, AreSettled};
ghost use Rattle.sat_core.specs.Searches.{IsSound};
ghost use Rattle.sat_core.specs.Sessions.{IsLearned, IsReply, IsStepOf, AreFirstTrue, AreAllTrue};

use crate::solving::{Assignment, Search};
use chain_check::{Clause, Literal};
use hy_base::{List, M};
use std::alloc::Global;

/// What a session answers.
#[derive(Drop)]
pub enum Reply {
    /// Every clause and every assumption is true.
    Values(Assignment),
    /// Some of the assumptions, which the clauses do not let be true together.
    Core(Clause),
    /// As many new clauses as were allowed were learned, or there is no room for one more.
    Spent,
}

/// What was done where the clauses say no more.
#[derive(Clone, Copy)]
pub enum Step {
    /// An open literal is true now.
    Decided,
    /// No literal is open, and all assumptions are true.
    Full,
    /// This assumption is false.
    False(Literal),
}

impl Search {
    /// Makes an open literal true.
    fn assume(&mut self, l: Literal) -> M<()>
        requires sound { IsSound self.old }
        requires settled { AreSettled self.old.solver.clauses self.old.solver.partial.literals }
        requires done { self.old.watches.done ≡ length self.old.solver.partial.literals }
        requires right { IsLiteral self.old.solver.partial.variables l }
        requires open_yet { IsOpenIn self.old.solver.partial.literals l }
        ensures sound { OnOk result (IsSound self.new) }
        ensures clauses { OnOk result (self.new.solver.clauses ≡ self.old.solver.clauses) }
        ensures limits { OnOk result (self.new.solver.limits.items
            ≡ self.old.solver.limits.items ++ length self.old.solver.partial.literals ∷ []) }
        ensures pushed { OnOk result (self.new.solver.partial ≡ record self.old.solver.partial
            { literals = self.old.solver.partial.literals ++ l ∷ [] }) }
    {
        self.solver.decide(l)
    }

    /// The place of the first assumption from `passed` on that is not true, or their number.
    fn next_place(&self, assumptions: &[Literal], passed: usize) -> usize
        requires right { AreLiterals self.now.solver.partial.variables assumptions.now }
        requires passed { passed ≤ length assumptions.now }
        requires first { AreFirstTrue self.now.solver.partial.literals assumptions.now passed }
        ensures inside { result ≤ length assumptions.now }
        ensures first { AreFirstTrue self.now.solver.partial.literals assumptions.now result }
        ensures next { result < length assumptions.now → ¬ Contains self.now.solver.partial.literals
            (slice_index_or assumptions.now result (pos 0)) }
    {
        for place in passed..assumptions.len() {
            if !self.solver.partial.is_true(assumptions[place]) {
                return place;
            }
        }
        assumptions.len()
    }

    /// Decides the assumption at `passed`, before which all are true, or where there is none what
    /// the order has.
    fn step(&mut self, assumptions: &[Literal], passed: usize) -> M<Step>
        requires sound { IsSound self.old }
        requires settled { AreSettled self.old.solver.clauses self.old.solver.partial.literals }
        requires done { self.old.watches.done ≡ length self.old.solver.partial.literals }
        requires right { AreLiterals self.old.solver.partial.variables assumptions.now }
        requires first { AreFirstTrue self.old.solver.partial.literals assumptions.now passed }
        requires next { passed < length assumptions.now →
            ¬ Contains self.old.solver.partial.literals
            (slice_index_or assumptions.now passed (pos 0)) }
        ensures { IfOk result (λ step. IsStepOf self.old self.new assumptions.now step) }
    {
        if assumptions.len() <= passed {
            return self.decide_open();
        }
        let l = assumptions[passed];
        if self.solver.partial.is_false(l) {
            return Ok(Step::False(l));
        }
        self.assume(l)?;
        Ok(Step::Decided)
    }

    /// Decides what the order has, where there is an open literal.
    fn decide_open(&mut self) -> M<Step>
        requires sound { IsSound self.old }
        requires settled { AreSettled self.old.solver.clauses self.old.solver.partial.literals }
        requires done { self.old.watches.done ≡ length self.old.solver.partial.literals }
        ensures { IfOk result (λ step. (assumptions : List ℤ) →
            AreAllTrue self.old.solver.partial.literals assumptions →
            IsStepOf self.old self.new assumptions step) }
    {
        match self.solver.choose(&mut self.order) {
            Some(l) => {
                self.assume(l)?;
                Ok(Step::Decided)
            }
            None => Ok(Step::Full),
        }
    }

    /// Searches for values that make the assumptions true, learning at most so many clauses.
    pub(crate) fn ask(&mut self, alloc: Global, assumptions: &[Literal], conflicts: u32) -> M<Reply>
        requires sound { IsSound self.old }
        requires right { AreLiterals self.old.solver.partial.variables assumptions.now }
        requires few { conflicts < 2 ^ 31 }
        ensures sound { OnOk result (IsSound self.new) }
        ensures variables { OnOk result (self.new.solver.partial.variables ≡
            self.old.solver.partial.variables) }
        ensures learned { OnOk result (IsLearned self.old.solver.clauses self.new.solver.clauses) }
        ensures reply { IfOk result (IsReply self.old.solver.partial.variables
            self.new.solver.clauses assumptions.now) }
    {
        self.rewind();
        let mut learned = 0;
        let mut passed = 0;
        'asking: loop {
            match self.propagate(alloc)? {
                Some(number) => {
                    if self.solver.limits.is_empty() {
                        return Ok(Reply::Core(List::new(alloc)));
                    }
                    if learned == conflicts || !self.solver.has_room() {
                        return Ok(Reply::Spent);
                    }
                    self.learn(alloc, number)?;
                    learned += 1;
                    passed = 0;
                }
                None => {
                    passed = self.next_place(assumptions, passed);
                    match self.step(assumptions, passed)? {
                        Step::Decided => {}
                        Step::Full => return Ok(Reply::Values(self.solver.values(alloc)?)),
                        Step::False(l) => {
                            let core = self
                                .solver
                                .core_of(alloc, &mut self.analysis.seen, assumptions, l)?;
                            return Ok(Reply::Core(core));
                        }
                    }
                }
            }
        }
    }
}
