//! The search from the first clause to the outcome.

ghost use Rattle.std.specs.Prelude.{◌≡◌, ◌<◌, ◌-◌, ◌+◌, ◌^◌, ◌≢◌, ◌∷◌, ◌++◌, [], List, Option, ℤ, ℕ, ⊤, ◌⊎◌, ◌↔◌, IsTrue, IfSome, neg_ℤ, Contains, length, OnOk, IfOk, MatchOption, MatchBool};
ghost use Rattle.chain_check.specs.Clauses.{Clause, IsLiteral, IsNew};
ghost use Rattle.chain_check.specs.Chains.{Follows};
ghost use Rattle.sat_core.specs.Trails.{IsOpenIn, AreSettled};
ghost use Rattle.sat_core.specs.Lessons.{IsTaught};
ghost use Rattle.sat_core.specs.Solvers.{IsReady, GoesOn, IsConflict};
ghost use Rattle.sat_core.specs.Searches.{IsStart, IsSound, IsSearching};
ghost use Rattle.sat_core.specs.Outcomes.{IsOutcome, AreValues};

use crate::analysis::Analysis;
use crate::order::Order;
use crate::solver::Solver;
use crate::watches::Watches;
use chain_check::{Cnf, Learned, Literal, Log, Partial};
use hy_base::{List, M};
use std::alloc::Global;

/// A value for each variable.
pub type Assignment = List<bool>;

/// What a search found.
#[derive(Drop)]
pub enum Outcome {
    /// Every clause is true.
    Satisfied(Assignment),
    /// The log's last clause is empty.
    Refuted(Log),
    /// As many new clauses as were allowed.
    Spent(Log),
}

impl Solver {
    /// Nothing is true yet.
    pub(crate) fn new(alloc: Global, cnf: Cnf) -> M<Solver>
        ensures ready { IfOk result IsReady }
        ensures clauses { IfOk result (λ s. s.clauses ≡ cnf.clauses) }
        ensures none { IfOk result (λ s. s.partial ≡ record
            { variables = cnf.variables; literals = [] }) }
        ensures no_limits { IfOk result (λ s. s.limits.items ≡ []) }
    {
        let partial = Partial::new(alloc, cnf.variables)?;
        let places = vec![in alloc; 0; cnf.variables as usize + 1]?;
        Ok(Solver {
            clauses: cnf.clauses,
            partial,
            reasons: Vec::new(alloc),
            places,
            limits: Vec::new(alloc),
        })
    }

    /// Whether neither the literal nor its opposite is true.
    fn is_open(&self, l: Literal) -> bool
        requires { IsLiteral self.now.partial.variables l }
        ensures { IsTrue result ↔ IsOpenIn self.now.partial.literals l }
    {
        !self.partial.is_true(l) && !self.partial.is_false(l)
    }

    /// A literal that is open, if there is one: the first that the order has, in time linear in the
    /// variables only where it has none.
    pub(crate) fn choose(&self, order: &mut Order) -> Option<Literal>
        requires { IsReady self.now }
        ensures { MatchOption result ((l : ℤ) → IsLiteral self.now.partial.variables l →
            Contains self.now.partial.literals l ⊎ Contains self.now.partial.literals (neg_ℤ l))
            (λ l. IsLiteral self.now.partial.variables l × IsOpenIn self.now.partial.literals l) }
    {
        match self.chosen(order) {
            Some(l) => Some(l),
            None => self.open_literal(),
        }
    }

    /// The first open literal of the order.
    fn chosen(&self, order: &mut Order) -> Option<Literal>
        ensures { IfSome result (λ l. IsLiteral self.now.partial.variables l
            × IsOpenIn self.now.partial.literals l) }
    {
        let variables = self.partial.variables();
        for _turn in 0..variables {
            let l = order.pop()?;
            if l.is_of(variables) && self.is_open(l) {
                return Some(l);
            }
        }
        None
    }

    /// The first open literal of all.
    fn open_literal(&self) -> Option<Literal>
        requires { IsReady self.now }
        ensures { MatchOption result ((l : ℤ) → IsLiteral self.now.partial.variables l →
            Contains self.now.partial.literals l ⊎ Contains self.now.partial.literals (neg_ℤ l))
            (λ l. IsLiteral self.now.partial.variables l × IsOpenIn self.now.partial.literals l) }
    {
        for place in 0..self.partial.variables() {
            let l = Literal::new(place as i32 + 1);
            if !self.partial.is_true(l) && !self.partial.is_false(l) {
                return Some(l);
            }
        }
        None
    }

    /// The value of each variable.
    pub(crate) fn values(&self, alloc: Global) -> M<Assignment>
        requires { IsReady self.now }
        ensures { IfOk result (λ values. AreValues self.now.partial.variables
            self.now.partial.literals values) }
    {
        let mut values = List::new(alloc);
        for place in 0..self.partial.variables() {
            values.push(self.partial.is_true(Literal::new(place as i32 + 1)))?;
        }
        Ok(values)
    }
}

/// A search on its way.
#[derive(Drop)]
pub struct Search {
    pub solver: Solver,
    pub watches: Watches,
    pub analysis: Analysis,
    pub order: Order,
}

impl Search {
    /// Nothing is true or watched yet.
    pub(crate) fn new(alloc: Global, cnf: Cnf) -> M<Search>
        ensures start { IfOk result IsStart }
        ensures clauses { IfOk result (λ s. s.solver.clauses ≡ cnf.clauses) }
        ensures variables { IfOk result (λ s. s.solver.partial.variables ≡ cnf.variables) }
    {
        let variables = cnf.variables as usize;
        Ok(Search {
            solver: Solver::new(alloc, cnf)?,
            watches: Watches::new(alloc, variables)?,
            analysis: Analysis::new(alloc),
            order: Order::new(alloc, variables + 1)?,
        })
    }

    /// Makes true what follows by single clauses. The number of a clause with only false literals,
    /// or none, where each clause has a true literal or two that are not false.
    pub(crate) fn propagate(&mut self, alloc: Global) -> M<Option<u32>>
        requires { IsSound self.old }
        ensures sound { OnOk result (IsSound self.new) }
        ensures goes_on { OnOk result (GoesOn self.old.solver self.new.solver) }
        ensures done { IfOk result (λ found. MatchOption found
            (self.new.watches.done ≡ length self.new.solver.partial.literals) (λ _. ⊤)) }
        ensures found { IfOk result (λ found. MatchOption found
            (AreSettled self.new.solver.clauses self.new.solver.partial.literals)
            (λ k. IsConflict self.new.solver k)) }
    {
        self.solver.propagate(alloc, &mut self.watches)
    }

    /// Makes an open literal true. False where there is none.
    fn decide(&mut self) -> M<bool>
        requires sound { IsSound self.old }
        requires settled { AreSettled self.old.solver.clauses self.old.solver.partial.literals }
        requires done { self.old.watches.done ≡ length self.old.solver.partial.literals }
        ensures sound { IfOk result (λ decided. MatchBool decided
            (IsSound self.new × (self.new.solver.clauses ≡ self.old.solver.clauses)
            × ((l : ℤ) × (self.new.solver.partial ≡ record self.old.solver.partial { literals = self.old.solver.partial.literals ++ l ∷ [] })))
            (IsReady self.new.solver × (self.new.solver ≡ self.old.solver) × ((l : ℤ) → IsLiteral self.new.solver.partial.variables l →
            Contains self.new.solver.partial.literals l ⊎ Contains self.new.solver.partial.literals (neg_ℤ l)))) }
    {
        match self.solver.choose(&mut self.order) {
            Some(l) => {
                self.solver.decide(l)?;
                Ok(true)
            }
            None => Ok(false),
        }
    }

    /// Learns from a conflict.
    pub(crate) fn learn(&mut self, alloc: Global, number: u32) -> M<Learned>
        requires sound { IsSound self.old }
        requires conflict { IsConflict self.old.solver number }
        requires level { 0 < length self.old.solver.limits.items }
        requires room { length self.old.solver.clauses + 1 < 2 ^ 32 - 1 }
        ensures sound { OnOk result (IsSound self.new) }
        ensures variables { OnOk result (self.new.solver.partial.variables ≡
            self.old.solver.partial.variables) }
        ensures clauses { IfOk result (λ e. self.new.solver.clauses ≡ self.old.solver.clauses ++
            e.clause ∷ []) }
        ensures follows { IfOk result (λ e. Follows self.old.solver.partial.variables
            self.old.solver.clauses e.clause e.chain) }
        ensures is_new { IfOk result (λ e. IsNew self.old.solver.clauses e.clause) }
        ensures not_empty { IfOk result (λ e. e.clause ≢ []) }
        ensures taught { IfOk result (λ e. (top : ℤ) × (second : Option ℤ) × (level : ℕ) ×
            IsTaught self.old.solver self.new.solver e.clause top second level) }
    {
        let lesson = self
            .solver
            .learn(alloc, &mut self.analysis, &mut self.order, number)?;
        self.watches.done = self.solver.partial.len() - 1;
        match lesson.second {
            Some(m) => {
                self.watches.add(lesson.top, m)?;
                Ok(lesson.entry)
            }
            None => {
                self.watches.add_fixed(lesson.top)?;
                Ok(lesson.entry)
            }
        }
    }

    /// The outcome of a conflict without decisions: the log with the empty clause behind it.
    fn refuted(&mut self, alloc: Global, log: Log, number: u32) -> M<Outcome>
        requires ready { IsReady self.old.solver }
        requires conflict { IsConflict self.old.solver number }
        requires no_level { length self.old.solver.limits.items ≡ 0 }
        ensures { IfOk result (λ o. (variables : ℕ) (given : List Clause) (conflicts : ℕ) →
            IsSearching variables given conflicts self.old.solver log →
            IsOutcome variables given conflicts o) }
    {
        let mut log = log;
        let entry = self.solver.refute(alloc, &mut self.analysis, number)?;
        log.push(entry)?;
        Ok(Outcome::Refuted(log))
    }

    /// Searches until there is an outcome.
    fn run(&mut self, alloc: Global, conflicts: u32) -> M<Outcome>
        requires few { conflicts < 2 ^ 31 }
        requires few_clauses { length self.old.solver.clauses < 2 ^ 31 }
        requires start { IsStart self.old }
        ensures { IfOk result (λ o. IsOutcome self.old.solver.partial.variables
            self.old.solver.clauses conflicts o) }
    {
        let mut log = List::new(alloc);
        if let Some(number) = self.solver.watch_all(&mut self.watches)? {
            return self.refuted(alloc, log, number);
        }
        'searching: loop {
            match self.propagate(alloc)? {
                Some(number) => {
                    if self.solver.limits.is_empty() {
                        return self.refuted(alloc, log, number);
                    }
                    if log.len() == conflicts as usize {
                        return Ok(Outcome::Spent(log));
                    }
                    let entry = self.learn(alloc, number)?;
                    log.push(entry)?;
                }
                None => {
                    if !self.decide()? {
                        return Ok(Outcome::Satisfied(self.solver.values(alloc)?));
                    }
                }
            }
        }
    }
}

/// Searches for an assignment that makes every clause true, learning at most `conflicts` clauses
/// that are not empty.
pub fn solve(alloc: Global, cnf: &Cnf, conflicts: u32) -> M<Outcome>
    requires { conflicts < 2 ^ 31 }
    ensures { IfOk result (λ o. IsOutcome cnf.now.variables cnf.now.clauses conflicts o) }
{
    solve_owned(alloc, copied(alloc, cnf)?, conflicts)
}

/// Equal clauses over as many variables.
pub(crate) fn copied(alloc: Global, cnf: &Cnf) -> M<Cnf>
    ensures variables { IfOk result (λ copy. copy.variables ≡ cnf.now.variables) }
    ensures clauses { IfOk result (λ copy. copy.clauses ≡ cnf.now.clauses) }
{
    Ok(Cnf {
        variables: cnf.variables,
        clauses: cnf.clauses.copy(alloc)?,
    })
}

/// As `solve`, of clauses that nobody needs any more: the search takes them up, and copies none.
pub fn solve_owned(alloc: Global, cnf: Cnf, conflicts: u32) -> M<Outcome>
    requires { conflicts < 2 ^ 31 }
    ensures { IfOk result (λ o. IsOutcome cnf.variables cnf.clauses conflicts o) }
{
    let mut search = Search::new(alloc, cnf)?;
    search.run(alloc, conflicts)
}
