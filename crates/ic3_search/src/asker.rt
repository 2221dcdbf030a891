//! Queries about a step of a safe net, within a number of calls.

ghost use Rattle.std.specs.Prelude.{◌≡◌, suc, ◌+◌, ◌*◌, ◌<◌, ◌≤◌, ◌^◌, length, IsTrue, IfOk};
ghost use Rattle.aig_net.specs.Nets.{variables};
ghost use Rattle.chain_check.specs.Clauses.{AreLiterals};
ghost use Rattle.cnf_frames.specs.Facts.{AllIn};

use crate::numbers::Numbers;
use crate::question::Question;
use chain_check::{Cnf, Literal};
use cnf_frames::{add_facts, add_frames};
use hy_base::M;
use sat_core::{Reply, Session};
use std::alloc::Global;

/// What a solver may do.
#[derive(Clone, Copy)]
pub struct Budget {
    /// How often it may be called.
    pub calls: u32,
    /// How many clauses a call may learn.
    pub conflicts: u32,
    ghost few: { conflicts < 2 ^ 31 },
}

/// Asks about steps from states that have all facts, within a budget.
#[derive(Drop)]
pub struct Asker {
    /// The clauses of a step, without what was added.
    cnf: Cnf,
    session: Session,
    left: Budget,
    ghost same: { session.variables ≡ cnf.variables },
}

/// The clauses of a step from a state that has all facts, as far as they matter to the target, over
/// so many variables.
fn step_clauses(alloc: Global, question: &Question<'_>, numbers: &Numbers, count: u32) -> M<Cnf>
    requires inside { AllIn (length question.now.safe.now.net.latches) question.now.facts.now }
    requires room { 2 * variables question.now.safe.now.net < 2 ^ 31 }
    requires few { count < 2 ^ 31 }
    ensures { IfOk result (λ cnf. cnf.variables ≡ count) }
{
    let net = &question.safe.net;
    let mut whole = Cnf::new(alloc, 2 * net.variables())?;
    add_frames(&mut whole, net, 1)?;
    add_facts(alloc, &mut whole, net, 0, question.facts.as_slice())?;
    let mut cnf = Cnf::new(alloc, count)?;
    let mut clause = Vec::new(alloc);
    for i in 0..whole.clauses.len() {
        let matters = numbers.translate(whole.clauses.clause(i), &mut clause)?;
        if matters && cnf.takes(clause.as_slice()) {
            cnf.add_literals(clause.as_slice())?;
        }
    }
    Ok(cnf)
}

/// Whether these are literals of the variables.
fn are_literals(literals: &[Literal], variables: u32) -> bool
    ensures { IsTrue result → AreLiterals variables literals.now }
{
    for literal in literals {
        if !literal.is_of(variables as usize) {
            return false;
        }
    }
    true
}

impl Asker {
    /// With as many further variables as there are switches, in time linear in the net and the facts.
    pub(crate) fn new(
        alloc: Global,
        question: &Question<'_>,
        numbers: &Numbers,
        switches: u32,
        budget: Budget,
    ) -> M<Asker>
        requires inside { AllIn (length question.now.safe.now.net.latches) question.now.facts.now }
        requires room { 2 * variables question.now.safe.now.net < 2 ^ 31 }
        requires few { numbers.now.many + switches < 2 ^ 31 }
    {
        let count = numbers.many + switches;
        let cnf = step_clauses(alloc, question, numbers, count)?;
        let session = Session::new(alloc, &cnf)?;
        Ok(Asker {
            cnf,
            session,
            left: budget,
        })
    }

    /// What is left of the budget.
    pub(crate) fn left(&self) -> Budget {
        self.left
    }

    /// Begins anew, without what was added.
    pub(crate) fn renew(&mut self, alloc: Global) -> M<()> {
        self.session = Session::new(alloc, &self.cnf)?;
        Ok(())
    }

    /// Adds a clause, unless one of its literals is of no variable.
    pub(crate) fn add(&mut self, alloc: Global, clause: &[i32]) -> M<()> {
        if self.cnf.takes(clause) {
            self.session.add(alloc, clause)?;
        }
        Ok(())
    }

    /// Asks for values under assumptions. Spent where no call is left.
    pub(crate) fn ask(&mut self, alloc: Global, assumptions: &[Literal]) -> M<Reply> {
        if self.left.calls == 0 || !are_literals(assumptions, self.cnf.variables) {
            return Ok(Reply::Spent);
        }
        self.left.calls -= 1;
        self.session.ask(alloc, assumptions, self.left.conflicts)
    }
}
