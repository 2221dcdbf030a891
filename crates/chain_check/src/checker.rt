//! The checker of logs: each learned clause is tried by its own chain, one after the other.

ghost use Rattle.std.specs.Prelude.{◌≡◌, ◌<◌, ◌≤◌, ◌^◌, ◌++◌, ◌∷◌, ◌↔◌, [], IfOk, OnOk, OnErr, IsTrue};
ghost use Rattle.chain_check.specs.Chains.{Follows};
ghost use Rattle.chain_check.specs.Logs.{IsPassed};

use crate::clauses::{Clauses, Cnf};
use crate::following::follows;
use crate::logs::Log;
use crate::partial::Partial;
use hy_base::M;
use std::alloc::Global;
use std::marker::Model;

/// Clauses that are known, the given ones and then those that followed; contracts see these, and how
/// many variables they are of.
#[derive(Drop)]
pub struct Checker<'a> {
    given: &'a Clauses,
    learned: Clauses,
    partial: Partial,
}

impl<'a> Model for Checker<'a> {
    ghost use Rattle.std.specs.Prelude.{◌≡◌, ◌++◌, []};
    ghost use Rattle.chain_check.specs.Clauses.{AreClauses};
    ghost use Rattle.chain_check.specs.Known.{Known};

    ghost Value = { Known };

    ghost view = { λ c. record {
      variables = c.partial.variables;
      clauses = c.given.now ++ c.learned;
    } };

    ghost invariant = { λ c. AreClauses c.partial.variables (c.given.now ++ c.learned)
        × (c.partial.literals ≡ []) };
}

impl<'a> Checker<'a> {
    /// Nothing is learned yet. In time and memory linear in the variables.
    pub fn new(alloc: Global, cnf: &'a Cnf) -> M<Checker<'a>>
        ensures { IfOk result (λ checker. checker ≡ record {
          variables = cnf.now.variables;
          clauses = cnf.now.clauses;
        }) }
    {
        Ok(Checker {
            given: &cnf.clauses,
            learned: Clauses::new(alloc),
            partial: Partial::new(alloc, cnf.variables)?,
        })
    }

    /// Begins anew: those known are the clauses that are lent and then `more`, of which the lent ones
    /// may be those of before. Refused for memory it changes nothing. Where there are as many
    /// variables as before it takes no memory and constant time, but for what is let go; else both
    /// are linear in the variables.
    pub fn restart(&mut self, alloc: Global, given: &'a Cnf, more: Cnf) -> M<()>
        requires { given.now.variables ≤ more.variables }
        ensures started { OnOk result (self.new ≡ record {
          variables = more.variables;
          clauses = given.now.clauses ++ more.clauses;
        }) }
        ensures refused { OnErr result (self.new ≡ self.old) }
    {
        renew(alloc, &mut self.partial, more.variables)?;
        self.given = &given.clauses;
        self.learned = more.clauses;
        Ok(())
    }

    /// Whether the clause follows by its chain from those known, which are numbered from 1. Where it
    /// does, it is learned: it is known from now on, as the last one. Else, and refused for memory,
    /// nothing changes. In time linear in the clause and in the sizes of the clauses of the chain.
    pub fn next(&mut self, clause: &[i32], chain: &[u32]) -> M<bool>
        ensures exact { IfOk result (λ yes. IsTrue yes ↔
            Follows self.old.variables self.old.clauses clause.now chain.now) }
        ensures learned { IfOk result (λ yes. IsTrue yes →
            self.new ≡ record self.old { clauses = self.old.clauses ++ clause.now ∷ [] }) }
        ensures kept { IfOk result (λ yes. ¬ IsTrue yes → self.new ≡ self.old) }
        ensures refused { OnErr result (self.new ≡ self.old) }
    {
        let tried = follows(&mut self.partial, self.given, &self.learned, clause, chain);
        self.partial.clear();
        if !tried? {
            return Ok(false);
        }
        self.learned.add(clause)?;
        Ok(true)
    }
}

/// Makes an assignment by which nothing is true one of so many variables. Refused for memory it
/// changes nothing. Takes no memory where it is one.
fn renew(alloc: Global, partial: &mut Partial, variables: u32) -> M<()>
    requires few { variables < 2 ^ 31 }
    requires none { partial.old.literals ≡ [] }
    ensures made { OnOk result (partial.new ≡ record { variables = variables; literals = [] }) }
    ensures refused { OnErr result (partial.new ≡ partial.old) }
{
    if partial.variables() != variables as usize {
        *partial = Partial::new(alloc, variables)?;
    }
    Ok(())
}

/// Whether each clause of the log follows by its chain, in time linear in the variables, the
/// clauses of the log, and the sizes of the clauses of their chains.
pub fn check(alloc: Global, cnf: &Cnf, log: &Log) -> M<bool>
    ensures { IfOk result (λ yes. IsTrue yes ↔ IsPassed cnf.now.variables cnf.now.clauses log.now) }
{
    let mut checker = Checker::new(alloc, cnf)?;
    for entry in log.as_slice() {
        if !checker.next(entry.clause.as_slice(), entry.chain.as_slice())? {
            return Ok(false);
        }
    }
    Ok(true)
}
