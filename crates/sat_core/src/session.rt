//! A solver that is asked many times, with clauses between the asks and assumptions for each.

ghost use Rattle.std.specs.Prelude.{◌≡◌, ◌<◌, ◌^◌, ◌∷◌, ◌++◌, [], IsTrue, OnOk, IfOk};
ghost use Rattle.chain_check.specs.Clauses.{AreLiterals};
ghost use Rattle.sat_core.specs.Sessions.{IsLearned, IsRefutation, IsReply};

use crate::asking::Reply;
use crate::solving::{Search, copied};
use chain_check::{Cnf, Literal};
use hy_base::{List, M, Memory};
use std::alloc::Global;
use std::marker::Model;

/// A solver that keeps its clauses, those that were given and those that it learned, from one ask
/// to the next; contracts see these, and how many variables they are of.
///
/// Where a call was refused for memory, each later one may be, too, and nothing is known of the
/// clauses.
#[derive(Drop)]
pub struct Session {
    search: Search,
    variables: u32,
    /// Whether the search may go on.
    sound: bool,
    /// Whether the clauses can't all be true.
    refuted: bool,
}

impl Model for Session {
    ghost use Rattle.std.specs.Prelude.{◌≡◌};
    ghost use Rattle.chain_check.specs.Known.{Known};

    ghost Value = { Known };

    ghost view = { λ s. record { variables = s.variables; clauses = s.search.solver.clauses } };

    ghost use Rattle.sat_core.specs.Keeping.{IsKept};

    ghost invariant = { IsKept };
}

impl Session {
    /// The clauses, watched; in time and memory linear in the variables and the literals of the
    /// clauses.
    pub fn new(alloc: Global, cnf: &Cnf) -> M<Session>
        ensures variables { IfOk result (λ s. s.variables ≡ cnf.now.variables) }
        ensures clauses { IfOk result (λ s. s.clauses ≡ cnf.now.clauses) }
    {
        Session::owning(alloc, copied(alloc, cnf)?)
    }

    /// As `new`, of clauses that nobody needs any more: the session takes them up, and copies none.
    pub fn owning(alloc: Global, cnf: Cnf) -> M<Session>
        ensures variables { IfOk result (λ s. s.variables ≡ cnf.variables) }
        ensures clauses { IfOk result (λ s. s.clauses ≡ cnf.clauses) }
    {
        let variables = cnf.variables;
        let mut search = Search::new(alloc, cnf)?;
        let refuted = search.solver.watch_all(&mut search.watches)?.is_some();
        Ok(Session {
            search,
            variables,
            sound: !refuted,
            refuted,
        })
    }

    /// Adds a clause last, in time linear in it and in what the last ask made true.
    pub fn add(&mut self, _alloc: Global, clause: &[i32]) -> M<()>
        requires { AreLiterals self.old.variables clause.now }
        ensures variables { self.new.variables ≡ self.old.variables }
        ensures added { OnOk result (self.new.clauses ≡ self.old.clauses ++ clause.now ∷ []) }
    {
        if self.refuted {
            self.sound = false;
            return self.search.solver.clauses.add(clause);
        }
        if !self.sound || !self.search.solver.has_room() {
            return Err(Memory);
        }
        self.sound = false;
        let entered = self.search.add(clause)?;
        self.sound = entered;
        self.refuted = !entered;
        Ok(())
    }

    /// Searches for values that make the clauses and the assumptions true, learning at most
    /// `conflicts` clauses. An ask costs what it propagates and learns; only values cost time linear
    /// in the variables.
    pub fn ask(&mut self, alloc: Global, assumptions: &[Literal], conflicts: u32) -> M<Reply>
        requires right { AreLiterals self.old.variables assumptions.now }
        requires few { conflicts < 2 ^ 31 }
        ensures variables { self.new.variables ≡ self.old.variables }
        ensures learned { OnOk result (IsLearned self.old.clauses self.new.clauses) }
        ensures reply { IfOk result (IsReply self.old.variables self.new.clauses assumptions.now) }
    {
        if self.refuted {
            return Ok(Reply::Core(List::new(alloc)));
        }
        if !self.sound {
            return Err(Memory);
        }
        self.sound = false;
        let reply = self.search.ask(alloc, assumptions, conflicts)?;
        self.refuted = is_refutation(&reply);
        self.sound = true;
        Ok(reply)
    }
}

/// Whether it is the core of no assumption.
fn is_refutation(reply: &Reply) -> bool
    ensures { IsTrue result → IsRefutation reply.now }
{
    match reply {
        Reply::Core(core) => core.len() == 0,
        _ => false,
    }
}
