//! Steps that may break facts, by one session of the solver. What is found is gone again by whoever
//! asked, so nothing is claimed of it.

ghost use Rattle.std.specs.Prelude.{◌≡◌, ◌*◌, ◌<◌, ◌^◌, length, IsTrue, IfOk, IfSome};
ghost use Rattle.aig_net.specs.Nets.{variables};
ghost use Rattle.chain_check.specs.Clauses.{AreLiterals};
ghost use Rattle.cnf_frames.specs.Facts.{AllIn, IsSafe};

use chain_check::{Cnf, Literal};
use cnf_frames::{Inv, add_facts, add_frames};
use hy_base::M;
use live_safe::SafeNet;
use sat_core::{Assignment, Reply, Session};
use std::alloc::Global;

/// Asks for steps from states that have all facts of a list.
#[derive(Drop)]
pub struct Asker {
    session: Session,
    /// Those of two frames.
    pub variables: u32,
    conflicts: u32,
    ghost same: { session.variables ≡ variables },
    ghost few: { conflicts < 2 ^ 31 },
}

/// Whether these are literals of the variables.
fn are_literals(literals: &[Literal], variables: u32) -> bool
    ensures { IsTrue result → AreLiterals variables literals.now }
{
    for literal in literals {
        if !literal.is_of(variables as usize) {
            return false;
        }
    }
    true
}

impl Asker {
    /// Each ask may learn as many clauses as `conflicts`. In time linear in the net and the facts.
    pub fn new(alloc: Global, safe: &SafeNet, facts: &Inv, conflicts: u32) -> M<Asker>
        requires safe { IsSafe safe.now }
        requires inside { AllIn (length safe.now.net.latches) facts.now }
        requires room { 2 * variables safe.now.net < 2 ^ 31 }
        requires conflicts { conflicts < 2 ^ 31 }
        ensures { IfOk result (λ asker. asker.variables ≡ 2 * variables safe.now.net) }
    {
        let variables = 2 * safe.net.variables();
        let mut cnf = Cnf::new(alloc, variables)?;
        add_frames(&mut cnf, &safe.net, 1)?;
        add_facts(alloc, &mut cnf, &safe.net, 0, facts.as_slice())?;
        let session = Session::owning(alloc, cnf)?;
        Ok(Asker {
            session,
            variables,
            conflicts,
        })
    }

    /// The values of such a step that has these literals, if one is found. Once an ask has spent its
    /// conflicts no other learns any, so that many hard ones take no longer than one.
    pub fn ask(&mut self, alloc: Global, assumptions: &[Literal]) -> M<Option<Assignment>>
        ensures variables { self.new.variables ≡ self.old.variables }
        ensures values { IfOk result (λ found. IfSome found (λ values.
            length values ≡ self.old.variables)) }
    {
        if !are_literals(assumptions, self.variables) {
            return Ok(None);
        }
        match self.session.ask(alloc, assumptions, self.conflicts)? {
            Reply::Values(values) => Ok(Some(values)),
            Reply::Spent => {
                self.conflicts = 0;
                Ok(None)
            }
            Reply::Core(_) => Ok(None),
        }
    }
}
