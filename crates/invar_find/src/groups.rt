//! The queries of groups of facts, whose clauses of the frames and of all facts are made once.

ghost use Rattle.std.specs.Prelude.{◌≡◌, ◌<◌, ◌≤◌, ◌^◌, ◌∷◌, ◌++◌, [], length, MatchOption, OnOk, IfOk, IfErr, IfSome};
ghost use Rattle.cnf_frames.specs.declared.queries.Asked.TheVariants.{Keep};
ghost use Rattle.cnf_frames.specs.Facts.{AllIn, IsSafe};
ghost use Rattle.cnf_frames.specs.Fronts.{IsKeepFront};
ghost use Rattle.cnf_frames.specs.Queries.{IsRefusal, IsWithin, groups};
ghost use Rattle.cnf_frames.specs.Proofs.{IsRefuted};
ghost use Rattle.invar_find.specs.Kepts.{IsStoppedAt};
ghost use Rattle.invar_find.specs.Searches.{IsKeepQuery, IsSearching};

use crate::kept::{SpentGroup, SpentList};
use crate::leaving::walked;
use crate::left::{inputs_of, outside, state_after};
use crate::trial::Trial;
use chain_check::{Clauses, Cnf, Literal, Log};
use cnf_frames::{FrameError, Inv, KeepFront, keep_front, keep_rest};
use hy_base::M;
use live_safe::SafeNet;
use sat_core::{Outcome, solve_owned};
use std::alloc::Global;
use std::mem;

/// What the keep queries of the facts begin with, made where it is not kept.
pub fn front_of(
    alloc: Global,
    safe: &SafeNet,
    facts: &Inv,
    kept: Option<KeepFront>,
) -> Result<KeepFront, FrameError>
    requires safe { IsSafe safe.now }
    requires inside { AllIn (length safe.now.net.latches) facts.now }
    requires some { 0 < groups facts.now }
    requires kept { IfSome kept (IsKeepFront safe.now facts.now) }
    ensures front { IfOk result (IsKeepFront safe.now facts.now) }
    ensures refused { IfErr result (λ e. IsRefusal safe.now (Keep facts.now 0) e) }
{
    match kept {
        Some(front) => Ok(front),
        None => keep_front(alloc, safe, facts),
    }
}

/// Adds a clause last, in time linear in it.
fn add_clause(alloc: Global, clauses: &mut Clauses, clause: &[Literal]) -> M<()>
    ensures { OnOk result (clauses.new ≡ clauses.old ++ clause.now ∷ []) }
{
    let mut numbers = Vec::new(alloc);
    for literal in clause {
        numbers.push(literal.number())?;
    }
    clauses.add(numbers.as_slice())
}

/// The clauses of one list and then those of another, over the variables of the other. In time and
/// memory linear in the literals.
fn joined(alloc: Global, first: &Cnf, then: &Cnf) -> M<Cnf>
    requires variables { first.now.variables ≤ then.now.variables }
    requires few { length (first.now.clauses ++ then.now.clauses) < 2 ^ 31 }
    ensures variables { IfOk result (λ cnf. cnf.variables ≡ then.now.variables) }
    ensures clauses { IfOk result (λ cnf. cnf.clauses ≡ first.now.clauses ++ then.now.clauses) }
{
    let mut clauses = first.clauses.copy(alloc)?;
    for i in 0..then.clauses.len() {
        add_clause(alloc, &mut clauses, then.clauses.clause(i))?;
    }
    Ok(Cnf {
        variables: then.variables,
        clauses,
    })
}

/// The clauses of the query of a group, of which those of the front are copied.
fn keep_clauses(
    alloc: Global,
    safe: &SafeNet,
    facts: &Inv,
    front: &KeepFront,
    group: u32,
) -> Result<Cnf, FrameError>
    requires safe { IsSafe safe.now }
    requires inside { AllIn (length safe.now.net.latches) facts.now }
    requires front { IsKeepFront safe.now facts.now front.now }
    requires group { group < groups facts.now }
    ensures query { IfOk result (IsKeepQuery safe.now facts.now group) }
    ensures refused { IfErr result (λ e. IsRefusal safe.now (Keep facts.now group) e) }
{
    let rest = keep_rest(alloc, safe, facts, front, group)?;
    let cnf = joined(alloc, &front.cnf, &rest)?;
    Ok(cnf)
}

/// Asks whether a step breaks a fact of the group: a refutation, or none where facts were left out,
/// all that some step breaks, or the group, on whose query the conflicts were spent.
pub fn ask_group(
    alloc: Global,
    trial: &Trial<'_>,
    front: &KeepFront,
    facts: &mut Inv,
    spent: &mut SpentList,
    group: u32,
) -> Result<Option<Log>, FrameError>
    requires safe { IsSafe trial.now.safe.now }
    requires searching { IsSearching trial.now.safe.now trial.now.candidates.now
        trial.now.conflicts facts.old spent.old }
    requires front { IsKeepFront trial.now.safe.now facts.old front.now }
    requires group { group < groups facts.old }
    requires conflicts { trial.now.conflicts < 2 ^ 31 }
    ensures searching { OnOk result (IsSearching trial.now.safe.now trial.now.candidates.now
        trial.now.conflicts facts.new spent.new) }
    ensures reply { IfOk result (λ found. MatchOption found (length facts.new < length facts.old)
        (λ log. (facts.new ≡ facts.old)
        × IsRefuted trial.now.safe.now (Keep facts.old group) log
        × IsWithin trial.now.safe.now (Keep facts.old group))) }
    ensures refused { IfErr result (IsStoppedAt trial.now.safe.now trial.now.candidates.now) }
{
    let cnf = keep_clauses(alloc, trial.safe, facts, front, group)?;
    match solve_owned(alloc, cnf, trial.conflicts)? {
        Outcome::Refuted(log) => Ok(Some(log)),
        Outcome::Satisfied(values) => {
            let after = state_after(trial.safe, values.as_slice());
            let inputs = inputs_of(trial.safe, values.as_slice());
            *facts = walked(alloc, trial.safe, facts, after, inputs)?;
            Ok(None)
        }
        Outcome::Spent(log) => {
            let left = outside(alloc, facts, group)?;
            let asked = mem::replace(facts, left);
            spent.push(SpentGroup {
                facts: asked,
                group,
                log,
            })?;
            Ok(None)
        }
    }
}
