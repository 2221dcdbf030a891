//! The search for the greatest inductive part of the candidates.

ghost use Rattle.std.specs.Prelude.{◌≡◌, ◌<◌, ◌≤◌, ◌^◌, [], length, OnOk, IfOk, IfErr};
ghost use Rattle.cnf_frames.specs.Facts.{AllIn, IsSafe};
ghost use Rattle.cnf_frames.specs.Proofs.{AreKeepsWithin, AreKept};
ghost use Rattle.invar_find.specs.Candidates.{candidates};
ghost use Rattle.invar_find.specs.Standing.{AreLeft, start_values};
ghost use Rattle.invar_find.specs.Kepts.{IsKept, IsKeptOf, IsStopped, IsStoppedAt};
ghost use Rattle.invar_find.specs.Searches.{IsSearching};

use crate::candidates::{PAIRED, candidates_in};
use crate::groups::{ask_group, front_of};
use crate::kept::{Kept, SpentList};
use crate::leaving::sifted;
use crate::left::count_latches;
use crate::seen::Seen;
use crate::sifting::walk_first;
use crate::trial::Trial;
use cnf_frames::{FrameError, Inv, LogList};
use hy_base::{List, M};
use live_safe::SafeNet;
use std::alloc::Global;

/// The candidates that are true at the start, but for those that steps are found to break.
fn starting(alloc: Global, trial: &Trial<'_>) -> M<Inv>
    requires safe { IsSafe trial.now.safe.now }
    requires inside { AllIn (length trial.now.safe.now.net.latches) trial.now.candidates.now }
    requires few { length trial.now.candidates.now < 2 ^ 37 }
    requires conflicts { trial.now.conflicts < 2 ^ 31 }
    ensures { IfOk result (λ facts. IsSearching trial.now.safe.now trial.now.candidates.now
        trial.now.conflicts facts []) }
{
    let latches = trial.safe.net.latches().len();
    let zeros = List::filled(alloc, false, latches)?;
    sifted(
        alloc,
        trial.safe,
        trial.candidates,
        zeros.as_slice(),
        trial.conflicts,
    )
}

/// Asks for each group of the facts, and again where facts were left out: the refutations, where
/// none were. What the queries begin with is made anew only where facts were left out.
fn ask_all(
    alloc: Global,
    trial: &Trial<'_>,
    facts: &mut Inv,
    spent: &mut SpentList,
) -> Result<LogList, FrameError>
    requires safe { IsSafe trial.now.safe.now }
    requires searching { IsSearching trial.now.safe.now trial.now.candidates.now
        trial.now.conflicts facts.old spent.old }
    requires conflicts { trial.now.conflicts < 2 ^ 31 }
    ensures searching { OnOk result (IsSearching trial.now.safe.now trial.now.candidates.now
        trial.now.conflicts facts.new spent.new) }
    ensures fewer { OnOk result (length facts.new ≤ length facts.old) }
    ensures kept { IfOk result (λ logs. length facts.new ≡ length facts.old →
        AreKept trial.now.safe.now facts.new logs
        × AreKeepsWithin trial.now.safe.now facts.new) }
    ensures refused { IfErr result (IsStoppedAt trial.now.safe.now trial.now.candidates.now) }
{
    let mut logs = List::new(alloc);
    let mut group = 0;
    let mut kept = None;
    'groups: while 64 * (group as usize) < facts.len() {
        let front = front_of(alloc, trial.safe, facts, kept)?;
        match ask_group(alloc, trial, &front, facts, spent, group)? {
            Some(log) => {
                logs.push(log)?;
                group += 1;
                kept = Some(front);
            }
            None => kept = None,
        }
    }
    Ok(logs)
}

/// Inductive facts: of the candidates those of the greatest inductive list, but for groups on whose
/// query `conflicts` clauses were learned in vain. First come rounds of queries over clauses linear in
/// the net, two for each latch at most, until they leave no more facts out. Each round then asks one
/// query for each 64 facts, over clauses linear in the net and in all facts; a further round is
/// needed only where one left facts out. From where a query leads go walks, 64 at once and each step
/// in time linear in the net, as long as they leave facts out.
///
/// # Errors
///
/// `Limit` where a query has too many variables or literals.
pub fn invariants_of(
    alloc: Global,
    safe: &SafeNet,
    candidates: &Inv,
    conflicts: u32,
) -> Result<Kept, FrameError>
    requires safe { IsSafe safe.now }
    requires inside { AllIn (length safe.now.net.latches) candidates.now }
    requires few { length candidates.now < 2 ^ 37 }
    requires conflicts { conflicts < 2 ^ 31 }
    ensures kept { IfOk result (IsKeptOf safe.now candidates.now conflicts) }
    ensures refused { IfErr result (IsStoppedAt safe.now candidates.now) }
{
    let trial = Trial {
        safe,
        candidates,
        conflicts,
    };
    let mut facts = starting(alloc, &trial)?;
    let mut spent = List::new(alloc);
    'rounds: loop {
        let before = facts.len();
        let logs = ask_all(alloc, &trial, &mut facts, &mut spent)?;
        if facts.len() == before {
            return Ok(Kept {
                inv: facts,
                logs,
                spent,
            });
        }
    }
}

/// The simple candidates that hold at the start, but for those that first walks break.
fn candidates_behind(alloc: Global, safe: &SafeNet, conflicts: u32) -> M<Inv>
    requires safe { IsSafe safe.now }
    requires conflicts { conflicts < 2 ^ 31 }
    ensures { IfOk result (AreLeft safe.now.net (candidates (length safe.now.net.latches))
        (start_values safe.now.net)) }
{
    let latches = count_latches(safe);
    let mut seen = Seen::of_pairs(alloc, latches, latches.min(PAIRED))?;
    let zeros = List::filled(alloc, false, latches as usize)?;
    seen.meet(zeros.as_slice());
    walk_first(alloc, safe, &mut seen, conflicts)?;
    candidates_in(alloc, &seen)
}

/// Inductive facts of the simple candidates: for each latch that it is 0, and that it is 1, and for
/// each two of the first 512 latches that they are equal, and that they differ. As `invariants_of`
/// finds them.
///
/// # Errors
///
/// `Limit` where a query has too many variables or literals.
pub fn invariants(alloc: Global, safe: &SafeNet, conflicts: u32) -> Result<Kept, FrameError>
    requires safe { IsSafe safe.now }
    requires conflicts { conflicts < 2 ^ 31 }
    ensures kept { IfOk result (IsKept safe.now conflicts) }
    ensures refused { IfErr result (IsStopped safe.now) }
{
    safe.net.variables(); // what each net keeps
    let all = candidates_behind(alloc, safe, conflicts)?;
    invariants_of(alloc, safe, &all, conflicts)
}
