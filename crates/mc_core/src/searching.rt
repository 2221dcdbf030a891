//! What a search for clauses decides: a proof, or a path.

ghost use Rattle.std.specs.Prelude.{◌≡◌, ◌<◌, ◌≤◌, ◌^◌, length, IfOk, IfSome};
ghost use Rattle.cnf_frames.specs.Facts.{AllIn, IsSafe};
ghost use Rattle.cnf_frames.specs.declared.queries.Asked.TheVariants.{Base};
ghost use Rattle.k_induct.specs.Replies.{IsAnswer};
ghost use Rattle.mc_core.specs.Answers.{IsProved, IsUsable};
ghost use Rattle.mc_core.specs.Decisions.{HasNoBadPath, IsDecision};

use crate::ask::Ask;
use crate::decision::Decision;
use crate::proving::whole_proof;
use cnf_frames::{FrameError, InductionProof, Inv};
use hy_base::{M, Memory, Remake};
use ic3_search::{classes_of, find_clauses};
use invar_find::{Kept, invariants_of};
use k_induct::{Reply, Verdict, ask_base, prove};
use live_safe::{Path, SafeNet};
use std::alloc::Global;

/// How many candidates there may be.
const MOST_CANDIDATES: usize = 137_438_953_471;

/// How many steps a path may have that is asked for since a search met it.
const MOST_STEPS: u32 = 100_000;

/// The inductive ones of these candidates. None where they are too many or a query is past a limit.
fn kept_of(alloc: Global, safe: &SafeNet, candidates: &Inv, ask: &Ask) -> M<Option<Kept>>
    requires safe { IsSafe safe.now }
    requires inside { AllIn (length safe.now.net.latches) candidates.now }
    requires conflicts { ask.now.conflicts < 2 ^ 31 }
    ensures { IfOk result (λ found. IfSome found (IsUsable safe.now)) }
{
    if MOST_CANDIDATES < candidates.len() {
        return Ok(None);
    }
    match invariants_of(alloc, safe, candidates, ask.conflicts) {
        Ok(kept) => Ok(Some(kept)),
        Err(FrameError::Limit(_)) => Ok(None),
        Err(FrameError::Memory) => Err(Memory),
    }
}

/// The facts, and behind them the clauses.
fn joined(alloc: Global, facts: &Inv, clauses: &Inv, latches: usize) -> M<Inv>
    requires facts { AllIn latches facts.now }
    requires clauses { AllIn latches clauses.now }
    ensures { IfOk result (AllIn latches) }
{
    let mut candidates = facts.copy(alloc)?;
    for clause in clauses.as_slice() {
        candidates.push(clause.remake(alloc)?)?;
    }
    Ok(candidates)
}

/// A proof by what steps keep of these candidates. None where a query is past a limit, or that is not
/// enough.
fn prove_by(alloc: Global, safe: &SafeNet, candidates: &Inv, ask: &Ask) -> M<Option<InductionProof>>
    requires safe { IsSafe safe.now }
    requires inside { AllIn (length safe.now.net.latches) candidates.now }
    requires conflicts { ask.now.conflicts < 2 ^ 31 }
    requires asked { ¬ (ask.now.calls ≡ 0) }
    ensures proved { IfOk result (λ found. IfSome found (IsProved safe.now ask.now)) }
    ensures good { IfOk result (λ found. IfSome found (λ proof. HasNoBadPath safe.now)) }
{
    let Some(kept) = kept_of(alloc, safe, candidates, ask)? else {
        return Ok(None);
    };
    match prove(alloc, safe, &kept.inv, ask.depth, ask.conflicts) {
        Ok(Verdict::Safe(proof)) => Ok(Some(whole_proof(kept, proof))),
        Ok(_) | Err(FrameError::Limit(_)) => Ok(None),
        Err(FrameError::Memory) => Err(Memory),
    }
}

/// A path to `bad` of so many steps. None also where the query for one is past a limit or spends the
/// conflicts.
fn path_of(alloc: Global, safe: &SafeNet, steps: u32, ask: &Ask) -> M<Option<Path>>
    requires safe { IsSafe safe.now }
    requires conflicts { ask.now.conflicts < 2 ^ 31 }
    ensures { IfOk result (λ found. IfSome found (λ path.
        IsAnswer safe.now (Base (length path.inputs)) path)) }
{
    if MOST_STEPS < steps {
        return Ok(None);
    }
    match ask_base(alloc, safe, steps, ask.conflicts) {
        Ok(Reply::Answered(path)) => Ok(Some(path)),
        Ok(_) | Err(FrameError::Limit(_)) => Ok(None),
        Err(FrameError::Memory) => Err(Memory),
    }
}

/// Decides it by clauses that a search finds behind these facts, in at most `calls` calls of the
/// solver, or by a path of the length of one that it meets. None where that comes to none: no call is
/// allowed, nothing was found, a query is past a limit, or what steps keep of the clauses is not
/// enough.
pub fn search(
    alloc: Global,
    safe: &SafeNet,
    facts: &Inv,
    ask: &Ask,
    calls: u32,
) -> M<Option<Decision>>
    requires safe { IsSafe safe.now }
    requires inside { AllIn (length safe.now.net.latches) facts.now }
    requires conflicts { ask.now.conflicts < 2 ^ 31 }
    requires asked { calls ≤ ask.now.calls }
    ensures { IfOk result (λ found. IfSome found (IsDecision safe.now ask.now)) }
{
    if calls == 0 {
        return Ok(None);
    }
    let found = find_clauses(alloc, safe, facts, calls)?;
    if let Some(steps) = found.path {
        let path = path_of(alloc, safe, steps, ask)?;
        return Ok(path.map(Decision::FarPath));
    }
    if found.clauses.is_empty() {
        return Ok(None);
    }
    let candidates = joined(alloc, facts, &found.clauses, safe.net.latches().len())?;
    let proof = prove_by(alloc, safe, &candidates, ask)?;
    Ok(proof.map(Decision::Safe))
}

/// Decides it, if calls of the solver are asked for, by facts of which there are at most as many as
/// latches: in one step, or where that leaves it open by a search with a third of the calls. None
/// also where a query about these facts is past a limit.
pub fn decide_early(alloc: Global, safe: &SafeNet, ask: &Ask) -> M<Option<Decision>>
    requires safe { IsSafe safe.now }
    requires conflicts { ask.now.conflicts < 2 ^ 31 }
    ensures { IfOk result (λ found. IfSome found (IsDecision safe.now ask.now)) }
{
    if ask.calls == 0 {
        return Ok(None);
    }
    let candidates = classes_of(alloc, safe, ask.conflicts)?;
    let Some(kept) = kept_of(alloc, safe, &candidates, ask)? else {
        return Ok(None);
    };
    match prove(alloc, safe, &kept.inv, 0, ask.conflicts) {
        Ok(Verdict::Safe(proof)) => Ok(Some(Decision::Safe(whole_proof(kept, proof)))),
        Ok(Verdict::Depth(_) | Verdict::Spent { .. }) => {
            let third = (ask.calls / 3).max(1);
            search(alloc, safe, &kept.inv, ask, third)
        }
        Ok(Verdict::Path(_)) | Err(FrameError::Limit(_)) => Ok(None),
        Err(FrameError::Memory) => Err(Memory),
    }
}
