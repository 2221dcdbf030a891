//! Whether a path of a safe net reaches `bad`.

ghost use Rattle.std.specs.Prelude.{◌<◌, ◌^◌, IfErr, IfOk, IfSome};
ghost use Rattle.cnf_frames.specs.Facts.{IsSafe};
ghost use Rattle.k_induct.specs.Verdicts.{IsShortest};
ghost use Rattle.mc_core.specs.Answers.{IsWorkRefusal};
ghost use Rattle.mc_core.specs.Decisions.{IsDecision};

use crate::ask::Ask;
use crate::decision::Decision;
use crate::mc_error::McError;
use crate::proving::{facts_for, whole_proof};
use crate::searching::{decide_early, search};
use cnf_frames::FrameError;
use hy_base::{M, Memory};
use k_induct::{Shortest, Verdict, prove, shortest};
use live_safe::{Path, SafeNet};
use std::alloc::Global;

/// How many steps a path has at most that is looked for before facts are.
const SHORT: u32 = 4;

/// A shortest path to `bad`, if one has few steps. None also where a query for it is past a limit or
/// spends the conflicts.
fn short_path(alloc: Global, safe: &SafeNet, ask: &Ask) -> M<Option<Path>>
    requires good { IsSafe safe.now }
    requires conflicts { ask.now.conflicts < 2 ^ 31 }
    ensures { IfOk result (λ found. IfSome found (IsShortest safe.now ask.now.depth)) }
{
    match shortest(alloc, safe, ask.depth.min(SHORT), ask.conflicts) {
        Ok(Shortest::Path(path)) => Ok(Some(path)),
        Ok(_) | Err(FrameError::Limit(_)) => Ok(None),
        Err(FrameError::Memory) => Err(Memory),
    }
}

/// Decides it by a path of few steps, or else by facts and induction. If calls of the solver are
/// asked for, facts about all latches are tried before that, and clauses that a search finds behind
/// them with a third of the calls; and where induction leaves it open, a search with all of them.
pub fn decide(alloc: Global, safe: &SafeNet, ask: &Ask) -> Result<Decision, McError>
    requires good { IsSafe safe.now }
    requires conflicts { ask.now.conflicts < 2 ^ 31 }
    ensures decided { IfOk result (IsDecision safe.now ask.now) }
    ensures refused { IfErr result (IsWorkRefusal safe.now ask.now) }
{
    if let Some(path) = short_path(alloc, safe, ask)? {
        return Ok(Decision::Path(path));
    }
    if let Some(decision) = decide_early(alloc, safe, ask)? {
        return Ok(decision);
    }
    let kept = facts_for(alloc, safe, ask)?;
    match prove(alloc, safe, &kept.inv, ask.depth, ask.conflicts) {
        Ok(Verdict::Safe(proof)) => Ok(Decision::Safe(whole_proof(kept, proof))),
        Ok(Verdict::Path(path)) => Ok(Decision::Path(path)),
        Ok(Verdict::Depth(path)) => match search(alloc, safe, &kept.inv, ask, ask.calls)? {
            Some(decision) => Ok(decision),
            None => Ok(Decision::Depth { kept, path }),
        },
        Ok(Verdict::Spent { k, step, log }) => {
            match search(alloc, safe, &kept.inv, ask, ask.calls)? {
                Some(decision) => Ok(decision),
                None => Ok(Decision::Spent { k, step, kept, log }),
            }
        }
        Err(FrameError::Limit(limit)) => Err(McError::CnfLimit {
            kind: limit.kind,
            limit: limit.limit,
            kept,
        }),
        Err(FrameError::Memory) => Err(McError::Memory),
    }
}
