//! The facts of a proof by induction, and what it is made of.

ghost use Rattle.std.specs.Prelude.{◌≡◌, ◌<◌, ◌^◌, IfErr, IfOk};
ghost use Rattle.cnf_frames.specs.Facts.{IsSafe};
ghost use Rattle.cnf_frames.specs.ProofTexts.{AreSimple};
ghost use Rattle.mc_core.specs.Answers.{IsKept, IsUsable, IsWorkRefusal, whole_proof};

use crate::ask::Ask;
use crate::mc_error::McError;
use cnf_frames::{FrameError, InductionProof};
use hy_base::List;
use invar_find::{Kept, invariants};
use k_induct::SafeProof;
use live_safe::SafeNet;
use std::alloc::Global;

/// The facts that are used: none where they are not asked for.
pub fn facts_for(alloc: Global, safe: &SafeNet, ask: &Ask) -> Result<Kept, McError>
    requires good { IsSafe safe.now }
    requires conflicts { ask.now.conflicts < 2 ^ 31 }
    ensures kept { IfOk result (IsKept ask.now.plain safe.now ask.now.conflicts) }
    ensures usable { IfOk result (IsUsable safe.now) }
    ensures simple { IfOk result (λ kept. AreSimple kept.inv) }
    ensures refused { IfErr result (IsWorkRefusal safe.now ask.now) }
{
    if ask.plain {
        return Ok(Kept {
            inv: List::new(alloc),
            logs: List::new(alloc),
            spent: List::new(alloc),
        });
    }
    match invariants(alloc, safe, ask.conflicts) {
        Ok(kept) => Ok(kept),
        Err(FrameError::Limit(limit)) => Err(McError::Limit(limit)),
        Err(FrameError::Memory) => Err(McError::Memory),
    }
}

/// The proof of which these are the facts, and this is what stands behind them.
pub fn whole_proof(kept: Kept, proof: SafeProof) -> InductionProof
    ensures { result ≡ whole_proof kept proof }
{
    InductionProof {
        inv: kept.inv,
        depth: proof.depth,
        keep: kept.logs,
        base: proof.base,
        step: proof.step,
    }
}
