//! Induction, depth by depth.

ghost use Rattle.std.specs.Prelude.{◌<◌, ◌^◌, length, IfOk, IfErr};
ghost use Rattle.cnf_frames.specs.Facts.{AllIn, IsInductive, IsSafe};
ghost use Rattle.cnf_frames.specs.declared.queries.Asked.TheVariants.{Step};
ghost use Rattle.cnf_frames.specs.Queries.{IsRefusal};
ghost use Rattle.k_induct.specs.Replies.{IsReply};
ghost use Rattle.k_induct.specs.Verdicts.{IsVerdict, IsStopped};

use crate::asking::{Reply, ask, ask_base};
use crate::verdict::{SafeProof, Verdict};
use cnf_frames::{FrameError, Inv, step_query};
use hy_base::List;
use live_safe::SafeNet;
use std::alloc::Global;

/// Asks for `k + 1` different good states with all facts, and a step from the last to a bad one.
fn ask_step(
    alloc: Global,
    safe: &SafeNet,
    inv: &Inv,
    k: u32,
    conflicts: u32,
) -> Result<Reply, FrameError>
    requires safe { IsSafe safe.now }
    requires inside { AllIn (length safe.now.net.latches) inv.now }
    requires conflicts { conflicts < 2 ^ 31 }
    ensures reply { IfOk result (IsReply safe.now (Step inv.now k) conflicts) }
    ensures refused { IfErr result (IsRefusal safe.now (Step inv.now k)) }
{
    let query = step_query(alloc, safe, inv, k)?;
    Ok(ask(alloc, safe, query, conflicts)?)
}

/// Asks, for each number of steps from 0 on, first whether a path of so many from the start reaches
/// `bad`, and then whether one of further steps may, from states with all facts of `inv`. Ends with
/// the first path, with the first number at which neither is so, or at `depth`. Each query learns
/// at most `conflicts` clauses, and is asked anew: the work is that of up to `2 * depth + 2`
/// searches, over clauses that grow with the square of the depth.
///
/// # Errors
///
/// `Limit` where a query that is to be asked has too many variables or literals.
pub fn prove(
    alloc: Global,
    safe: &SafeNet,
    inv: &Inv,
    depth: u32,
    conflicts: u32,
) -> Result<Verdict, FrameError>
    requires safe { IsSafe safe.now }
    requires inside { AllIn (length safe.now.net.latches) inv.now }
    requires inductive { IsInductive safe.now.net inv.now }
    requires conflicts { conflicts < 2 ^ 31 }
    ensures verdict { IfOk result (IsVerdict safe.now inv.now depth conflicts) }
    ensures refused { IfErr result (IsStopped safe.now inv.now depth) }
{
    let mut base = List::new(alloc);
    let mut k = 0;
    'depths: loop {
        match ask_base(alloc, safe, k, conflicts)? {
            Reply::Refuted(log) => base.push(log)?,
            Reply::Answered(path) => return Ok(Verdict::Path(path)),
            Reply::Spent(log) => {
                return Ok(Verdict::Spent {
                    k,
                    step: false,
                    log,
                });
            }
        }
        match ask_step(alloc, safe, inv, k, conflicts)? {
            Reply::Refuted(step) => {
                return Ok(Verdict::Safe(SafeProof {
                    depth: k,
                    base,
                    step,
                }));
            }
            Reply::Answered(path) => {
                if k == depth {
                    return Ok(Verdict::Depth(path));
                }
            }
            Reply::Spent(log) => return Ok(Verdict::Spent { k, step: true, log }),
        }
        k += 1;
    }
}
