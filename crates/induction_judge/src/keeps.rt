//! The keep queries of a proof by induction, each refuted by its log.

ghost use Rattle.std.specs.Prelude.{◌≡◌, ◌<◌, ◌≤◌, ◌^◌, length, IfOk, IfErr, IfSome};
ghost use Rattle.hy_base.specs.declared.reading.TheConstants.{BYTES_LIMIT};
ghost use Rattle.cnf_frames.specs.Facts.{AllIn, IsSafe};
ghost use Rattle.cnf_frames.specs.Queries.{groups};
ghost use Rattle.induction_judge.specs.Keeps.{AreKeepsJudged, IsKeepRefused};

use crate::logs::past_log;
use chain_check::Checker;
use cnf_frames::{FrameError, Inv, keep_front, keep_rest};
use live_safe::SafeNet;
use std::alloc::Global;

/// What stands behind the logs at the front of the text, one for each group of the facts, where these
/// refute the keep queries. What all of these queries begin with is made once, and so is what the
/// checker has for each variable, but for a last group of fewer facts. In time linear in the net, the
/// facts, the text, and the sizes of the clauses of its chains.
///
/// # Errors
///
/// As the first query answers that is not made.
pub fn past_keeps<'a>(
    alloc: Global,
    safe: &SafeNet,
    facts: &Inv,
    text: &'a [u8],
) -> Result<Option<&'a [u8]>, FrameError>
    requires safe { IsSafe safe.now }
    requires inside { AllIn (length safe.now.net.latches) facts.now }
    requires few { length facts.now < 10 ^ 10 }
    requires short { length text.now ≤ BYTES_LIMIT }
    ensures judged { IfOk result (AreKeepsJudged safe.now facts.now text.now) }
    ensures shorter { IfOk result (λ left.
        IfSome left (λ left. length left.now ≤ length text.now)) }
    ensures refused { IfErr result (IsKeepRefused safe.now facts.now) }
{
    let groups = groups_of(facts) as u32;
    if groups == 0 {
        return Ok(Some(text));
    }
    let front = keep_front(alloc, safe, facts)?;
    let mut checker = Checker::new(alloc, &front.cnf)?;
    let mut left = text;
    for group in 0..groups {
        let others = keep_rest(alloc, safe, facts, &front, group)?;
        checker.restart(alloc, &front.cnf, others)?;
        let Some(rest) = past_log(alloc, &mut checker, left)? else {
            return Ok(None);
        };
        left = rest;
    }
    Ok(Some(left))
}

/// How many groups the facts have.
fn groups_of(facts: &Inv) -> u64
    requires { length facts.now < 10 ^ 10 }
    ensures groups { result ≡ groups facts.now }
    ensures few { result < 2 ^ 32 }
{
    (facts.len() as u64 + 63) / 64
}
