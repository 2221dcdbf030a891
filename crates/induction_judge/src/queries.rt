//! The queries of a proof by induction, each made again and refuted by its log.

ghost use Rattle.std.specs.Prelude.{◌<◌, ◌≤◌, ◌^◌, length, IfOk, IfErr, IfSome};
ghost use Rattle.hy_base.specs.declared.reading.TheConstants.{BYTES_LIMIT};
ghost use Rattle.cnf_frames.specs.Facts.{AllIn, IsSafe};
ghost use Rattle.cnf_frames.specs.Queries.{IsQuery, IsRefusal};
ghost use Rattle.induction_judge.specs.Asking.{path_at};
ghost use Rattle.induction_judge.specs.Good.{IsRefusedOf};
ghost use Rattle.induction_judge.specs.Judged.{AreLogsJudged};

use crate::keeps::past_keeps;
use crate::logs::past_log;
use chain_check::Checker;
use cnf_frames::{FrameError, Inv, Query, base_query, step_fits, step_query};
use live_safe::SafeNet;
use std::alloc::Global;

/// What stands behind the logs at the front of the text, where these refute the queries of a proof
/// with these facts and of this depth: the keep query of each group, the base queries, the step query;
/// `None` where they do not. Whether the step query
/// is within its limits is asked first, so that a depth that no query has costs nothing; of each query
/// all is dropped before the next is made, save what the keep queries have in common. In time linear
/// in these queries, where that is counted once, the text, and the sizes of the clauses of its chains.
///
/// # Errors
///
/// As the first query answers that is not made.
pub fn past_logs<'a>(
    alloc: Global,
    safe: &SafeNet,
    facts: &Inv,
    depth: u32,
    text: &'a [u8],
) -> Result<Option<&'a [u8]>, FrameError>
    requires safe { IsSafe safe.now }
    requires inside { AllIn (length safe.now.net.latches) facts.now }
    requires few { length facts.now < 10 ^ 10 }
    requires short { length text.now ≤ BYTES_LIMIT }
    ensures judged { IfOk result (AreLogsJudged safe.now facts.now depth text.now) }
    ensures shorter { IfOk result (λ left.
        IfSome left (λ left. length left.now ≤ length text.now)) }
    ensures refused { IfErr result (IsRefusedOf safe.now facts.now depth) }
{
    if let Err(limit) = step_fits(safe, facts, depth) {
        return Err(FrameError::Limit(limit));
    }
    let Some(mut left) = past_keeps(alloc, safe, facts, text)? else {
        return Ok(None);
    };
    for place in 0..u64::from(depth) + 2 {
        let query = path_query(alloc, safe, facts, depth, place)?;
        let mut checker = Checker::new(alloc, &query.cnf)?;
        let Some(rest) = past_log(alloc, &mut checker, left)? else {
            return Ok(None);
        };
        left = rest;
    }
    Ok(Some(left))
}

/// The query at a place behind the keep queries, counted from 0.
fn path_query(
    alloc: Global,
    safe: &SafeNet,
    facts: &Inv,
    depth: u32,
    place: u64,
) -> Result<Query, FrameError>
    requires safe { IsSafe safe.now }
    requires inside { AllIn (length safe.now.net.latches) facts.now }
    ensures query { IfOk result (λ query. IsQuery safe.now (path_at facts.now depth place) query) }
    ensures refused { IfErr result (λ e. IsRefusal safe.now (path_at facts.now depth place) e) }
{
    if place <= u64::from(depth) {
        base_query(alloc, safe, place as u32)
    } else {
        step_query(alloc, safe, facts, depth)
    }
}
