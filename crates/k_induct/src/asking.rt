//! A query, asked of the solver.

ghost use Rattle.std.specs.Prelude.{◌<◌, ◌^◌, IfErr, IfOk};
ghost use Rattle.cnf_frames.specs.Facts.{IsSafe};
ghost use Rattle.cnf_frames.specs.declared.queries.Asked.TheVariants.{Base};
ghost use Rattle.cnf_frames.specs.Queries.{IsQuery, IsRefusal};
ghost use Rattle.cnf_frames.specs.QueryPaths.{CanAsk};
ghost use Rattle.k_induct.specs.Replies.{IsReply};

use chain_check::Log;
use cnf_frames::{FrameError, Query, base_query};
use hy_base::M;
use live_safe::{Path, SafeNet};
use sat_core::{Outcome, solve_owned};
use std::alloc::Global;

/// What a query came to.
#[derive(Drop)]
pub enum Reply {
    /// Nothing answers it.
    Refuted(Log),
    /// A path that does.
    Answered(Path),
    /// The conflicts were spent.
    Spent(Log),
}

/// Asks a query, and takes up its clauses, learning at most `conflicts` clauses.
pub fn ask(alloc: Global, safe: &SafeNet, query: Query, conflicts: u32) -> M<Reply>
    requires safe { IsSafe safe.now }
    requires can_ask { CanAsk safe.now query.asked }
    requires query { IsQuery safe.now query.asked query }
    requires conflicts { conflicts < 2 ^ 31 }
    ensures { IfOk result (IsReply safe.now query.asked conflicts) }
{
    match solve_owned(alloc, query.cnf, conflicts)? {
        Outcome::Refuted(log) => Ok(Reply::Refuted(log)),
        Outcome::Satisfied(values) => Ok(Reply::Answered(query.asked.path(alloc, safe, &values)?)),
        Outcome::Spent(log) => Ok(Reply::Spent(log)),
    }
}

/// Asks whether a path of `k` steps from the start reaches `bad`, learning at most `conflicts`
/// clauses.
///
/// # Errors
///
/// `Limit` where the query has too many variables or literals.
pub fn ask_base(alloc: Global, safe: &SafeNet, k: u32, conflicts: u32) -> Result<Reply, FrameError>
    requires safe { IsSafe safe.now }
    requires conflicts { conflicts < 2 ^ 31 }
    ensures reply { IfOk result (IsReply safe.now (Base k) conflicts) }
    ensures refused { IfErr result (IsRefusal safe.now (Base k)) }
{
    let query = base_query(alloc, safe, k)?;
    Ok(ask(alloc, safe, query, conflicts)?)
}
