//! A shortest path, looked for by itself.

ghost use Rattle.std.specs.Prelude.{◌<◌, ◌^◌, IfErr, IfOk};
ghost use Rattle.cnf_frames.specs.Facts.{IsSafe};
ghost use Rattle.k_induct.specs.Searches.{IsBarred, IsSearched};

use crate::asking::{Reply, ask_base};
use crate::verdict::Shortest;
use cnf_frames::FrameError;
use live_safe::SafeNet;
use std::alloc::Global;

/// Asks, for each number of steps from 0 to `depth`, whether a path of so many from the start
/// reaches `bad`, by the queries that `prove` asks of such paths. Ends with the first path, and with
/// the first query that learns `conflicts` clauses: at most `depth + 1` searches.
///
/// # Errors
///
/// `Limit` where a query that is to be asked has too many variables or literals.
pub fn shortest(
    alloc: Global,
    safe: &SafeNet,
    depth: u32,
    conflicts: u32,
) -> Result<Shortest, FrameError>
    requires safe { IsSafe safe.now }
    requires conflicts { conflicts < 2 ^ 31 }
    ensures searched { IfOk result (IsSearched safe.now depth conflicts) }
    ensures refused { IfErr result (IsBarred safe.now depth) }
{
    let mut k = 0;
    'depths: loop {
        match ask_base(alloc, safe, k, conflicts)? {
            Reply::Refuted(_) => {}
            Reply::Answered(path) => return Ok(Shortest::Path(path)),
            Reply::Spent(log) => return Ok(Shortest::Spent { k, log }),
        }
        if k == depth {
            return Ok(Shortest::Good);
        }
        k += 1;
    }
}
