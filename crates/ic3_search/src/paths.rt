//! Whether a path is one to a bad state.

ghost use Rattle.std.specs.Prelude.{◌<◌, ◌^◌};
ghost use Rattle.cnf_frames.specs.Facts.{IsSafe};

use cnf_frames::{FrameError, base_query};
use hy_base::{M, Memory};
use live_safe::SafeNet;
use sat_core::{Outcome, solve_owned};
use std::alloc::Global;

/// How many lengths are tried.
const LENGTHS: u32 = 4;

/// Whether a path of so many steps to `bad` is found by a call that may learn so many clauses, within
/// the limits of queries.
fn is_path(alloc: Global, safe: &SafeNet, steps: u32, conflicts: u32) -> M<bool>
    requires safe { IsSafe safe.now }
    requires conflicts { conflicts < 2 ^ 31 }
{
    let query = match base_query(alloc, safe, steps) {
        Ok(query) => query,
        Err(FrameError::Limit(_)) => return Ok(false),
        Err(FrameError::Memory) => return Err(Memory),
    };
    match solve_owned(alloc, query.cnf, conflicts)? {
        Outcome::Satisfied(_) => Ok(true),
        _ => Ok(false),
    }
}

/// The length of a path to `bad` that has so many steps or a few more, if one is found.
pub(crate) fn path_from(alloc: Global, safe: &SafeNet, steps: u32, conflicts: u32) -> M<Option<u32>>
    requires safe { IsSafe safe.now }
    requires conflicts { conflicts < 2 ^ 31 }
{
    for more in 0..LENGTHS {
        let length = steps.saturating_add(more);
        if is_path(alloc, safe, length, conflicts)? {
            return Ok(Some(length));
        }
    }
    Ok(None)
}
