//! What induction comes to.

use chain_check::Log;
use cnf_frames::LogList;
use live_safe::Path;

/// Why no path from the start reaches `bad`.
#[derive(Drop)]
pub struct SafeProof {
    /// How many steps the paths of the last base query have.
    pub depth: u32,
    /// For each number of steps from 0 to `depth`, a refutation of the base query.
    pub base: LogList,
    /// A refutation of the step query at `depth`.
    pub step: Log,
}

/// What induction comes to.
#[derive(Drop)]
pub enum Verdict {
    /// No path from the start reaches `bad`.
    Safe(SafeProof),
    /// A shortest path from the start to `bad`.
    Path(Path),
    /// No path of at most the depth asked for reaches `bad`, and this one answers the step query
    /// at that depth.
    Depth(Path),
    /// The conflicts were spent on the step query at `k` where `step`, and else on the base query.
    Spent { k: u32, step: bool, log: Log },
}

/// What queries for paths from the start come to, asked by number of steps.
#[derive(Drop)]
pub enum Shortest {
    /// A shortest path from the start to `bad`.
    Path(Path),
    /// No path of at most the depth asked for reaches `bad`.
    Good,
    /// No path of fewer than `k` steps reaches `bad`, and the conflicts were spent on the query for
    /// one of `k` steps.
    Spent { k: u32, log: Log },
}
