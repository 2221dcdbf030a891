//! What is decided about a safe net.

use chain_check::Log;
use cnf_frames::InductionProof;
use invar_find::Kept;
use live_safe::Path;

/// Whether a path from the start of a safe net reaches `bad`.
#[derive(Drop)]
pub enum Decision {
    /// None does.
    Safe(InductionProof),
    /// A shortest one that does.
    Path(Path),
    /// One that does, of whatever length, which a search for clauses met.
    FarPath(Path),
    /// No path of so many steps as were asked for does, and induction with the facts that were kept
    /// leaves this path of states.
    Depth {
        kept: Kept,
        path: Path,
    },
    /// The conflicts were spent on the query for one more step from any states, with the facts that
    /// were kept, behind `k` steps, where `step`; and else on that for a path of `k` steps.
    Spent {
        k: u32,
        step: bool,
        kept: Kept,
        log: Log,
    },
}
