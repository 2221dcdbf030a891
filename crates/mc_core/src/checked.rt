//! What a check comes to.

use aig_net::RunList;
use chain_check::Log;
use cnf_frames::InductionProof;
use hy_lasso::LassoList;
use invar_find::Kept;
use live_safe::Path;

/// What a check comes to. Runs and traces are those of a tuple, in the order of the quantifiers;
/// each trace is the normal form of what is seen of its run. An answer with runs has no proof, and
/// one with a proof has empty lists.
#[derive(Drop)]
pub enum Checked {
    /// The circuit satisfies the formula: an existential one by these traces, a universal one by
    /// this proof.
    Holds {
        traces: LassoList,
        runs: RunList,
        proof: Option<InductionProof>,
    },
    /// The circuit does not satisfy the formula: a universal one by these traces, an existential
    /// one by this proof.
    Violated {
        traces: LassoList,
        runs: RunList,
        proof: Option<InductionProof>,
    },
    /// No path of at most `depth` steps is an answer, and induction over so many, with the facts
    /// that were kept, leaves this path of states.
    UnknownDepth {
        depth: u32,
        kept: Kept,
        path: Path,
    },
    /// A query learned as many clauses as `conflicts`: that for a path of `k` steps, or where `step`
    /// that for one more step from any states, with the facts that were kept.
    UnknownConflicts {
        conflicts: u32,
        k: u32,
        step: bool,
        kept: Kept,
        log: Log,
    },
}
