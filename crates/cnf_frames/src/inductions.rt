//! Proofs by induction that no path from the start is bad.

use crate::facts::Inv;
use chain_check::Log;
use hy_base::List;

/// Logs, one a query.
pub type LogList = List<Log>;

/// Logs that refute queries about a safe net, by which no path from its start is bad.
#[derive(Drop)]
pub struct InductionProof {
    /// Facts that are true at the start.
    pub inv: Inv,
    /// How many steps the longest base query has.
    pub depth: u32,
    /// For each group of the facts, in order, that no step from a state with all facts breaks one.
    pub keep: LogList,
    /// For each number of steps up to the depth that no path of so many is bad.
    pub base: LogList,
    /// That no path of `depth` + 1 pairwise distinct good states with all facts steps to a bad one.
    pub step: Log,
}
