//! What is tried.

use cnf_frames::Inv;
use live_safe::SafeNet;

/// Candidates that are tried on a safe net, by queries that learn at most `conflicts` clauses each.
#[derive(Clone, Copy)]
pub struct Trial<'a> {
    pub safe: &'a SafeNet,
    pub candidates: &'a Inv,
    pub conflicts: u32,
}
