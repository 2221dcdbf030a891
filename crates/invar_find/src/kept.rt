//! What is found.

use chain_check::Log;
use cnf_frames::{Inv, LogList};
use hy_base::{List, M, Remake};
use std::alloc::Global;

/// A group of facts that was left out, since the conflicts were spent on its query.
#[derive(Drop)]
pub struct SpentGroup {
    /// All facts of the query.
    pub facts: Inv,
    /// The group: the facts from place `64 * group` on, at most 64 of them.
    pub group: u32,
    /// What was learned.
    pub log: Log,
}

impl Remake for SpentGroup {
    fn remake(&self, alloc: Global) -> M<Self> {
        Ok(SpentGroup {
            facts: self.facts.copy(alloc)?,
            group: self.group,
            log: self.log.copy(alloc)?,
        })
    }
}

/// Groups that were left out, in the order in which they were asked.
pub type SpentList = List<SpentGroup>;

/// Inductive facts, and why.
#[derive(Drop)]
pub struct Kept {
    /// The greatest inductive part of the candidates that are in no spent group.
    pub inv: Inv,
    /// For each group of these facts, in order, a refutation of its query.
    pub logs: LogList,
    /// The groups that were left out.
    pub spent: SpentList,
}
