use hy_base::{List, M, NumList, Remake};
use std::alloc::Global;

/// A branch of a proof.
#[derive(Drop)]
pub struct ProofBranch {
    pub rank: u32,
    /// The members of the closure that hold now, ascending.
    pub now: NumList,
    /// The members that are to hold at the next position, ascending.
    pub next: NumList,
}

impl Remake for ProofBranch {
    fn remake(&self, alloc: Global) -> M<Self> {
        Ok(ProofBranch {
            rank: self.rank,
            now: self.now.copy(alloc)?,
            next: self.next.copy(alloc)?,
        })
    }
}

/// A proof that no lassos fulfil a plan: the reachable branches of its closure, ranked so that no
/// branch leads to a higher rank, and for each rank an until that all its branches postpone, or none
/// where no branch of the rank leads to another one.
#[derive(Drop)]
pub struct RankProof {
    pub branches: List<ProofBranch>,
    pub reasons: List<Option<u16>>,
}
