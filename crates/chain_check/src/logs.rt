//! Logs of learned clauses, each with the clauses by which it follows.

use hy_base::{List, M, NumList, Remake};
use std::alloc::Global;

/// Literals: a variable counts from 1, and its negative number is the opposite.
pub type Clause = List<i32>;

/// A learned clause, and the numbers of the clauses by which it follows.
#[derive(Drop)]
pub struct Learned {
    pub clause: Clause,
    pub chain: NumList,
}

impl Remake for Learned {
    fn remake(&self, alloc: Global) -> M<Self> {
        Ok(Learned {
            clause: self.clause.copy(alloc)?,
            chain: self.chain.copy(alloc)?,
        })
    }
}

/// Learned clauses in order. The given clauses are numbered from 1, and these go on.
pub type Log = List<Learned>;
