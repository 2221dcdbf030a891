//! Runs of a net, and what all its variables do in them.

use hy_base::{List, M, Remake};
use std::alloc::Global;

/// Truth values by place.
pub type Row = List<bool>;

/// Rows, a step each.
pub type RowList = List<Row>;

/// What is given to a net: the latch values of the first step, and a row of input values for each
/// step of the stem and of the cycle.
#[derive(Drop)]
pub struct Run {
    pub first: Row,
    pub stem: RowList,
    pub cycle: RowList,
}

impl Remake for Run {
    fn remake(&self, alloc: Global) -> M<Self> {
        Ok(Run {
            first: self.first.copy(alloc)?,
            stem: self.stem.copy(alloc)?,
            cycle: self.cycle.copy(alloc)?,
        })
    }
}

/// Runs, as of the traces of a tuple.
pub type RunList = List<Run>;

/// The values of all variables of a net, the constant first, in each step of a stem and a cycle.
#[derive(Drop)]
pub struct ValueLasso {
    pub stem: RowList,
    pub cycle: RowList,
}
