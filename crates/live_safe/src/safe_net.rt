//! Safe nets, and paths of them.

use aig_net::{Net, Row, RowList};

/// A net without fairness literals, and a literal that depends on its latches alone.
#[derive(Drop)]
pub struct SafeNet {
    pub net: Net,
    pub bad: u32,
}

/// A path of a net: the latch values of its first step, and a row of input values for each step.
#[derive(Drop)]
pub struct Path {
    pub first: Row,
    pub inputs: RowList,
}
