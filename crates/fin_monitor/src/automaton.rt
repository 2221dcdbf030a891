//! Residuals as a table, before those from which nothing can be rejected are made one.

use hy_base::{List, NumList};

/// The residuals of a body by numbers, the starting one first.
#[derive(Drop)]
pub struct Automaton {
    /// For each residual and each code of a joint letter, code by code, the residual that follows.
    pub table: NumList,
    /// Whether each residual accepts.
    pub accepting: List<bool>,
}
