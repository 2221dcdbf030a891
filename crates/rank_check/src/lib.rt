//! Graphs, ranks of their nodes, and the check of ranks: a yes leaves no fair walk.
#![tactic(auto)]

mod check;
mod graph;
mod ranks;

pub use check::{check_ranks, no_fair_walk};
pub use graph::{Graph, Node};
pub use ranks::Ranks;
