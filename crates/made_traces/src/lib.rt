//! Traces that are made from a number alone, in place of those of a file.
#![tactic(auto)]

mod generator;
mod making;

pub use making::make_traces;
