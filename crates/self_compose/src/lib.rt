//! Copies of a net side by side, whose executions are the tuples of its executions.
#![tactic(auto)]

mod composing;
mod copied;
mod laws;

pub use composing::compose;
pub use laws::{copies_are_as_large, executions_are_tuples, lassos_are_tuples};
