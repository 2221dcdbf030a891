//! From a formula to the executions on which it holds: a net with an oracle for each temporal
//! member of a closure.
#![tactic(auto)]

mod attaching;
mod laws;
mod places;
mod promises;
mod values;

pub use attaching::attach;
pub use laws::{attached_nets_are_small, executions_are_words};
