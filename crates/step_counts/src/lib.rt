//! How many steps a trace makes at most that arrives, in numbers; and runs that were counted by hand.
#![tactic(auto)]

pub mod laws;
pub mod runs;
