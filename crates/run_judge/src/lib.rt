//! The lassos and runs that stand in a certificate text, and whether the runs are witnesses of what
//! a formula says of a circuit.
#![tactic(auto)]

mod front;
mod judging;
pub mod laws;
mod seen;
mod traced;

pub use front::{Front, lassos_in};
pub use judging::judge_runs;
