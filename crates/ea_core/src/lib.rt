//! Decides satisfiability, implication and equivalence of formulas: with lassos that show it, or
//! with proofs by ranks that none do.
#![tactic(auto)]

mod decision;
mod directions;
mod ea_error;
mod lassos;
pub mod laws;
mod questions;
mod ranking;
mod solve;

pub use decision::{Both, Decision};
pub use ea_error::EaError;
pub use questions::{decide, equivalent, implies};
