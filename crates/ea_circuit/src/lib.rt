//! Decides satisfiability, implication and equivalence of formulas by paths of a safe net: with lassos
//! that show it, or with proofs by induction that none do.
#![tactic(auto)]

mod circuit_error;
mod deciding;
mod found;
mod questions;

pub use circuit_error::CircuitError;
pub use found::{Found, FoundBoth, Unknown};
pub use questions::{decide, equivalent, implies};
