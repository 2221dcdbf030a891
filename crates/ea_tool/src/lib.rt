//! `eahyper` as a tool: what its words ask, what that comes to, and how it is printed.
#![tactic(auto)]

mod bounds;
mod circuits;
mod deciding;
mod engines;
mod finding;
mod judging;
mod lassos;
pub mod laws;
mod relating;
mod texts;
mod tool;
mod verdict;
mod words;

pub use tool::EaHyper;
pub use verdict::{CircuitVerdict, EaFault, EaVerdict, Engine, Question, Relation};
