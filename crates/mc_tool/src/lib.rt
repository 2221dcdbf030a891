//! `mchyper` as a tool: what its words ask, and what that comes to.
#![tactic(auto)]

mod check;
pub mod laws;
mod refusal;
mod strategy;
mod texts;
mod tool;
mod verdict;
mod words;

pub use tool::McHyper;
pub use verdict::{McFault, McVerdict, Question};
