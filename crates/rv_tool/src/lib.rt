//! `rvhyper` as a tool: what its words ask, and what that comes to.
#![tactic(auto)]

pub mod laws;
mod monitoring;
mod refusals;
mod source;
mod texts;
mod tool;
mod verdict;
mod watching;
mod words;

pub use refusals::{event_refusal, new_refusal};
pub use tool::RvHyper;
pub use verdict::{Question, RvFault, RvVerdict};
pub use watching::kept_of;
pub use words::rule_of;
