//! The checker of certificates as a tool: what its words ask, and what that comes to. It builds no
//! tableau, and uses no solver and no search.
#![tactic(auto)]

mod answer;
mod judging;
pub mod laws;
mod refusal;
mod runs;
mod texts;
mod tool;
mod words;

pub use answer::{CertFault, CheckAnswer, CheckFault, CheckVerdict};
pub use runs::{CheckDone, run_check};
pub use tool::HyCheck;
