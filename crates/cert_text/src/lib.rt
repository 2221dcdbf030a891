//! Which bytes are a certificate text, and at which line others go wrong. A certificate is what the
//! tools print of an answer with its evidence: lassos, rank proofs, proofs by induction, runs.
#![tactic(auto)]

mod fact_line;
mod fault;
mod induction_lines;
mod lasso_lines;
pub mod laws;
mod learned_lines;
mod literals;
mod members;
mod numbers;
mod question;
mod rank_lines;
mod run_lines;
mod take;
mod want;
mod words;

pub use fact_line::FactLine;
pub use fault::fault_in;
pub use induction_lines::{free_head, induction_head, literals_of, log_head, read_fact};
pub use learned_lines::read_learned;
pub use question::Question;
pub use rank_lines::{rank_head, read_branch, read_reason};
pub use run_lines::read_run;
