//! Rank proofs that a plan cannot be fulfilled: their text and their check.
#![tactic(auto)]

mod check;
mod closures;
mod entry;
pub mod laws;
mod proof_text;
mod rank_proof;
mod read;
mod tops;

pub use check::check_rank_proof;
pub use closures::plan_closure;
pub use entry::{Entry, RowProof};
pub use proof_text::print_rank_proof;
pub use rank_proof::{ProofBranch, RankProof};
pub use read::{read_entry, read_until};
