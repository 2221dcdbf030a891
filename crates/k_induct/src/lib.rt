//! Induction over the steps of a safe net: a proof that no path reaches `bad`, or a shortest path
//! to it, or why neither was found.
#![tactic(auto)]

mod asking;
mod proving;
mod searching;
mod verdict;

pub use asking::{Reply, ask_base};
pub use proving::prove;
pub use searching::shortest;
pub use verdict::{SafeProof, Shortest, Verdict};
