//! Queries about the paths of a safe net as clauses, what their answers and their refutations say,
//! and proofs by induction made of refutations.
#![tactic(auto)]

mod counts;
mod facts;
mod frames;
mod fronts;
mod inductions;
mod laws;
mod printing;
mod queries;
mod reading;
mod stating;
mod writing;

pub use facts::{Fact, Inv};
pub use frames::add_frames;
pub use fronts::{KeepFront, keep_front, keep_rest};
pub use inductions::{InductionProof, LogList};
pub use laws::{
    clauses_are_few, facts_survive, induction, induction_proof, inductive_facts, queries_are_paths,
    refuted_queries, step_paths_are_short,
};
pub use printing::{print_proof, print_worded};
pub use queries::{Asked, FrameError, Query, base_query, keep_query, step_fits, step_query};
pub use stating::add_facts;
pub use writing::{latch_number, number_of, opposite};
