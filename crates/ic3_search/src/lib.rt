//! Searches for what each step keeps. Clauses over latches that exclude bad states: property directed
//! reachability (Bradley, "SAT-based model checking without unrolling", VMCAI 2011). Classes of
//! latches that are equal (van Eijk, "Sequential equivalence checking without state space traversal",
//! DATE 1998). What is found are candidates: that they are kept is for the caller to ask.
#![tactic(auto)]

mod asker;
mod classes;
mod clauses;
mod cone;
mod constrained;
mod cubes;
mod engine;
mod equating;
mod finding;
mod lanes;
mod layout;
mod lemmas;
mod numbers;
mod obligations;
mod paths;
mod pushing;
mod question;
mod reducing;
mod targets;
mod variables;

pub use equating::classes_of;
pub use finding::{Found, find_clauses};
