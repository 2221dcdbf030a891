//! Facts that all states of a safe net have: the greatest inductive part of candidates.
#![tactic(auto)]

mod asking;
mod candidates;
mod classes;
mod finding;
mod groups;
mod kept;
mod leaving;
mod left;
mod seen;
mod sifting;
mod trial;
mod walking;
mod words;

pub use finding::{invariants, invariants_of};
pub use kept::{Kept, SpentGroup, SpentList};
