//! The tableau of a closure: branches of sets of members, and what walks of branches say of words.
#![tactic(auto)]

mod branch;
mod brancher;
mod collect;
mod draw;
mod explored;
pub mod laws;
mod links;
mod settle;
mod skips;
mod steps;
mod tableau;
mod tableau_error;

pub use branch::{Branch, BranchList, postpones};
pub use brancher::Brancher;
pub use collect::branches;
pub use tableau::{Tableau, root_set};
pub use tableau_error::TableauError;
