//! A conflict-driven solver: an assignment, a refutation with its log, or as many new clauses as were allowed.
#![tactic(auto)]

mod analysis;
mod analyzing;
mod asking;
mod cores;
mod entering;
mod implying;
mod learning;
mod lists;
mod marks;
mod minimizing;
mod order;
mod session;
mod solver;
mod solving;
mod watches;
mod watching;

pub use asking::Reply;
pub use session::Session;
pub use solving::{Assignment, Outcome, solve, solve_owned};
