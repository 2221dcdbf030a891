//! Judges a proof by induction of a certificate text, about a circuit or over the free net of a plan,
//! with no search: each query is made again, and its log is checked line by line.
#![tactic(auto)]

mod clauses;
mod facts;
mod judge;
mod keeps;
mod logs;
mod queries;

pub use judge::{judge_free, judge_induction};
