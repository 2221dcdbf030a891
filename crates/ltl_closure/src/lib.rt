//! The closure of bodies of formulas: the parts of their normal forms, each by a number.
#![tactic(auto)]

mod closure;
mod closure_error;
mod job;
pub mod laws;
mod node;
mod numbering;

pub use closure::{Closure, Obl};
pub use closure_error::ClosureError;
pub use job::{Job, JobList, MapList, VariableMap, copy_jobs};
pub use node::Node;
