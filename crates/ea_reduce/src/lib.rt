//! Satisfiability and implication of formulas, reduced to bodies that are to hold together on a few
//! lassos.
#![tactic(auto)]

mod instances;
mod joint;
pub mod laws;
mod plan;
mod plans;
mod reduce_error;

pub use joint::{Joint, WordList, back};
pub use plan::Plan;
pub use plans::{implication, reduce};
pub use reduce_error::ReduceError;
