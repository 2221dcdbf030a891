//! The search for a fair walk of a graph, or for ranks that rule one out.
#![tactic(auto)]

mod component;
mod fair_walk;
mod found;
mod lasso;
mod pass;
mod path;

pub use fair_walk::search;
pub use found::{FairLasso, Found};
