//! Questions on formulas as questions on a safe net: the free net of a plan, and what its paths say.
#![tactic(auto)]

mod inputs;
pub mod laws;
mod nets;

pub use inputs::{free_net, signals_for};
pub use nets::{PlanNets, plan_nets, plan_safe};
