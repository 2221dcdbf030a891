//! Monitors: a body as a table of states that is stepped by joint letters of finite traces.
#![tactic(auto)]

mod atoms;
mod automaton;
mod building;
mod duty;
mod explore;
mod families;
pub mod laws;
mod lefts;
mod lefts_by_code;
mod letters;
mod members;
mod monitor;
mod monitor_error;
mod name_bit;
mod parts;
mod reducing;
mod repeats;
mod settling;
mod variable_parts;

pub use monitor::Monitor;
pub use monitor_error::MonitorError;
pub use variable_parts::VariableParts;
