//! A circuit that a strategy drives, as one net: universal copies, the strategy, and existential
//! copies whose inputs are the strategy's outputs.
#![tactic(auto)]

mod atom_numbers;
mod copying;
mod counting;
mod demanding;
mod driving;
mod fresh;
mod gathering;
mod group;
mod laws;
mod parts;
mod question;
mod runs;

pub use counting::{Counts, count_quantifiers};
pub use group::Group;
pub use laws::{
    driven_formulas_are_right, driven_names_are_outputs, driven_nets_are_nets,
    executions_are_completed, strategies_fail, strategies_win, universal_runs_are_runs,
};
pub use parts::Parts;
pub use question::{DriveError, Driven, drive};
pub use runs::universal_runs;
