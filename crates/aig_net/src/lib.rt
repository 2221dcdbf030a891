//! Circuits: inputs, latches, ands, constraints and fairness literals, and what they do.
#![tactic(auto)]

mod copies;
mod gates;
mod laws;
mod maker;
mod net;
mod parts;
mod printing;
mod run;
mod signals;
mod simulation;

pub use copies::{own_row, own_rows};
pub use gates::value_of;
pub use laws::{
    lassos_repeat, one_execution, one_run, one_valuation, parts_are_given, parts_go_along,
    runs_are_executions,
};
pub use maker::{Gates, opposite_of};
pub use net::Net;
pub use parts::{And, AndList, NameList, NetParts, Reset, ResetList};
pub use printing::runs_text;
pub use run::{Row, RowList, Run, RunList, ValueLasso};
pub use signals::{Signal, Signals};
pub use simulation::simulate;
