//! Files of circuits, read from a shelf and taken, or why not.
#![tactic(auto)]

mod files;
pub mod laws;

pub use files::circuit_in;
