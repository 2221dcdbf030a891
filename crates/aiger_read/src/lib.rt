//! The reader of circuit texts: of every file it says which net it is, or what is wrong and where.
#![tactic(auto)]

pub mod laws;
mod names;
mod numbering;
mod read;
mod symbol;

pub use aiger_body::AigerError;
pub use read::read_aiger;
