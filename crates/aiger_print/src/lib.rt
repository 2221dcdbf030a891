//! Printers of circuit texts, and the law that what they write reads back.
#![tactic(auto)]

mod binary;
pub mod laws;
mod lines;
mod print;
mod symbols;

pub use print::{print_aag, print_aig};
