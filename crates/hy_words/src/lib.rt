//! The words of a command line: what they say, by the names of flags and options that a tool has.
#![tactic(auto)]

mod found;
pub mod laws;
mod number;
mod parser;
mod syntax;

pub use found::{Found, found_in};
pub use number::{number_in, number_or};
pub use syntax::Syntax;
