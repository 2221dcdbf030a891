//! Files of formulas, read from a shelf and taken, or why not; and the error lines of all files.
#![tactic(auto)]

mod fault;
mod files;
pub mod laws;
mod lines;

pub use fault::FileFault;
pub use files::{bytes_in, formula_in, specs_in};
pub use lines::{name_of_file, write_class, write_fault, write_limit, write_name};
