//! What names stand for in a net, and the signals of the names of a formula.
#![tactic(auto)]

mod meaning;
mod name_error;
mod naming;

pub use meaning::{Meaning, meaning_of};
pub use name_error::NameError;
pub use naming::signals_of;
