//! Lassos: endless words that repeat, and what formulas say of lists of them.
#![tactic(auto)]

mod choices;
mod error;
mod lasso;
pub mod laws;
mod line;
mod meaning;
mod period;
mod print;
mod read;
mod row;
mod shorten;

pub use choices::holds;
pub use error::HoldsError;
pub use hy_text::LineError;
pub use lasso::{Lasso, LassoList};
pub use line::read_line;
pub use meaning::holds_body;
pub use period::are_judged;
pub use print::print_lassos;
pub use read::read_lassos;
