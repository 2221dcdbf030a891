//! Sets of numbers in words of 64 bits, letters, which are sets of at most 64 names, and tables of
//! bytes.
#![tactic(auto)]

mod bit_row;
mod case_table;
mod letter_mask;
mod widths;

pub use bit_row::BitRow;
pub use case_table::CaseTable;
pub use letter_mask::{LetterMask, Letters};
