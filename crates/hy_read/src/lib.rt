//! Formula texts: the reader, which says where a text that is no formula goes wrong, and the printer.
#![tactic(auto)]

mod build_error;
mod counts;
mod error;
mod formulas;
mod heading;
mod laws;
mod names;
mod operator;
mod parse;
mod parsed;
mod parser;
mod print;
mod read;
mod scan;
mod scope;
mod survey;
mod symbol;
mod table;
mod token;
mod variable;
mod word;

pub use error::ReadError;
pub use formulas::SpecList;
pub use laws::{
    allowed_is_derived, fault_answered, fault_fits, fault_found, formulas_are_over_names,
    height_without_names, names_are_read, one_answer, one_answer_to_bytes, one_fault, one_reading,
    parens_are_counted, printed_formula_is_read, viable_begins_text,
};
pub use print::print_formula;
pub use read::{read_formula, read_specs};
