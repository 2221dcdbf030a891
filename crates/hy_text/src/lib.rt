//! What every text is made of: bytes by their classes, names, sets of names and words of sets, each
//! with its grammar, its reader and its printer; the lines of a file, numbers, and texts cut at a byte.
#![tactic(auto)]

mod bytes;
mod class;
mod cutting;
pub mod laws;
mod line_error;
mod lines;
mod names;
mod numbers;
mod sets;
mod words;

pub use bytes::{begins_with_letter, is_variable, is_word_byte, past_blanks, past_byte};
pub use class::Class;
pub use cutting::cut;
pub use line_error::LineError;
pub use lines::{says_nothing, split_line};
pub use names::{push_name, read_name};
pub use numbers::number;
pub use sets::{SetRead, push_set, read_set};
pub use words::{WordRead, push_word, read_word, skip_word};
