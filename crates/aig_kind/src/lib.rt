//! What can be wrong with a circuit text: words, which stand below the readers of circuits and the lines
//! that tell of files.
#![tactic(auto)]

mod kind;

pub use kind::AigKind;
