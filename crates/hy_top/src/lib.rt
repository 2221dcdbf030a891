//! Any of the three tools by its name, with one answer for all of them. The programs stand on their tools
//! alone.
#![tactic(auto)]

mod answer;
mod runs;
mod shown;
mod tool;

pub use answer::Answer;
pub use runs::{Done, run};
pub use tool::Tool;
