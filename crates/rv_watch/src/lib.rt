//! `rvwatch`: a monitor of the lines of standard input, each of which is taken as soon as it ended.
#![tactic(auto)]

mod course;
mod host;
mod input;
pub mod laws;
mod monitoring;
mod runs;
mod texts;
mod verdict;
mod words;

pub use host::watch_here;
pub use runs::{Done, watch};
pub use verdict::{Question, WatchAnswer, WatchFault};
