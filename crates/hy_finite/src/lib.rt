//! Finite traces: what a body means on them, and the events that bring them.
#![tactic(auto)]

mod begun;
mod checks;
mod event;
mod file;
pub mod laws;
mod lengths;
mod line;
mod lines;
mod meaning;
mod number;
mod rows;
mod rule;
mod sets;
mod trace;

pub use checks::{LineCheck, check_line};
pub use event::{Event, EventList, Placed};
pub use file::{check_events, read_events};
pub use hy_text::{LineError, split_line};
pub use lengths::Lengths;
pub use line::read_event;
pub use lines::EventLines;
pub use meaning::{finite_holds, of_two};
pub use number::read_number;
pub use trace::{MOST_LETTERS, Trace, TraceList};
