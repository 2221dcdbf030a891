//! The monitor of runs: traces that arrive whole or letter by letter in sessions, saves and
//! returns, and the first violation of a universal formula.
#![tactic(auto)]

mod arrival;
mod build;
mod events;
mod kept;
pub mod laws;
mod masks;
mod names;
mod reply;
mod rv;
mod rv_error;
mod saved;
mod session_map;
mod session_word;
mod sessions;
mod watch;

pub use reply::Reply;
pub use rv::Rv;
pub use rv_error::{RvError, RvNewError};
pub use tuple_walk::Tuple;
