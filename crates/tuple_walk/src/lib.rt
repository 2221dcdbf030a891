//! Walks over the tuples that a trace makes with those of a version: nodes of its trie go together,
//! so that a joint prefix of many tuples is stepped once.
#![tactic(auto)]

mod alone;
mod choice;
mod counted_monitor;
mod ends;
mod finds;
mod given;
mod onward;
mod place;
mod places;
mod serving;
mod spot;
mod trace_parts;
mod tuple;
mod two;
mod walk;

pub use counted_monitor::CountedMonitor;
pub use finds::{find, find_alone, find_first};
pub use tuple::Tuple;
