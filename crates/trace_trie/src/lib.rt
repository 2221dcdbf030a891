//! Tries of traces, in versions that share their nodes.
//!
//! A version is a list of traces with ascending numbers. It keeps them by number, and as a trie:
//! each node has the numbers of the traces that end there, and its children by letter. A child that
//! one trace alone passes is no node: it is the trace's number, its letters, which the list by
//! number has too, and a place in them. The newest trace waits beside both, and beside a cursor what
//! is left of it. It is put in before the next one: nodes that no other version has are changed in
//! place, and the others of its path copied.
#![tactic(auto)]

mod base;
mod bucket;
mod cursor;
mod forest;
mod forest_made;
mod forest_plant;
mod forest_put;
mod grown;
mod letters;
mod newest;
mod node;
mod numbers;
mod point;
mod version;

pub use cursor::Cursor;
pub use version::Version;
