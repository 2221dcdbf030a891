//! Whether a body minds the order of two finite traces; when a trace dominates another, and what is
//! kept where dominated ones are dropped.
#![tactic(auto)]

mod column;
mod compare;
pub mod laws;
mod lone_ends;
mod order;
mod order_walk;
mod others;
mod pairing;
mod reached;
mod rejecting;
mod rows;
mod symmetry;
mod telling;

pub use compare::{Compare, WordList, dominates};
pub use order::{Order, order_of};
pub use symmetry::symmetric;
pub use telling::telling_names;
