//! Ands that come in any order: one in which each uses earlier ones only, or the first and that
//! depends on itself.
#![tactic(auto)]

mod cycle;
mod gate;
pub mod laws;
mod ready;
mod search;
mod taking;

pub use cycle::first_cyclic;
pub use gate::Gate;
pub use taking::{Definers, definers, order};
