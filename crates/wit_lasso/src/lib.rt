//! What a path of a safe net stands for: runs of a circuit, and what is seen of them; and when a
//! circuit satisfies a formula.
#![tactic(auto)]

mod laws;
mod seeing;
mod unfolding;

pub use laws::{checked, witnesses_show};
pub use seeing::{visible, visible_in};
pub use unfolding::unfold;
