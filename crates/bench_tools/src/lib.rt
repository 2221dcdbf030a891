//! What benches and cases share: the nets of a formula on a circuit.
#![tactic(auto)]

mod posed;

pub use posed::{FormulaNets, nets_of};
