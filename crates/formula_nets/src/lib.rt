//! The safe net of a closure over copies of a net; a formula posed to a circuit: its safe net, and the
//! runs that show what it says of the circuit.
#![tactic(auto)]

mod laws;
mod safe_nets;
mod witnesses;

pub use laws::{
    circuits_have_room, paths_decide, safe_nets_over_are_small, same_signals, signals_are_own,
    witnesses_decide,
};
pub use safe_nets::{net_for, net_over, safe_for, safe_over};
pub use witnesses::{Witnesses, find_witnesses, traces_of};
