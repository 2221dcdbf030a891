//! From liveness to safety: a net with a literal `bad` that can be reached exactly where a given
//! net has a lasso execution.
#![tactic(auto)]

mod closing;
mod effective;
mod laws;
mod making;
mod moved;
mod places;
mod safe_net;

pub use laws::{paths_are_lassos, safe_nets_are_small};
pub use making::to_safe;
pub use safe_net::{Path, SafeNet};
