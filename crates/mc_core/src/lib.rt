//! Checks of circuits against formulas.
#![tactic(auto)]

mod ask;
mod checked;
mod checking;
mod deciding;
mod decision;
mod judging;
mod laws;
mod mc_error;
mod proving;
mod searching;

pub use ask::Ask;
pub use checked::Checked;
pub use checking::check;
pub use deciding::decide;
pub use decision::Decision;
pub use laws::one_evidence;
pub use mc_error::McError;
