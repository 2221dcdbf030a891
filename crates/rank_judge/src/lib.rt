//! Judges the rank proof that stands next in a certificate text: whether it is one for a plan, which
//! then nothing fulfils.
#![tactic(auto)]

mod entries;
mod head;
mod judge;
mod proof;
mod reasons;

pub use judge::judge_ranks;
