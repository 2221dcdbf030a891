//! What a certificate is about, when it is good, what is to be answered to its bytes, and what a good
//! one shows; and the verdict on bytes.
#![tactic(auto)]

mod circuits;
mod claim;
mod counting;
mod error;
mod formulas;
pub mod laws;
mod reading;
mod refuting;
mod verdict;

pub use claim::Claim;
pub use error::CertError;
pub use verdict::certify;
