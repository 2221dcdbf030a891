//! All evidence that the tools print is a good certificate.
#![tactic(auto)]

pub mod laws;
