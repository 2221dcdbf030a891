//! What `hycheck` says, what it alone refuses, and what a run answers.

use hy_base::Text;
use hy_run::Refusal;

/// What is said of a certificate.
#[derive(Clone, Copy)]
pub enum CheckVerdict {
    /// The certificate is good for its claim, so what it says is so.
    Accepted,
    /// The file is a certificate, and no good one for its claim.
    Rejected,
}

/// What the checker refuses beside what any tool does.
#[derive(Drop)]
pub enum CertFault {
    /// A name of the formula stands for nothing in the circuit, or `twice` for different literals.
    Name { name: Text, twice: bool },
    /// The last file is no certificate text of the command: it goes wrong at this line, from 1.
    Certificate { line: u32 },
}

/// Why a certificate was not judged, or its answer not written.
pub type CheckFault = Refusal<CertFault>;

/// What a run answers.
#[derive(Drop)]
pub enum CheckAnswer {
    /// The certificate is good for its claim, so what it says is so.
    Accepted,
    /// The file is a certificate, and no good one for its claim.
    Rejected,
    /// The certificate was not judged, or the answer could not be written.
    Refused(CheckFault),
}
