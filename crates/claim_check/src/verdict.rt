//! The verdict on a certificate.

ghost use Rattle.std.specs.Prelude.{◌<◌, ◌≤◌, ◌^◌, length};
ghost use Rattle.hy_base.specs.declared.reading.TheConstants.{BYTES_LIMIT};
ghost use Rattle.cert_text.specs.Certificates.{Certificate};
ghost use Rattle.claim_check.specs.Claims.{claim_of, question_of};
ghost use Rattle.claim_check.specs.Reading.{IsRead};
ghost use Rattle.claim_check.specs.Verdicts.{HasRoom, IsJudgement, IsVerdict};

use crate::circuits::judge_circuit;
use crate::claim::Claim;
use crate::error::CertError;
use crate::formulas::{judge_equivalence, judge_formula, judge_implication};
use crate::reading::{Reading, read_text};
use cert_text::fault_in;
use hy_formula::NameTable;
use std::alloc::Global;

/// Whether the bytes are a good certificate for the claim, whose formulas were read over these names.
/// The bytes are those that a tool prints with its proofs; lassos that show something stand in them
/// over the same names.
///
/// In time linear in the bytes, for lassos in what `hy_lasso::holds` takes, for rank proofs in the
/// branches of each next set that they name, and for proofs by induction, about a circuit or over the
/// free net of a plan, in their queries. No solver and no search is asked.
///
/// # Errors
///
/// As `CertError` says: where the bytes go wrong, then the class of a formula, the limits on maps,
/// members and positions, the names, and at last the queries of a proof by induction.
pub fn certify(
    alloc: Global,
    claim: &Claim,
    names: &NameTable,
    text: &[u8],
) -> Result<bool, CertError>
    requires short { length text.now ≤ BYTES_LIMIT }
    requires room { HasRoom names.now (claim_of claim.now) }
    ensures { IsVerdict names.now (claim_of claim.now) text.now result }
{
    let fault = fault_in(alloc, text, claim.question())?;
    if let Some(line) = fault {
        return Err(CertError::Text { line });
    }
    let read = read_text(alloc, text, names)?;
    judge(alloc, claim, names, &read)
}

/// The judgement on the parts of a certificate.
fn judge(alloc: Global, claim: &Claim, names: &NameTable, read: &Reading) -> Result<bool, CertError>
    requires room { HasRoom names.now (claim_of claim.now) }
    requires short { length read.now.evidence.now ≤ BYTES_LIMIT }
    requires countable { length read.now.list < 2 ^ 32 }
    ensures { (c : Certificate) → IsRead names.now (question_of (claim_of claim.now)) c
        read.now.head.now read.now.list read.now.evidence.now
        → IsJudgement names.now (claim_of claim.now) c result }
{
    match claim {
        Claim::Ea(f) => judge_formula(alloc, f, read),
        Claim::Implies(f, g) => judge_implication(alloc, f, g, read),
        Claim::Equivalent(f, g) => judge_equivalence(alloc, f, g, read),
        Claim::Mc(net, f) => judge_circuit(alloc, net, f, names, read),
    }
}
