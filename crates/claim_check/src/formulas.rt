//! The judges of claims about formulas.

ghost use Rattle.std.specs.Prelude.{ℕ, ◌<◌, ◌≤◌, ◌^◌, List, length};
ghost use Rattle.hy_base.specs.declared.reading.TheConstants.{BYTES_LIMIT};
ghost use Rattle.hy_formula.specs.Formulas.{plain_formula};
ghost use Rattle.cert_text.specs.declared.question.Question.TheVariants.{Equivalence, Formula as OneFormula, Implication};
ghost use Rattle.cert_text.specs.Certificates.{Certificate};
ghost use Rattle.claim_check.specs.Claims.{equivalence, formula, implication};
ghost use Rattle.claim_check.specs.Reading.{IsRead};
ghost use Rattle.claim_check.specs.Verdicts.{IsJudgement};

use crate::counting::{plan_equivalence, plan_formula, plan_implication};
use crate::error::CertError;
use crate::reading::Reading;
use crate::refuting::{are_refuted, is_model, is_refuted, separates};
use hy_formula::Formula;
use std::alloc::Global;

/// Whether the certificate shows that the formula is satisfiable, or that it is not.
pub fn judge_formula(alloc: Global, f: &Formula, read: &Reading) -> Result<bool, CertError>
    requires short { length read.now.evidence.now ≤ BYTES_LIMIT }
    requires countable { length read.now.list < 2 ^ 32 }
    ensures { (names : List (List ℕ)) (c : Certificate)
        → IsRead names OneFormula c read.now.head.now read.now.list read.now.evidence.now
        → IsJudgement names (formula (plain_formula f.now)) c result }
{
    let planned = plan_formula(alloc, f, &read.list)?;
    if read.list.is_empty() {
        is_refuted(alloc, &planned, read.evidence)
    } else {
        Ok(is_model(alloc, f, &read.list)?)
    }
}

/// Whether the certificate shows that the first formula implies the second, or that it does not.
pub fn judge_implication(
    alloc: Global,
    f: &Formula,
    g: &Formula,
    read: &Reading,
) -> Result<bool, CertError>
    requires short { length read.now.evidence.now ≤ BYTES_LIMIT }
    requires countable { length read.now.list < 2 ^ 32 }
    ensures { (names : List (List ℕ)) (c : Certificate)
        → IsRead names Implication c read.now.head.now read.now.list read.now.evidence.now
        → IsJudgement names (implication (plain_formula f.now) (plain_formula g.now)) c result }
{
    let planned = plan_implication(alloc, f, g, &read.list)?;
    if read.list.is_empty() {
        is_refuted(alloc, &planned, read.evidence)
    } else {
        Ok(separates(alloc, f, g, &read.list)?)
    }
}

/// Whether the certificate shows that the formulas are equivalent, or which of them holds alone.
pub fn judge_equivalence(
    alloc: Global,
    f: &Formula,
    g: &Formula,
    read: &Reading,
) -> Result<bool, CertError>
    requires short { length read.now.evidence.now ≤ BYTES_LIMIT }
    requires countable { length read.now.list < 2 ^ 32 }
    ensures { (names : List (List ℕ)) (c : Certificate)
        → IsRead names Equivalence c read.now.head.now read.now.list read.now.evidence.now
        → IsJudgement names (equivalence (plain_formula f.now) (plain_formula g.now)) c result }
{
    let planned = plan_equivalence(alloc, f, g, &read.list)?;
    if read.list.is_empty() {
        are_refuted(alloc, &planned, read.evidence)
    } else if read.head == b"not equivalent second".as_slice() {
        Ok(separates(alloc, g, f, &read.list)?)
    } else {
        Ok(separates(alloc, f, g, &read.list)?)
    }
}
