//! Whether lassos satisfy formulas, and whether proofs show that none do.

ghost use Rattle.std.specs.Prelude.{◌↔◌, ◌≡◌, ◌<◌, ◌≤◌, ◌^◌, ◌++◌, ◌∷◌, [], List, length, IfOk, IfSome, IsTrue};
ghost use Rattle.hy_base.specs.declared.reading.TheConstants.{BYTES_LIMIT};
ghost use Rattle.hy_formula.specs.Formulas.{plain_formula};
ghost use Rattle.hy_lasso.specs.Joint.{IsJudged};
ghost use Rattle.hy_lasso.specs.Words.{AreLassos};
ghost use Rattle.hy_text.specs.Lines.{lines_of};
ghost use Rattle.ea_reduce.specs.Plans.{plain_plan};
ghost use Rattle.cnf_frames.specs.declared.inductions.InductionProof.{InductionProof};
ghost use Rattle.cert_text.specs.Certificates.{Refutation, SayRefutation, free};
ghost use Rattle.cert_text.specs.InductionLines.{SayFreeProof};
ghost use Rattle.cert_text.specs.Lines.{Line};
ghost use Rattle.claim_check.specs.Counting.{IsFound};
ghost use Rattle.claim_check.specs.Good.{IsModel, Refutes, Separates};
ghost use Rattle.claim_check.specs.Refuting.{HasFreeNet, IsPassed, StartsFree};
ghost use Rattle.claim_check.specs.Verdicts.{RefusesEither, RefusesIn};

use crate::counting::{BothPlanned, Planned};
use crate::error::CertError;
use cert_text::free_head;
use free_net::laws::formulas_are_reduced;
use free_net::plan_safe;
use hy_base::{M, Memory};
use hy_formula::Formula;
use hy_lasso::{HoldsError, LassoList, holds};
use hy_text::split_line;
use induction_judge::judge_free;
use rank_judge::judge_ranks;
use std::alloc::Global;

/// Whether the list satisfies the formula. Its joint period is known to be within its limit.
pub fn is_model(alloc: Global, f: &Formula, list: &LassoList) -> M<bool>
    requires some { 0 < length list.now }
    requires countable { length list.now < 2 ^ 32 }
    requires judged { IsJudged list.now }
    ensures { IfOk result
        (λ yes. AreLassos list.now → IsTrue yes ↔ IsModel (plain_formula f.now) list.now) }
{
    match holds(alloc, f, list) {
        Ok(yes) => Ok(yes),
        Err(HoldsError::Memory) => Err(Memory),
        Err(HoldsError::Limit(_)) => unreachable!(),
    }
}

/// Whether the list satisfies the first formula and not the second.
pub fn separates(alloc: Global, f: &Formula, g: &Formula, list: &LassoList) -> M<bool>
    requires some { 0 < length list.now }
    requires countable { length list.now < 2 ^ 32 }
    requires judged { IsJudged list.now }
    ensures { IfOk result (λ yes. AreLassos list.now
        → IsTrue yes ↔ Separates (plain_formula f.now) (plain_formula g.now) list.now) }
{
    if !is_model(alloc, f, list)? {
        return Ok(false);
    }
    Ok(!is_model(alloc, g, list)?)
}

/// Whether the text, behind which nothing stands, is a proof that nothing fulfils the plan, by ranks
/// or over its free net. Of a text that is no such proof at all nothing is said.
///
/// # Errors
///
/// `Limit` where a query of a proof over the free net has too many variables or literals.
pub fn is_refuted(alloc: Global, planned: &Planned, text: &[u8]) -> Result<bool, CertError>
    requires short { length text.now ≤ BYTES_LIMIT }
    requires net { HasFreeNet (plain_plan planned.now.plan) }
    ensures { (proof : Refutation) (lines : List Line)
        → lines_of text.now ≡ lines ++ [] ∷ [] → SayRefutation lines proof
        → IsFound (Refutes (plain_plan planned.now.plan) proof)
        (RefusesIn (plain_plan planned.now.plan) proof) result }
{
    let left = past_refutation(alloc, planned, text)?;
    Ok(left.is_some())
}

/// Whether the text is two proofs, that nothing fulfils either of the plans.
///
/// # Errors
///
/// As `is_refuted`, for the first proof, and then for the second where the first is good.
pub fn are_refuted(alloc: Global, planned: &BothPlanned, text: &[u8]) -> Result<bool, CertError>
    requires short { length text.now ≤ BYTES_LIMIT }
    requires there { HasFreeNet (plain_plan planned.now.there.plan) }
    requires back { HasFreeNet (plain_plan planned.now.back.plan) }
    ensures { (one two : Refutation) (front rest : List Line)
        → lines_of text.now ≡ (front ++ rest) ++ [] ∷ []
        → SayRefutation front one → SayRefutation rest two
        → IsFound (Refutes (plain_plan planned.now.there.plan) one
        × Refutes (plain_plan planned.now.back.plan) two)
        (RefusesEither (plain_plan planned.now.there.plan) one
        (plain_plan planned.now.back.plan) two) result }
{
    match past_refutation(alloc, &planned.there, text)? {
        Some(left) => is_refuted(alloc, &planned.back, left),
        None => Ok(false),
    }
}

/// What stands behind the proof at the front of the text, where that shows that nothing fulfils the
/// plan; `None` where it does not.
fn past_refutation<'a>(
    alloc: Global,
    planned: &Planned,
    text: &'a [u8],
) -> Result<Option<&'a [u8]>, CertError>
    requires short { length text.now ≤ BYTES_LIMIT }
    requires net { HasFreeNet (plain_plan planned.now.plan) }
    ensures passed { (proof : Refutation) (front rest : List Line)
        → lines_of text.now ≡ (front ++ rest) ++ [] ∷ [] → SayRefutation front proof
        → IsPassed (plain_plan planned.now.plan) proof rest result }
    ensures shorter { IfOk result
        (λ left. IfSome left (λ left. length left.now ≤ length text.now)) }
{
    if starts_free(text) {
        past_free(alloc, planned, text)
    } else {
        let left = judge_ranks(alloc, &planned.plan, &planned.closure, text)?;
        Ok(left)
    }
}

/// The same of a proof over the plan's free net. Of others nothing is said.
fn past_free<'a>(
    alloc: Global,
    planned: &Planned,
    text: &'a [u8],
) -> Result<Option<&'a [u8]>, CertError>
    requires short { length text.now ≤ BYTES_LIMIT }
    requires net { HasFreeNet (plain_plan planned.now.plan) }
    ensures passed { (proof : InductionProof) (front rest : List Line)
        → lines_of text.now ≡ (front ++ rest) ++ [] ∷ [] → SayFreeProof front proof
        → IsPassed (plain_plan planned.now.plan) (free proof) rest result }
    ensures shorter { IfOk result
        (λ left. IfSome left (λ left. length left.now ≤ length text.now)) }
{
    formulas_are_reduced(); // what each plan is
    let safe = plan_safe(alloc, &planned.plan, &planned.closure)?;
    let left = judge_free(alloc, &safe, text)?;
    Ok(left)
}

/// Whether the first line is the head of a proof over a free net.
fn starts_free(text: &[u8]) -> bool
    ensures { IsTrue result ↔ StartsFree text.now }
{
    let (line, _) = split_line(text);
    free_head(line).is_some()
}
