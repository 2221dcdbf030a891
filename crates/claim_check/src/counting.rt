//! What is counted of formulas, and of the lassos of a certificate, before evidence is judged.

ghost use Rattle.std.specs.Prelude.{◌≡◌, ℕ, All, List, IfOk, IfErr, OnOk};
ghost use Rattle.hy_formula.specs.Formulas.{plain_formula};
ghost use Rattle.hy_lasso.specs.Joint.{IsJudged};
ghost use Rattle.ltl_closure.specs.Jobs.{IsMapped, closure_of};
ghost use Rattle.ea_reduce.specs.Plans.{plain_plan, plan_tasks};
ghost use Rattle.rank_proofs.specs.Counts.{HasFewMembers, RefusesClosure};
ghost use Rattle.claim_check.specs.Claims.{equivalence, formula, implication as one_implication};
ghost use Rattle.claim_check.specs.Counting.{IsWithin, Stops, StopsPlan};
ghost use Rattle.claim_check.specs.Good.{plan_against, reduction};
ghost use Rattle.claim_check.specs.Refuting.{HasFreeNet};

use crate::error::CertError;
use ea_reduce::{Plan, implication, reduce};
use hy_formula::Formula;
use hy_lasso::{LassoList, are_judged};
use ltl_closure::{Closure, ClosureError};
use rank_proofs::plan_closure;
use std::alloc::Global;

/// A plan and its closure.
#[derive(Drop)]
pub struct Planned {
    pub plan: Plan,
    pub closure: Closure,
    ghost own: { closure ≡ closure_of (plan_tasks (plain_plan plan)) },
}

/// The plans of both directions of an equivalence.
#[derive(Drop)]
pub struct BothPlanned {
    pub there: Planned,
    pub back: Planned,
}

/// The plan of a formula, where it, its closure and the lassos are within their limits.
pub fn plan_formula(alloc: Global, f: &Formula, list: &LassoList) -> Result<Planned, CertError>
    ensures plan { IfOk result
        (λ made. plain_plan made.plan ≡ reduction (plain_formula f.now)) }
    ensures net { IfOk result (λ made. HasFreeNet (plain_plan made.plan)) }
    ensures within { OnOk result (IsWithin (formula (plain_formula f.now)) list.now) }
    ensures stopped { IfErr result (λ e. (names : List (List ℕ))
        → Stops names (formula (plain_formula f.now)) list.now e) }
{
    let plan = reduce(alloc, f)?;
    let made = with_lassos(alloc, plan, list)?;
    Ok(made)
}

/// The plan that the first formula is to hold and the second one is not, where it, its closure and
/// the lassos are within their limits.
pub fn plan_implication(
    alloc: Global,
    f: &Formula,
    g: &Formula,
    list: &LassoList,
) -> Result<Planned, CertError>
    ensures plan { IfOk result (λ made.
        plain_plan made.plan ≡ plan_against (plain_formula f.now) (plain_formula g.now)) }
    ensures net { IfOk result (λ made. HasFreeNet (plain_plan made.plan)) }
    ensures within { OnOk result
        (IsWithin (one_implication (plain_formula f.now) (plain_formula g.now)) list.now) }
    ensures stopped { IfErr result (λ e. (names : List (List ℕ))
        → Stops names (one_implication (plain_formula f.now) (plain_formula g.now)) list.now e) }
{
    let plan = implication(alloc, f, g)?;
    let made = with_lassos(alloc, plan, list)?;
    Ok(made)
}

/// The plans of both directions, where they, their closures and the lassos are within their limits.
/// Both plans are made before a closure is.
pub fn plan_equivalence(
    alloc: Global,
    f: &Formula,
    g: &Formula,
    list: &LassoList,
) -> Result<BothPlanned, CertError>
    ensures there { IfOk result (λ made.
        plain_plan made.there.plan ≡ plan_against (plain_formula f.now) (plain_formula g.now)) }
    ensures back { IfOk result (λ made.
        plain_plan made.back.plan ≡ plan_against (plain_formula g.now) (plain_formula f.now)) }
    ensures nets { IfOk result (λ made. HasFreeNet (plain_plan made.there.plan)
        × HasFreeNet (plain_plan made.back.plan)) }
    ensures within { OnOk result
        (IsWithin (equivalence (plain_formula f.now) (plain_formula g.now)) list.now) }
    ensures stopped { IfErr result (λ e. (names : List (List ℕ))
        → Stops names (equivalence (plain_formula f.now) (plain_formula g.now)) list.now e) }
{
    let plan = implication(alloc, f, g)?;
    let converse = implication(alloc, g, f)?;
    let there = with_closure(alloc, plan)?;
    let back = with_lassos(alloc, converse, list)?;
    Ok(BothPlanned { there, back })
}

/// The plan and its closure, where that is within its limit.
fn with_closure(alloc: Global, plan: Plan) -> Result<Planned, ClosureError>
    requires { All IsMapped plan.jobs }
    ensures plan { IfOk result (λ made. made.plan ≡ plan) }
    ensures few { OnOk result (HasFewMembers (plain_plan plan)) }
    ensures refused { IfErr result (RefusesClosure (plain_plan plan)) }
{
    let closure = plan_closure(alloc, &plan)?;
    Ok(Planned { plan, closure })
}

/// The same where the lassos are within theirs too.
fn with_lassos(alloc: Global, plan: Plan, list: &LassoList) -> Result<Planned, CertError>
    requires { All IsMapped plan.jobs }
    ensures plan { IfOk result (λ made. made.plan ≡ plan) }
    ensures few { OnOk result (HasFewMembers (plain_plan plan)) }
    ensures judged { OnOk result (IsJudged list.now) }
    ensures stopped { IfErr result (StopsPlan (plain_plan plan) list.now) }
{
    let made = with_closure(alloc, plan)?;
    if !are_judged(list) {
        return Err(CertError::joint());
    }
    Ok(made)
}
