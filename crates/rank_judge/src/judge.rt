//! The judge of rank proofs.

ghost use Rattle.std.specs.Prelude.{◌≡◌, ◌≢◌, ◌≤◌, ◌*◌, List, [], ◌∷◌, ◌++◌, length, IfOk, IfSome};
ghost use Rattle.hy_base.specs.declared.reading.TheConstants.{BYTES_LIMIT};
ghost use Rattle.hy_text.specs.Lines.{lines_of};
ghost use Rattle.ltl_closure.specs.Jobs.{closure_of};
ghost use Rattle.ltl_tableau.specs.Tasks.{set_of};
ghost use Rattle.ea_reduce.specs.Plans.{plain_plan, plan_tasks};
ghost use Rattle.rank_proofs.specs.declared.rank_proof.RankProof.{RankProof};
ghost use Rattle.cert_text.specs.Lines.{Line};
ghost use Rattle.cert_text.specs.RankLines.{SayRankProof};
ghost use Rattle.rank_judge.specs.Fronts.{IsFirst};
ghost use Rattle.rank_judge.specs.Judged.{IsJudged, IsJudgedAt};

use crate::proof::read_proof;
use ea_reduce::Plan;
use hy_base::M;
use hy_bits::each_width;
use ltl_closure::Closure;
use ltl_tableau::root_set;
use rank_proofs::{RowProof, check_rank_proof};
use std::alloc::Global;

/// What stands behind the rank proof at the front of the text, where that is one for the plan;
/// `None` where it is none. What is said holds of each reading of the text, so nothing is said where
/// no lines of a rank proof stand first.
///
/// The closure is that of the plan. In time linear in the text and in the branches that
/// `check_rank_proof` makes; equal entries are kept once, and no count that the text claims takes
/// memory.
pub fn judge_ranks<'a>(
    alloc: Global,
    plan: &Plan,
    closure: &Closure,
    text: &'a [u8],
) -> M<Option<&'a [u8]>>
    requires closure { closure.now ≡ closure_of (plan_tasks (plain_plan plan.now)) }
    requires short { length text.now ≤ BYTES_LIMIT }
    ensures judged { IfOk result (λ left. (proof : RankProof) (front : List Line) (line : Line)
        (more : List Line) → lines_of text.now ≡ front ++ line ∷ more → SayRankProof front proof
        → IsJudged (plain_plan plan.now) proof (line ∷ more) left) }
    ensures shorter { IfOk result
        (λ left. IfSome left (λ left. length left.now ≤ length text.now)) }
{
    judge(alloc, closure, text)
}

/// The same for the roots of the closure.
fn judge<'a>(alloc: Global, c: &Closure, text: &'a [u8]) -> M<Option<&'a [u8]>>
    requires { length text.now ≤ BYTES_LIMIT }
    ensures judged { IfOk result (λ left. (proof : RankProof) (rest : List Line) → rest ≢ []
        → IsFirst text.now proof rest
        → IsJudgedAt c.now.nodes (set_of c.now.roots) proof rest left) }
    ensures shorter { IfOk result
        (λ left. IfSome left (λ left. length left.now ≤ length text.now)) }
{
    each_width!(c.len(), judge_wide(alloc, c, text))
}

/// The same at a width at which rows have room for the closure.
fn judge_wide<'a, const W: usize>(alloc: Global, c: &Closure, text: &'a [u8]) -> M<Option<&'a [u8]>>
    requires width { W ≤ 16 }
    requires members { length c.now.nodes ≤ 64 * W }
    requires short { length text.now ≤ BYTES_LIMIT }
    ensures judged { IfOk result (λ left. (proof : RankProof) (rest : List Line) → rest ≢ []
        → IsFirst text.now proof rest
        → IsJudgedAt c.now.nodes (set_of c.now.roots) proof rest left) }
    ensures shorter { IfOk result
        (λ left. IfSome left (λ left. length left.now ≤ length text.now)) }
{
    let mut proof = RowProof::<W>::new(alloc);
    let Some(left) = read_proof(alloc, c, text, &mut proof)? else {
        return Ok(None);
    };
    let roots = root_set(c);
    let is_proof = check_rank_proof(alloc, c, &roots, &proof)?;
    Ok(is_proof.then_some(left))
}
