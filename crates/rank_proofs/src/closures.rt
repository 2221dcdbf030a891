//! The closures of plans.

ghost use Rattle.std.specs.Prelude.{◌≡◌, All, IfOk, OnOk, IfErr};
ghost use Rattle.ltl_closure.specs.Jobs.{IsMapped, closure_of};
ghost use Rattle.ea_reduce.specs.Plans.{plain_plan, plan_tasks};
ghost use Rattle.rank_proofs.specs.Counts.{HasFewMembers, RefusesClosure};

use ea_reduce::Plan;
use ltl_closure::{Closure, ClosureError};
use std::alloc::Global;

/// The closure of a plan. `Limit` comes exactly where it has more than 1,024 members.
pub fn plan_closure(alloc: Global, plan: &Plan) -> Result<Closure, ClosureError>
    requires { All IsMapped plan.now.jobs }
    ensures closure { IfOk result (λ c. c ≡ closure_of (plan_tasks (plain_plan plan.now))) }
    ensures few { OnOk result (HasFewMembers (plain_plan plan.now)) }
    ensures refused { IfErr result (RefusesClosure (plain_plan plan.now)) }
{
    Closure::new(alloc, &plan.jobs)
}
