//! The nets of a plan.

ghost use Rattle.std.specs.Prelude.{◌≡◌, IfOk};
ghost use Rattle.ltl_closure.specs.Jobs.{closure_of};
ghost use Rattle.cnf_frames.specs.Facts.{IsSafe};
ghost use Rattle.ea_reduce.specs.Plans.{plain_plan, plan_tasks};
ghost use Rattle.ea_reduce.specs.Refused.{HasFewMaps};
ghost use Rattle.free_net.specs.FreeNets as free;
ghost use Rattle.free_net.specs.Reduced.{ArePlanNets, IsReduced};

use crate::inputs::{free_net, signals_for};
use crate::laws::plans_have_room;
use aig_net::{Net, Signals};
use ea_reduce::Plan;
use formula_nets::safe_over;
use hy_base::M;
use live_safe::SafeNet;
use ltl_closure::Closure;
use std::alloc::Global;

/// The nets of a plan.
#[derive(Drop)]
pub struct PlanNets {
    /// An input for each name of the plan's closure.
    pub inputs: Net,
    /// The inputs of the names.
    pub signals: Signals,
    /// The safe net in which a path is looked for.
    pub safe: SafeNet,
}

/// The nets of a plan, whose closure this is. In time and memory linear in the closure and in the
/// names of each variable, but for the names, which are looked up one by one in each literal.
pub fn plan_nets(alloc: Global, plan: &Plan, closure: &Closure) -> M<PlanNets>
    requires closure { closure.now ≡ closure_of (plan_tasks (plain_plan plan.now)) }
    requires reduced { IsReduced (plain_plan plan.now) }
    requires few { HasFewMaps (plain_plan plan.now) }
    ensures { IfOk result (ArePlanNets (plain_plan plan.now)) }
{
    closure.len(); // what each closure keeps
    plans_have_room(); // and each plan
    let signals = signals_for(alloc, closure)?;
    let names = signals.len() as u32;
    let inputs = free_net(alloc, names)?;
    let safe = safe_over(alloc, &inputs, plan.vars, closure, &signals)?;
    Ok(PlanNets {
        inputs,
        signals,
        safe,
    })
}

/// The safe net of a plan, whose closure this is; at the cost of `plan_nets`.
pub fn plan_safe(alloc: Global, plan: &Plan, closure: &Closure) -> M<SafeNet>
    requires closure { closure.now ≡ closure_of (plan_tasks (plain_plan plan.now)) }
    requires reduced { IsReduced (plain_plan plan.now) }
    requires few { HasFewMaps (plain_plan plan.now) }
    ensures made { IfOk result (λ made. made ≡ free.plan_safe (plain_plan plan.now)) }
    ensures safe { IfOk result IsSafe }
{
    let nets = plan_nets(alloc, plan, closure)?;
    Ok(nets.safe)
}
