//! Decides plans by their safe nets.

ghost use Rattle.std.specs.Prelude.{◌≡◌, ◌<◌, ◌^◌, IfErr, IfOk};
ghost use Rattle.ltl_closure.specs.Jobs.{closure_of};
ghost use Rattle.ea_reduce.specs.Plans.{plain_plan, plan_tasks};
ghost use Rattle.ea_reduce.specs.Refused.{HasFewMaps};
ghost use Rattle.free_net.specs.Reduced.{ArePlanNets, IsOfFormulas, IsReduced};
ghost use Rattle.ea_circuit.specs.Found.{AreFound, IsFound};
ghost use Rattle.ea_circuit.specs.Refused.{RefusesBoth, RefusesWork};

use crate::circuit_error::{CircuitError, work_error};
use crate::found::{Found, FoundBoth, Unknown};
use ea_reduce::Plan;
use formula_nets::traces_of;
use free_net::laws::{formulas_are_reduced, paths_fulfil};
use free_net::{PlanNets, plan_nets};
use ltl_closure::Closure;
use mc_core::{Ask, Decision, decide};
use std::alloc::Global;
use wit_lasso::unfold;

/// Decides whether some lassos fulfil a plan, whose closure this is.
pub fn decide_plan(
    alloc: Global,
    plan: &Plan,
    closure: &Closure,
    ask: &Ask,
) -> Result<Found, CircuitError>
    requires closure { closure.now ≡ closure_of (plan_tasks (plain_plan plan.now)) }
    requires formulas { IsOfFormulas (plain_plan plan.now) }
    requires few { HasFewMaps (plain_plan plan.now) }
    requires conflicts { ask.now.conflicts < 2 ^ 31 }
    ensures found { IfOk result (IsFound (plain_plan plan.now) ask.now) }
    ensures refused { IfErr result (RefusesWork (plain_plan plan.now) ask.now) }
{
    formulas_are_reduced(); // what each plan is
    let nets = plan_nets(alloc, plan, closure)?;
    decide_nets(alloc, plan, &nets, ask)
}

/// The same where these are the nets of the plan. The lassos for which a path stands are made in time
/// linear in the net for each step of the path and each variable.
fn decide_nets(
    alloc: Global,
    plan: &Plan,
    nets: &PlanNets,
    ask: &Ask,
) -> Result<Found, CircuitError>
    requires reduced { IsReduced (plain_plan plan.now) }
    requires nets { ArePlanNets (plain_plan plan.now) nets.now }
    requires conflicts { ask.now.conflicts < 2 ^ 31 }
    ensures found { IfOk result (IsFound (plain_plan plan.now) ask.now) }
    ensures refused { IfErr result (RefusesWork (plain_plan plan.now) ask.now) }
{
    paths_fulfil(); // what paths of the safe net say
    let decision = match decide(alloc, &nets.safe, ask) {
        Ok(decision) => decision,
        Err(e) => return Err(work_error(e)),
    };
    match decision {
        Decision::Safe(proof) => Ok(Found::Unsat(proof)),
        Decision::Path(path) | Decision::FarPath(path) => {
            let runs = unfold(alloc, &nets.inputs, plan.vars, &nets.safe, &path)?;
            let lassos = traces_of(alloc, &nets.inputs, runs.as_slice(), &nets.signals)?;
            Ok(Found::Sat(lassos))
        }
        Decision::Depth { kept, path } => Ok(Found::Unknown(Unknown::Depth { kept, path })),
        Decision::Spent { k, step, kept, log } => {
            Ok(Found::Unknown(Unknown::Spent { k, step, kept, log }))
        }
    }
}

/// Decides the first plan, and where nothing fulfils it the second one.
pub fn decide_both(
    alloc: Global,
    plan: &Plan,
    closure: &Closure,
    converse: &Plan,
    back: &Closure,
    ask: &Ask,
) -> Result<FoundBoth, CircuitError>
    requires closures { (closure.now ≡ closure_of (plan_tasks (plain_plan plan.now)))
        × (back.now ≡ closure_of (plan_tasks (plain_plan converse.now))) }
    requires formulas { IsOfFormulas (plain_plan plan.now)
        × IsOfFormulas (plain_plan converse.now) }
    requires few { HasFewMaps (plain_plan plan.now) × HasFewMaps (plain_plan converse.now) }
    requires conflicts { ask.now.conflicts < 2 ^ 31 }
    ensures found { IfOk result (AreFound (plain_plan plan.now) (plain_plan converse.now)
        ask.now) }
    ensures refused { IfErr result (RefusesBoth (plain_plan plan.now) (plain_plan converse.now)
        ask.now) }
{
    match decide_plan(alloc, plan, closure, ask)? {
        Found::Sat(list) => Ok(FoundBoth::First(list)),
        Found::Unknown(unknown) => Ok(FoundBoth::Unknown(unknown)),
        Found::Unsat(proof) => match decide_plan(alloc, converse, back, ask)? {
            Found::Sat(list) => Ok(FoundBoth::Second(list)),
            Found::Unknown(unknown) => Ok(FoundBoth::Unknown(unknown)),
            Found::Unsat(other) => Ok(FoundBoth::Same(proof, other)),
        },
    }
}
