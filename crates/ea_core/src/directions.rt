//! The two directions of an equivalence, each by its plan.

ghost use Rattle.std.specs.Prelude.{◌≡◌, ◌<◌, ◌-◌, ◌^◌, All, IfOk, OnOk, IfErr};
ghost use Rattle.ltl_closure.specs.Jobs.{IsMapped, AreMappedBelow, closure_of};
ghost use Rattle.ea_reduce.specs.Plans.{plain_plan, plan_tasks};
ghost use Rattle.rank_proofs.specs.Counts.{HasFewMembers};
ghost use Rattle.ea_core.specs.Solved.{SolvesBoth};
ghost use Rattle.ea_core.specs.Undecided.{AreSearched, RefusesClosures, RefusesSearches};

use crate::decision::{Both, Decision};
use crate::ea_error::EaError;
use crate::solve::solve;
use ea_reduce::Plan;
use ltl_closure::Closure;
use rank_proofs::plan_closure;
use std::alloc::Global;

/// The closures of two plans.
#[derive(Drop)]
pub struct Closures {
    pub first: Closure,
    pub second: Closure,
}

/// The closures of both plans. `Limit` comes exactly where one has more than 1,024 members.
pub fn both_closures(alloc: Global, plan: &Plan, converse: &Plan) -> Result<Closures, EaError>
    requires mapped { All IsMapped plan.now.jobs }
    requires also_mapped { All IsMapped converse.now.jobs }
    ensures first { IfOk result (λ c. c.first ≡ closure_of (plan_tasks (plain_plan plan.now))) }
    ensures second { IfOk result (λ c.
        c.second ≡ closure_of (plan_tasks (plain_plan converse.now))) }
    ensures few { OnOk result (HasFewMembers (plain_plan plan.now)) }
    ensures also_few { OnOk result (HasFewMembers (plain_plan converse.now)) }
    ensures refused { IfErr result (RefusesClosures (plain_plan plan.now)
        (plain_plan converse.now)) }
{
    Ok(Closures {
        first: plan_closure(alloc, plan)?,
        second: plan_closure(alloc, converse)?,
    })
}

/// Solves the first plan, and where nothing fulfils it the second one.
pub fn solve_both(
    alloc: Global,
    plan: &Plan,
    converse: &Plan,
    closures: &Closures,
    states: u32,
) -> Result<Both, EaError>
    requires first { closures.now.first ≡ closure_of (plan_tasks (plain_plan plan.now)) }
    requires second { closures.now.second ≡ closure_of (plan_tasks (plain_plan converse.now)) }
    requires below { AreMappedBelow plan.now.vars (plan_tasks (plain_plan plan.now)) }
    requires also_below { AreMappedBelow converse.now.vars (plan_tasks (plain_plan converse.now)) }
    requires states { states < 2 ^ 32 - 1 }
    ensures solves { IfOk result (SolvesBoth (plain_plan plan.now) (plain_plan converse.now)) }
    ensures searched { IfOk result (AreSearched (plain_plan plan.now) (plain_plan converse.now)
        states) }
    ensures refused { IfErr result (RefusesSearches (plain_plan plan.now)
        (plain_plan converse.now) states) }
{
    match solve(alloc, plan, &closures.first, states)? {
        Decision::Sat(list) => Ok(Both::First(list)),
        Decision::Unsat(proof) => match solve(alloc, converse, &closures.second, states)? {
            Decision::Sat(list) => Ok(Both::Second(list)),
            Decision::Unsat(back) => Ok(Both::Same(proof, back)),
        },
    }
}
