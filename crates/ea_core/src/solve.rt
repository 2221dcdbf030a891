//! Decides whether some lassos fulfil a plan.

ghost use Rattle.std.specs.Prelude.{◌≡◌, ◌≤◌, ◌<◌, ◌*◌, ◌-◌, ◌^◌, length, IfOk, OnOk, IfErr};
ghost use Rattle.ltl_closure.specs.Jobs.{AreMappedBelow, closure_of};
ghost use Rattle.fair_search.specs.Answers.{Answers};
ghost use Rattle.ea_reduce.specs.Plans.{plain_plan, plan_tasks};
ghost use Rattle.ea_core.specs.Solved.{Solves};
ghost use Rattle.ea_core.specs.Undecided.{HasFewBranches, RefusesSearch};

use crate::decision::Decision;
use crate::ea_error::EaError;
use crate::lassos::joint;
use crate::ranking::rank_proof;
use ea_reduce::{Plan, back};
use fair_search::{Found, search};
use hy_base::{M, Steps};
use hy_bits::each_width;
use ltl_closure::Closure;
use ltl_tableau::Tableau;
use rank_check::Graph;
use std::alloc::Global;
use std::marker::Brand;
use std::sync::ledger::{Blank, Ledger};

/// Lassos that fulfil a plan, or a proof that none do. `States` comes exactly where more than
/// `states` branches are reachable. In time linear in branches and edges.
pub fn solve(alloc: Global, plan: &Plan, c: &Closure, states: u32) -> Result<Decision, EaError>
    requires closure { c.now ≡ closure_of (plan_tasks (plain_plan plan.now)) }
    requires below { AreMappedBelow plan.now.vars (plan_tasks (plain_plan plan.now)) }
    requires states { states < 2 ^ 32 - 1 }
    ensures solves { IfOk result (Solves (plain_plan plan.now)) }
    ensures few { OnOk result (HasFewBranches (plain_plan plan.now) states) }
    ensures refused { IfErr result (RefusesSearch (plain_plan plan.now) states) }
{
    each_width!(c.len(), solve_wide(alloc, plan, c, states))
}

/// The same at a width at which rows have room for the closure.
fn solve_wide<const W: usize>(
    alloc: Global,
    plan: &Plan,
    c: &Closure,
    states: u32,
) -> Result<Decision, EaError>
    requires width { W ≤ 16 }
    requires members { length c.now.nodes ≤ 64 * W }
    requires closure { c.now ≡ closure_of (plan_tasks (plain_plan plan.now)) }
    requires below { AreMappedBelow plan.now.vars (plan_tasks (plain_plan plan.now)) }
    requires states { states < 2 ^ 32 - 1 }
    ensures solves { IfOk result (Solves (plain_plan plan.now)) }
    ensures few { OnOk result (HasFewBranches (plain_plan plan.now) states) }
    ensures refused { IfErr result (RefusesSearch (plain_plan plan.now) states) }
{
    let tableau = Tableau::<W>::build(alloc, c, states)?;
    let found = walk_or_ranks(alloc, tableau.graph())?;
    match found {
        Found::Lasso(walk) => {
            let joint = joint(alloc, c, &tableau, &walk, plan.vars)?;
            Ok(Decision::Sat(back(alloc, &joint, plan)?))
        }
        Found::Ranks(ranks) => Ok(Decision::Unsat(rank_proof(alloc, c, &tableau, &ranks)?)),
    }
}

/// A fair walk of the graph, or ranks that pass.
fn walk_or_ranks(alloc: Global, g: &Graph) -> M<Found>
    ensures { IfOk result (Answers g.now) }
{
    search_on::<Brand>(alloc, g, Blank::new(1))
}

/// The same on a ledger of its own, on which the steps are counted.
fn search_on<L: Ledger>(alloc: Global, g: &Graph, blank: Blank) -> M<Found>
    requires name { blank.name ≡ L.name }
    requires parts { blank.parts ≡ L.parts }
    requires some { 0 < blank.parts }
    ensures { IfOk result (Answers g.now) }
{
    let mut steps = Steps::<L>::new(blank);
    search(alloc, g, &mut steps)
}
