//! The search for a fair walk.

ghost use Rattle.std.specs.Prelude.{◌≤◌, ◌+◌, IfOk};
ghost use Rattle.fair_search.specs.Answers.{Answers, most_steps};

use crate::found::Found;
use crate::lasso::fair_lasso;
use crate::pass::Pass;
use hy_base::{M, Steps};
use rank_check::Graph;
use std::alloc::Global;
use std::sync::ledger::Ledger;

/// A fair walk of a graph, or ranks that pass, which rule one out.
///
/// It is one pass over the components of the graph, in depth and with a stack of its own, in time
/// linear in nodes, edges and untils postponed. Where a component is fair, a path for each until
/// that its first node postpones comes to that.
#[tactic(auto, using(crate::proofs::Touring::steps_within, crate::proofs::Touring::edges_within))]
pub fn search<L: Ledger>(alloc: Global, g: &Graph, steps: &mut Steps<L>) -> M<Found>
    ensures answer { IfOk result (Answers g.now) }
    ensures most { steps.new ≤ steps.old + most_steps g.now }
{
    let mut pass = Pass::new(alloc, g)?;
    match pass.run(g, steps)? {
        None => Ok(Found::Ranks(pass.into_ranks(alloc)?)),
        Some(start) => Ok(Found::Lasso(fair_lasso(alloc, g, &pass, start, steps)?)),
    }
}
