//! Decides questions on formulas.

ghost use Rattle.std.specs.Prelude.{◌≢◌, ◌<◌, ◌-◌, ◌^◌, IfOk, OnOk, IfErr};
ghost use Rattle.hy_formula.specs.Trees.{tree_of};
ghost use Rattle.hy_formula.specs.Classes.{class_of};
ghost use Rattle.hy_formula.specs.declared.classes.Class.TheVariants.{Other};
ghost use Rattle.ea_reduce.specs.Plans.{reduction, implication};
ghost use Rattle.ea_reduce.specs.Fulfilled.{IsOfOneKind};
ghost use Rattle.ea_core.specs.Decided.{Decides, DecidesImplication, DecidesEquivalence};
ghost use Rattle.ea_core.specs.Undecided.{IsWithin, AreWithin, Undecided, UndecidedImplication, UndecidedEquivalence};

use crate::decision::{Both, Decision};
use crate::directions::{both_closures, solve_both};
use crate::ea_error::EaError;
use crate::solve::solve;
use ea_reduce::{implication, reduce};
use hy_formula::Formula;
use rank_proofs::plan_closure;
use std::alloc::Global;

/// Whether some list of lassos satisfies the formula: such a list in normal form, whose names are
/// those of the formula, or a proof of its plan that none does.
///
/// `Prefix` comes exactly where some forall stands before an exists, `Limit` exactly where there are
/// more than 4,096 maps or 1,024 members of the closure, in this order, and then `States` exactly
/// where more than `states` branches are reachable. In time and memory linear in the branches that
/// are reachable and the edges between them.
pub fn decide(alloc: Global, f: &Formula, states: u32) -> Result<Decision, EaError>
    requires { states < 2 ^ 32 - 1 }
    ensures decision { IfOk result (Decides f.now.prefix (tree_of f.now.body)) }
    ensures taken { OnOk result (class_of f.now.prefix ≢ Other) }
    ensures within { OnOk result (IsWithin (reduction f.now.prefix (tree_of f.now.body)) states) }
    ensures refused { IfErr result (Undecided f.now.prefix (tree_of f.now.body) states) }
{
    let plan = reduce(alloc, f)?;
    let closure = plan_closure(alloc, &plan)?;
    solve(alloc, &plan, &closure, states)
}

/// Whether each list of lassos that satisfies the first formula satisfies the second: a list that
/// satisfies the first and not the second, in normal form and with names of the formulas, or a proof
/// of the plan that there is none.
///
/// `Prefix` comes exactly where a formula has quantifiers of both kinds, for the first such one. The
/// other refusals are those of `decide`.
pub fn implies(alloc: Global, a: &Formula, b: &Formula, states: u32) -> Result<Decision, EaError>
    requires { states < 2 ^ 32 - 1 }
    ensures decision { IfOk result (DecidesImplication a.now.prefix (tree_of a.now.body)
        b.now.prefix (tree_of b.now.body)) }
    ensures first { OnOk result (IsOfOneKind a.now.prefix) }
    ensures second { OnOk result (IsOfOneKind b.now.prefix) }
    ensures within { OnOk result (IsWithin (implication a.now.prefix (tree_of a.now.body)
        b.now.prefix (tree_of b.now.body)) states) }
    ensures refused { IfErr result (UndecidedImplication a.now.prefix (tree_of a.now.body)
        b.now.prefix (tree_of b.now.body) states) }
{
    let plan = implication(alloc, a, b)?;
    let closure = plan_closure(alloc, &plan)?;
    solve(alloc, &plan, &closure, states)
}

/// Whether the same lists of lassos satisfy both formulas: two proofs, or a list that satisfies one
/// of them alone. The first direction is tried first.
///
/// The maps and members of both directions are counted before the branches of either are searched,
/// and the second direction is searched only where the first formula implies the second. The
/// refusals are those of `implies`.
pub fn equivalent(alloc: Global, a: &Formula, b: &Formula, states: u32) -> Result<Both, EaError>
    requires { states < 2 ^ 32 - 1 }
    ensures decision { IfOk result (DecidesEquivalence a.now.prefix (tree_of a.now.body)
        b.now.prefix (tree_of b.now.body)) }
    ensures first { OnOk result (IsOfOneKind a.now.prefix) }
    ensures second { OnOk result (IsOfOneKind b.now.prefix) }
    ensures within { IfOk result (AreWithin a.now.prefix (tree_of a.now.body)
        b.now.prefix (tree_of b.now.body) states) }
    ensures refused { IfErr result (UndecidedEquivalence a.now.prefix (tree_of a.now.body)
        b.now.prefix (tree_of b.now.body) states) }
{
    let plan = implication(alloc, a, b)?;
    let converse = implication(alloc, b, a)?;
    let closures = both_closures(alloc, &plan, &converse)?;
    solve_both(alloc, &plan, &converse, &closures, states)
}
