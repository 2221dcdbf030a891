//! Decides questions on formulas.

ghost use Rattle.std.specs.Prelude.{◌≢◌, ◌<◌, ◌^◌, IfErr, IfOk, OnOk};
ghost use Rattle.hy_formula.specs.Classes.{class_of};
ghost use Rattle.hy_formula.specs.Trees.{tree_of};
ghost use Rattle.hy_formula.specs.declared.classes.Class.TheVariants.{Other};
ghost use Rattle.ea_core.specs.Undecided.{IsCounted};
ghost use Rattle.ea_reduce.specs.Fulfilled.{IsOfOneKind};
ghost use Rattle.ea_reduce.specs.Plans as plans;
ghost use Rattle.ea_circuit.specs.Found.{Decides, DecidesEquivalence, DecidesImplication};
ghost use Rattle.ea_circuit.specs.Refused.{Undecided, UndecidedEquivalence, UndecidedImplication};

use crate::circuit_error::CircuitError;
use crate::deciding::{decide_both, decide_plan};
use crate::found::{Found, FoundBoth};
use ea_reduce::{implication, reduce};
use hy_formula::Formula;
use mc_core::Ask;
use rank_proofs::plan_closure;
use std::alloc::Global;

/// Whether some list of lassos satisfies the formula: such a list in normal form, whose names are
/// those of the formula, a proof of its plan's safe net that none does, or neither, where as much was
/// tried as was asked for.
///
/// `Prefix` comes exactly where some forall stands before an exists, `Limit` exactly where there are
/// more than 4,096 maps or 1,024 members of the closure, in this order, and then `Query` where a query
/// is past its limits.
pub fn decide(alloc: Global, f: &Formula, ask: &Ask) -> Result<Found, CircuitError>
    requires { ask.now.conflicts < 2 ^ 31 }
    ensures decision { IfOk result (Decides f.now.prefix (tree_of f.now.body) ask.now) }
    ensures taken { OnOk result (class_of f.now.prefix ≢ Other) }
    ensures counted { OnOk result (IsCounted (plans.reduction f.now.prefix (tree_of f.now.body))) }
    ensures refused { IfErr result (Undecided f.now.prefix (tree_of f.now.body) ask.now) }
{
    let plan = reduce(alloc, f)?;
    let closure = plan_closure(alloc, &plan)?;
    decide_plan(alloc, &plan, &closure, ask)
}

/// Whether each list of lassos that satisfies the first formula satisfies the second: a list that
/// satisfies the first and not the second, in normal form and with names of the formulas, a proof of
/// the plan's safe net that there is none, or neither.
///
/// `Prefix` comes exactly where a formula has quantifiers of both kinds, for the first such one. The
/// other refusals are those of `decide`.
pub fn implies(alloc: Global, a: &Formula, b: &Formula, ask: &Ask) -> Result<Found, CircuitError>
    requires { ask.now.conflicts < 2 ^ 31 }
    ensures decision { IfOk result (DecidesImplication a.now.prefix (tree_of a.now.body)
        b.now.prefix (tree_of b.now.body) ask.now) }
    ensures first { OnOk result (IsOfOneKind a.now.prefix) }
    ensures second { OnOk result (IsOfOneKind b.now.prefix) }
    ensures counted { OnOk result (IsCounted (plans.implication a.now.prefix (tree_of a.now.body)
        b.now.prefix (tree_of b.now.body))) }
    ensures refused { IfErr result (UndecidedImplication a.now.prefix (tree_of a.now.body)
        b.now.prefix (tree_of b.now.body) ask.now) }
{
    let plan = implication(alloc, a, b)?;
    let closure = plan_closure(alloc, &plan)?;
    decide_plan(alloc, &plan, &closure, ask)
}

/// Whether the same lists of lassos satisfy both formulas: two proofs, a list that satisfies one of
/// them alone, or neither. The first direction is tried first, and where it is not known the second
/// is not tried.
///
/// The maps and members of both directions are counted before either is tried, and the second one is
/// tried only where the first formula implies the second. The refusals are those of `implies`.
pub fn equivalent(
    alloc: Global,
    a: &Formula,
    b: &Formula,
    ask: &Ask,
) -> Result<FoundBoth, CircuitError>
    requires { ask.now.conflicts < 2 ^ 31 }
    ensures decision { IfOk result (DecidesEquivalence a.now.prefix (tree_of a.now.body)
        b.now.prefix (tree_of b.now.body) ask.now) }
    ensures first { OnOk result (IsOfOneKind a.now.prefix) }
    ensures second { OnOk result (IsOfOneKind b.now.prefix) }
    ensures counted { OnOk result (IsCounted (plans.implication a.now.prefix (tree_of a.now.body)
        b.now.prefix (tree_of b.now.body))) }
    ensures also_counted { OnOk result (IsCounted (plans.implication b.now.prefix
        (tree_of b.now.body) a.now.prefix (tree_of a.now.body))) }
    ensures refused { IfErr result (UndecidedEquivalence a.now.prefix (tree_of a.now.body)
        b.now.prefix (tree_of b.now.body) ask.now) }
{
    let plan = implication(alloc, a, b)?;
    let converse = implication(alloc, b, a)?;
    let closure = plan_closure(alloc, &plan)?;
    let back = plan_closure(alloc, &converse)?;
    decide_both(alloc, &plan, &closure, &converse, &back, ask)
}
