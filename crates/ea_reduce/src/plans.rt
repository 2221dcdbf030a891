//! The plans of formulas.

ghost use Rattle.std.specs.Prelude.{◌≡◌, ◌≢◌, ◌≤◌, ◌<◌, ◌+◌, length, All, IfOk, OnOk, IfErr};
ghost use Rattle.hy_formula.specs.Trees.{tree_of};
ghost use Rattle.hy_formula.specs.Classes.{class_of};
ghost use Rattle.hy_formula.specs.declared.classes.Class.TheVariants.{Other};
ghost use Rattle.ea_reduce.specs.declared.reduce_error.ReduceError.TheVariants.{Prefix as Untaken};
ghost use Rattle.ltl_closure.specs.Jobs.{tasks_of, IsMapped, AreMappedBelow};
ghost use Rattle.ea_reduce.specs.Plans.{plain_plan, reduction, implication, lassos_for};
ghost use Rattle.ea_reduce.specs.Fulfilled.{IsOfOneKind};
ghost use Rattle.ea_reduce.specs.Refused.{HasFewMaps, RefusesReduction, RefusesImplication};

use crate::instances::{existentials, job};
use crate::plan::Plan;
use crate::reduce_error::ReduceError;
use hy_formula::{Class, Formula, Prefix, Quant, class};
use ltl_closure::JobList;
use std::alloc::Global;

/// The plan of a formula: its body, under each map of its universal variables to the existential
/// ones. Some tuple of lassos fulfils it exactly where the formula is satisfiable.
///
/// `Prefix` comes exactly where some forall stands before an exists, and `Limit` exactly where there
/// are more than 4,096 maps. In time linear in the maps and the body.
pub fn reduce(alloc: Global, f: &Formula) -> Result<Plan, ReduceError>
    ensures plan { IfOk result (λ p. plain_plan p ≡ reduction f.now.prefix (tree_of f.now.body)) }
    ensures taken { OnOk result (class_of f.now.prefix ≢ Other) }
    ensures few { OnOk result (HasFewMaps (reduction f.now.prefix (tree_of f.now.body))) }
    ensures mapped { IfOk result (λ p. All IsMapped p.jobs) }
    ensures below { IfOk result (λ p. AreMappedBelow p.vars (tasks_of p.jobs)) }
    ensures refused { IfErr result (RefusesReduction f.now.prefix
        (reduction f.now.prefix (tree_of f.now.body))) }
{
    let class = class(f);
    if class == Class::Other {
        return Err(ReduceError::Prefix {
            second: false,
            class,
        });
    }
    let quants = quantifiers(&f.prefix);
    let vars = lassos_for(existentials(quants));
    let mut jobs = JobList::new(alloc);
    jobs.push(job(alloc, &f.body, true, quants, 0, vars)?)?;
    Ok(Plan { vars, jobs })
}

/// The plan of the first formula and the negation of the second, whose quantifiers are turned. Some
/// tuple of lassos fulfils it exactly where some list satisfies the first and not the second.
///
/// `Prefix` comes exactly where a formula has quantifiers of both kinds, for the first such one, and
/// `Limit` exactly where one of the two has more than 4,096 maps. In time linear in the maps and the
/// bodies.
pub fn implication(alloc: Global, a: &Formula, b: &Formula) -> Result<Plan, ReduceError>
    ensures plan { IfOk result (λ p. plain_plan p ≡ implication a.now.prefix (tree_of a.now.body)
        b.now.prefix (tree_of b.now.body)) }
    ensures first { OnOk result (IsOfOneKind a.now.prefix) }
    ensures second { OnOk result (IsOfOneKind b.now.prefix) }
    ensures few { OnOk result (HasFewMaps (implication a.now.prefix (tree_of a.now.body)
        b.now.prefix (tree_of b.now.body))) }
    ensures mapped { IfOk result (λ p. All IsMapped p.jobs) }
    ensures below { IfOk result (λ p. AreMappedBelow p.vars (tasks_of p.jobs)) }
    ensures refused { IfErr result (RefusesImplication a.now.prefix b.now.prefix
        (implication a.now.prefix (tree_of a.now.body) b.now.prefix (tree_of b.now.body))) }
{
    is_taken(a, false)?;
    is_taken(b, true)?;
    let turned = b.prefix.turned(alloc)?;
    let first = quantifiers(&a.prefix);
    let second = quantifiers(&turned);
    let next = existentials(first);
    let vars = lassos_for(next + existentials(second));
    let mut jobs = JobList::new(alloc);
    jobs.push(job(alloc, &a.body, true, first, 0, vars)?)?;
    jobs.push(job(alloc, &b.body, false, second, next, vars)?)?;
    Ok(Plan { vars, jobs })
}

/// Refuses a formula with quantifiers of both kinds, which is the second one or the first.
fn is_taken(f: &Formula, second: bool) -> Result<(), ReduceError>
    ensures taken { OnOk result (IsOfOneKind f.now.prefix) }
    ensures refused { IfErr result (λ e. (e ≡ Untaken second (class_of f.now.prefix)) × (¬ IsOfOneKind f.now.prefix)) }
{
    let class = class(f);
    match class {
        Class::Exists => Ok(()),
        Class::Forall => Ok(()),
        _ => Err(ReduceError::Prefix { second, class }),
    }
}

/// The quantifiers, of which there are at most eight.
fn quantifiers(prefix: &Prefix) -> &[Quant]
    ensures quants { result.now ≡ prefix.now }
    ensures few { length result.now ≤ 8 }
{
    prove!(prefix.len() <= 8);
    prefix.as_slice()
}

/// As many lassos as there are existential variables, or one where there are none.
fn lassos_for(existentials: u8) -> u8
    ensures count { result ≡ lassos_for existentials }
    ensures some { 0 < result }
    ensures most { existentials ≤ result }
    ensures few { result ≤ existentials + 1 }
{
    existentials.max(1)
}
