//! What all variables of a net do in a run.

ghost use Rattle.std.specs.Prelude.{◌≡◌, ℕ, ◌<◌, ◌↔◌, List, Bool, length, IsTrue, IfOk, IfSome, IfNone};
ghost use Rattle.aig_net.specs.Nets.{AllBelow, AllTrue, Below, IsNet, ResetTo, variables};
ghost use Rattle.hy_base.specs.Rows.{row};
ghost use Rattle.aig_net.specs.Rows.{latch_row};
ghost use Rattle.aig_net.specs.Following.{AreFull, AreSeen, Follows, IsRound, IsSeen, IsStartRow, IsState, row_at, values_of};
ghost use Rattle.aig_net.specs.Simulations.{IsExecutionOf};

use crate::gates::value_of;
use crate::net::Net;
use crate::parts::Reset;
use crate::run::{Row, RowList, Run, ValueLasso};
use hy_base::{List, M};
use std::alloc::Global;

/// The values of all variables in each step of the run, or `None` where its rows are not those of a
/// lasso execution. In time linear in the net for each step, and in the cycle for each fairness
/// literal; memory is taken for the rows of values and one row of latches.
#[tactic(auto, using(crate::proofs::Executing::not_started))]
pub fn simulate(alloc: Global, net: &Net, run: &Run) -> M<Option<ValueLasso>>
    ensures some { IfOk result (λ found. IfSome found (λ values.
        IsExecutionOf net.now run.now values)) }
    ensures none { IfOk result (λ found. IfNone found (
        (values : ValueLasso) → ¬ IsExecutionOf net.now run.now values)) }
{
    net.variables(); // what each net keeps
    if !is_start(net.resets().as_slice(), run.first.as_slice()) {
        return Ok(None);
    }
    let mut latches = Vec::from_slice(alloc, run.first.as_slice())?;
    execute(alloc, net, run, &mut latches)
}

/// The values in each step of a run whose first latch values are these and may stand at the start.
#[tactic(auto, using(crate::proofs::Executing::no_cycle, crate::proofs::Executing::no_round))]
fn execute(alloc: Global, net: &Net, run: &Run, latches: &mut [bool]) -> M<Option<ValueLasso>>
    requires net { IsNet net.now }
    requires first { latches.old ≡ run.now.first }
    requires starts { IsStartRow net.now.resets run.now.first }
    ensures some { IfOk result (λ found. IfSome found (λ values.
        IsExecutionOf net.now run.now values)) }
    ensures none { IfOk result (λ found. IfNone found (
        (values : ValueLasso) → ¬ IsExecutionOf net.now run.now values)) }
{
    let Some(stem) = follow(alloc, net, latches, run.stem.as_slice())? else {
        return Ok(None);
    };
    let Some(cycle) = follow(alloc, net, latches, run.cycle.as_slice())? else {
        return Ok(None);
    };
    if is_round(net, cycle.as_slice(), latches) {
        Ok(Some(ValueLasso { stem, cycle }))
    } else {
        Ok(None)
    }
}

/// Whether each latch may start with its value.
fn is_start(resets: &[Reset], values: &[bool]) -> bool
    ensures { IsTrue result ↔ IsStartRow resets.now values.now }
{
    if values.len() != resets.len() {
        return false;
    }
    for (j, reset) in resets.iter().enumerate() {
        if !may_start(*reset, values[j]) {
            return false;
        }
    }
    true
}

/// Whether a latch with this reset may start with this value.
fn may_start(reset: Reset, value: bool) -> bool
    ensures { IsTrue result ↔ ResetTo reset value }
{
    match reset {
        Reset::Zero => !value,
        Reset::One => value,
        Reset::Free => true,
    }
}

/// The rows of values that follow from the latch values and the inputs, or `None` where they break
/// a constraint or a row of inputs has the wrong length. The latch values become those that are next.
#[tactic(auto, using(crate::proofs::Follows::follows_next, crate::proofs::Follows::stuck))]
fn follow(alloc: Global, net: &Net, latches: &mut [bool], inputs: &[Row]) -> M<Option<RowList>>
    requires net { IsNet net.now }
    requires latches { length latches.old ≡ length net.now.latches }
    ensures some { IfOk result (λ found. IfSome found (λ rows.
        Follows net.now latches.old inputs.now rows latches.new)) }
    ensures none { IfOk result (λ found. IfNone found (
        (rows : List (List Bool)) (last : List Bool) →
        ¬ Follows net.now latches.old inputs.now rows last)) }
{
    let mut rows = List::new(alloc);
    for given in inputs {
        let Some(values) = state(alloc, net, latches, given.as_slice())? else {
            return Ok(None);
        };
        advance(net.latches().as_slice(), values.as_slice(), latches);
        rows.push(values)?;
    }
    Ok(Some(rows))
}

/// The values of all variables where the latches and inputs have these, or `None` where a constraint
/// is false or the inputs are not as many.
#[tactic(auto, using(crate::proofs::States::no_state))]
fn state(alloc: Global, net: &Net, latches: &[bool], inputs: &[bool]) -> M<Option<Row>>
    requires { length latches.now ≡ length net.now.latches }
    ensures some { IfOk result (λ found. IfSome found (λ values.
        IsState net.now latches.now inputs.now values)) }
    ensures none { IfOk result (λ found. IfNone found ((values : List Bool) →
        ¬ IsState net.now latches.now inputs.now values)) }
{
    if inputs.len() != net.inputs() as usize {
        return Ok(None);
    }
    let mut values = vec![in alloc; false; net.variables() as usize]?;
    net.step(latches, inputs, &mut values);
    if are_true(net.constraints().as_slice(), &values) {
        Ok(Some(List::from_vec(values)))
    } else {
        Ok(None)
    }
}

/// Gives the latches the values that come next.
fn advance(nexts: &[u32], values: &[bool], latches: &mut [bool])
    requires nexts { AllBelow (length values.now) nexts.now }
    requires latches { length latches.old ≡ length nexts.now }
    ensures { latches.new ≡ values_of nexts.now values.now }
{
    for (j, next) in nexts.iter().enumerate() {
        latches[j] = value_of(values, *next);
    }
}

/// Whether the literals are all true.
fn are_true(literals: &[u32], values: &[bool]) -> bool
    requires { AllBelow (length values.now) literals.now }
    ensures { IsTrue result ↔ AllTrue literals.now (row values.now) }
{
    for literal in literals {
        if !value_of(values, *literal) {
            return false;
        }
    }
    true
}

/// Whether a cycle comes back to its first latch values, and each fairness literal is true in it.
fn is_round(net: &Net, cycle: &[Row], last: &[bool]) -> bool
    requires net { IsNet net.now }
    requires full { AreFull net.now cycle.now }
    requires last { length last.now ≡ length net.now.latches }
    ensures { IsTrue result ↔ IsRound net.now cycle.now last.now }
{
    if cycle.is_empty() {
        return false;
    }
    has_latches(net, cycle[0].as_slice(), last) && are_seen(cycle, net.fairs().as_slice())
}

/// Whether these are the values of the latches.
fn has_latches(net: &Net, values: &[bool], latches: &[bool]) -> bool
    requires values { length values.now ≡ variables net.now }
    requires latches { length latches.now ≡ length net.now.latches }
    ensures { IsTrue result ↔ (latch_row net.now values.now ≡ latches.now) }
{
    let first = 1 + net.inputs() as usize;
    &values[first..first + latches.len()] == latches
}

/// Whether each literal is true in some row.
fn are_seen(rows: &[Row], literals: &[u32]) -> bool
    requires { (k : ℕ) → k < length rows.now → AllBelow (length (row_at rows.now k)) literals.now }
    ensures { IsTrue result ↔ AreSeen rows.now literals.now }
{
    for literal in literals {
        if !is_seen(rows, *literal) {
            return false;
        }
    }
    true
}

/// Whether the literal is true in some row.
fn is_seen(rows: &[Row], literal: u32) -> bool
    requires { (k : ℕ) → k < length rows.now → Below (length (row_at rows.now k)) literal }
    ensures { IsTrue result ↔ IsSeen rows.now literal }
{
    for values in rows {
        if value_of(values.as_slice(), literal) {
            return true;
        }
    }
    false
}
