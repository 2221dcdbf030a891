//! Runs that show what a formula says of a circuit.

ghost use Rattle.std.specs.Prelude.{◌≡◌, ℕ, ◌<◌, length, IfOk, IsTrue};
ghost use Rattle.hy_formula.specs.Trees.{tree_of, vars_below};
ghost use Rattle.aig_net.specs.declared.run.ValueLasso.{ValueLasso};
ghost use Rattle.aig_net.specs.Nets.{variables};
ghost use Rattle.aig_net.specs.Simulations.{IsExecutionOf};
ghost use Rattle.sym_tableau.specs.Places.{AreWithin};
ghost use Rattle.wit_lasso.specs.FormulaNets.{AreOwn};
ghost use Rattle.wit_lasso.specs.Unfoldings.{GoesToBad, run_at};
ghost use Rattle.formula_nets.specs.Posed.{checked_safe, is_existential};
ghost use Rattle.formula_nets.specs.Witnesses.{AreTraces, AreWitnesses};

use aig_net::{Net, Run, RunList, Signals};
use hy_base::{List, M};
use hy_formula::Formula;
use hy_lasso::LassoList;
use live_safe::{Path, SafeNet};
use std::alloc::Global;
use wit_lasso::{checked, unfold, visible};

/// Runs, and what is seen of them, in the order of the quantifiers.
#[derive(Drop)]
pub struct Witnesses {
    pub traces: LassoList,
    pub runs: RunList,
}

/// The runs for which a path to bad stands, and their visible traces. In time linear in the net for
/// each step of the path and each quantifier.
pub fn find_witnesses(
    alloc: Global,
    net: &Net,
    formula: &Formula,
    signals: &Signals,
    safe: &SafeNet,
    path: &Path,
) -> M<Witnesses>
    requires small { IsTrue (vars_below (length formula.now.prefix) (tree_of formula.now.body)) }
    requires own { AreOwn net.now signals.now }
    requires safe { safe.now ≡ checked_safe net.now signals.now formula.now.prefix
        (tree_of formula.now.body) }
    requires path { GoesToBad safe.now path.now }
    ensures { IfOk result (λ w. AreWitnesses net.now signals.now (length formula.now.prefix)
        (tree_of formula.now.body) (is_existential formula.now.prefix) w.traces w.runs) }
{
    net.variables(); // what each net keeps
    checked(); // what the traces of a path's runs say
    let runs = unfold(alloc, net, formula.prefix.len() as u8, safe, path)?;
    let traces = traces_of(alloc, net, runs.as_slice(), signals)?;
    Ok(Witnesses { traces, runs })
}

/// The visible traces of runs, in time linear in the net for each step of each run.
pub fn traces_of(alloc: Global, net: &Net, runs: &[Run], signals: &Signals) -> M<LassoList>
    requires runs { (c : ℕ) → c < length runs.now →
        (values : ValueLasso) × IsExecutionOf net.now (run_at runs.now c) values }
    requires within { AreWithin (variables net.now) signals.now }
    ensures { IfOk result (AreTraces net.now signals.now runs.now) }
{
    let mut traces = List::new(alloc);
    for run in runs {
        traces.push(visible(alloc, net, run, signals)?)?;
    }
    Ok(traces)
}
