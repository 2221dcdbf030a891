//! What shows that a strategy does not win.

ghost use Rattle.std.specs.Prelude.{◌≡◌, ℕ, List, ◌<◌, ◌≤◌, length, IfOk};
ghost use Rattle.hy_base.specs.Rows.{listed};
ghost use Rattle.hy_formula.specs.Trees.{tree_of};
ghost use Rattle.aig_net.specs.declared.run.ValueLasso.{ValueLasso};
ghost use Rattle.aig_net.specs.declared.signals.Signal.{Signal};
ghost use Rattle.aig_net.specs.Nets.{variables};
ghost use Rattle.aig_net.specs.Simulations.{IsExecutionOf};
ghost use Rattle.net_names.specs.Names.{AreSignals};
ghost use Rattle.sym_tableau.specs.Places.{AreWithin};
ghost use Rattle.strat_compose.specs.Prefixes.{IsForallExists};
ghost use Rattle.strat_compose.specs.Runs.{HasCopies, universal_run};
ghost use Rattle.formula_nets.specs.Witnesses.{AreTraces};

use aig_net::{Net, Run, Signals};
use formula_nets::{Witnesses, traces_of};
use hy_base::{M, Memory};
use hy_formula::{Body, NameTable, Prefix};
use net_names::{NameError, signals_of};
use std::alloc::Global;
use strat_compose::{count_quantifiers, universal_runs};

/// How many universal quantifiers a prefix has, which has existential ones behind them.
pub fn universal_count(prefix: &Prefix) -> u8
    requires shape { (m e : ℕ) × IsForallExists prefix.now m e }
    requires few { length prefix.now ≤ 4 }
    ensures { (e : ℕ) × IsForallExists prefix.now result e }
{
    let Some(counts) = count_quantifiers(prefix) else {
        unreachable!()
    };
    counts.universal as u8
}

/// The signals of the names of a body, each of which stands for one literal.
pub fn own_signals(alloc: Global, net: &Net, body: &Body, names: &NameTable) -> M<Signals>
    requires { (signals : List Signal) × AreSignals net.now names.now (tree_of body.now) signals }
    ensures { IfOk result (AreSignals net.now names.now (tree_of body.now)) }
{
    match signals_of(alloc, net, body, names) {
        Ok(signals) => Ok(signals),
        Err(NameError::Memory) => Err(Memory),
        Err(NameError::Bad { .. }) => unreachable!(),
    }
}

/// The runs of the `m` universal copies of a circuit in a run of a net that drives it, and what is
/// seen of them. In time linear in the circuit for each step of each run.
pub fn universal_witnesses(
    alloc: Global,
    net: &Net,
    m: u8,
    run: &Run,
    signals: &Signals,
) -> M<Witnesses>
    requires copies { HasCopies net.now m run.now }
    requires executions { (c : ℕ) → c < m → (values : ValueLasso)
        × IsExecutionOf net.now (universal_run net.now m run.now c) values }
    requires within { AreWithin (variables net.now) signals.now }
    ensures runs { IfOk result (λ w. w.runs ≡ listed 0 m (universal_run net.now m run.now)) }
    ensures traces { IfOk result (λ w. AreTraces net.now signals.now w.runs w.traces) }
{
    let runs = universal_runs(alloc, net, m, run)?;
    let traces = traces_of(alloc, net, runs.as_slice(), signals)?;
    Ok(Witnesses { traces, runs })
}
