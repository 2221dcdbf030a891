//! The check of a circuit by a strategy.

ghost use Rattle.std.specs.Prelude.{◌≤◌, ◌<◌, ◌^◌, length};
ghost use Rattle.hy_formula.specs.Trees.{tree_of};
ghost use Rattle.strat_compose.specs.Driving.{IsSmall};
ghost use Rattle.strat_compose.specs.Refusals.{IsDriven};
ghost use Rattle.strat_core.specs.Answers.{IsStrategyAnswer};

use crate::checked::StrategyChecked;
use crate::failing::{own_signals, universal_count, universal_witnesses};
use crate::laws::driven_nets_have_room;
use crate::refusal::{StrategyError, refused};
use aig_net::{Net, runs_are_executions};
use hy_formula::{Formula, NameTable};
use mc_core::{Ask, Checked, check};
use std::alloc::Global;
use strat_compose::{Driven, drive, driven_names_are_outputs, strategies_win};

/// Checks a circuit against a formula with universal and then existential quantifiers, where the
/// strategy chooses the existential executions: the driven net against the driven formula, as `drive`
/// makes them and `check` checks them.
///
/// # Errors
///
/// As `StrategyError` says, and in its order.
pub fn check_strategy(
    alloc: Global,
    net: &Net,
    strategy: &Net,
    formula: &Formula,
    names: &NameTable,
    ask: &Ask,
) -> Result<StrategyChecked, StrategyError>
    requires small { IsSmall net.now }
    requires slight { IsSmall strategy.now }
    requires quantifiers { length formula.now.prefix ≤ 4 }
    requires conflicts { ask.now.conflicts < 2 ^ 31 }
    ensures { IsStrategyAnswer net.now strategy.now formula.now.prefix
        (tree_of formula.now.body) names.now ask.now result }
{
    let driven = drive(alloc, net, strategy, formula, names)?;
    check_driven(alloc, net, strategy, formula, names, &driven, ask)
}

/// The same where this was driven.
fn check_driven(
    alloc: Global,
    net: &Net,
    strategy: &Net,
    formula: &Formula,
    names: &NameTable,
    driven: &Driven,
    ask: &Ask,
) -> Result<StrategyChecked, StrategyError>
    requires small { IsSmall net.now }
    requires slight { IsSmall strategy.now }
    requires quantifiers { length formula.now.prefix ≤ 4 }
    requires conflicts { ask.now.conflicts < 2 ^ 31 }
    requires driven { IsDriven net.now strategy.now formula.now.prefix
        (tree_of formula.now.body) names.now driven.now }
    ensures { IsStrategyAnswer net.now strategy.now formula.now.prefix
        (tree_of formula.now.body) names.now ask.now result }
{
    net.variables(); // what each net keeps
    strategy.variables();
    driven_nets_have_room(); // for the safe net
    driven_names_are_outputs(); // what the names of the driven formula show
    strategies_win(); // where that holds
    runs_are_executions(); // and what the universal runs are
    match check(alloc, &driven.net, &driven.formula, &driven.names, ask) {
        Ok(Checked::Holds { .. }) => Ok(StrategyChecked::Holds),
        Ok(Checked::Violated { runs, .. }) => {
            let m = universal_count(&formula.prefix);
            let signals = own_signals(alloc, net, &formula.body, names)?;
            let found = universal_witnesses(alloc, net, m, runs.at(0), &signals)?;
            Ok(StrategyChecked::Fails {
                traces: found.traces,
                runs: found.runs,
            })
        }
        Ok(open) => Ok(StrategyChecked::Unknown(open)),
        Err(e) => Err(refused(e)),
    }
}
