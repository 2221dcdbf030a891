//! Whether a circuit satisfies a formula by a strategy.

ghost use Rattle.std.specs.Prelude.{◌<◌, ◌≤◌, ◌^◌, List, ℕ, length, Err};
ghost use Rattle.hy_formula.specs.Formulas.{Plain, plain_formula};
ghost use Rattle.aig_net.specs.Nets.{Net as Circuit};
ghost use Rattle.strat_compose.specs.Driving.{IsSmall};
ghost use Rattle.strat_core.specs.Answers.{IsStrategyRefused};
ghost use Rattle.mc_tool.specs.Driving.{IsDrive};

use crate::refusal::{bad_name, past};
use crate::verdict::{McFault, McVerdict};
use aig_net::Net;
use hy_formula::{Formula, NameTable};
use hy_run::Refusal;
use mc_core::Ask;
use std::alloc::Global;
use strat_core::{StrategyChecked, StrategyError, check_strategy};

/// Whether the strategy makes of executions of the circuit for the universal quantifiers of the formula
/// such for the existential ones, with which they satisfy it; by the names of the table.
pub fn check_by_strategy(
    alloc: Global,
    net: &Net,
    strategy: &Net,
    formula: &Formula,
    names: &NameTable,
    ask: &Ask,
) -> Result<McVerdict, Refusal<McFault>>
    requires conflicts { ask.now.conflicts < 2 ^ 31 }
    requires small { IsSmall net.now }
    requires slight { IsSmall strategy.now }
    requires quantifiers { length formula.now.prefix ≤ 4 }
    ensures { IsDrive net.now strategy.now names.now (plain_formula formula.now) ask.now result }
{
    match check_strategy(alloc, net, strategy, formula, names, ask) {
        Ok(StrategyChecked::Holds) => Ok(McVerdict::StrategyHolds),
        Ok(StrategyChecked::Fails { traces, runs }) => {
            Ok(McVerdict::StrategyFails { traces, runs })
        }
        Ok(StrategyChecked::Unknown(open)) => Ok(McVerdict::Checked(open)),
        Err(error) => Err(refused(alloc, names, error)),
    }
}

/// How it is answered that nothing was checked.
fn refused(alloc: Global, names: &NameTable, error: StrategyError) -> Refusal<McFault>
    ensures { (net strategy : Circuit) (f : Plain) (ask : Ask)
        → IsStrategyRefused net strategy f.prefix f.body names.now ask error
        → IsDrive net strategy names.now f ask (Err result) }
{
    match error {
        StrategyError::Prefix(class) => Refusal::Prefix { file: 1, class },
        StrategyError::Shape { inputs, outputs } => {
            Refusal::Own(McFault::Strategy { inputs, outputs })
        }
        StrategyError::Names(limit) => past(limit),
        StrategyError::Closure(limit) => past(limit),
        StrategyError::Facts(limit) => past(limit),
        StrategyError::CnfLimit { kind, limit, kept } => {
            Refusal::Own(McFault::CnfLimit { kind, limit, kept })
        }
        StrategyError::Name { name, twice } => bad_name(alloc, names, name, twice),
        StrategyError::Memory => Refusal::Memory,
    }
}
