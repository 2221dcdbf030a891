//! The check of a circuit against a formula.

ghost use Rattle.std.specs.Prelude.{◌≡◌, ◌<◌, ◌^◌};
ghost use Rattle.hy_formula.specs.Trees.{tree_of};
ghost use Rattle.formula_nets.specs.Posed.{HasRoom, IsTaken, is_existential};
ghost use Rattle.mc_core.specs.Answers.{IsAnswer};

use crate::ask::Ask;
use crate::checked::Checked;
use crate::judging::judge;
use crate::mc_error::McError;
use aig_net::Net;
use formula_nets::{safe_for, signals_are_own};
use hy_formula::{Class, Formula, NameTable, class};
use ltl_closure::Closure;
use net_names::signals_of;
use std::alloc::Global;

/// Checks a circuit against a formula whose quantifiers are all universal or all existential, and
/// whose names are those of inputs, latches and outputs.
///
/// # Errors
///
/// As `McError` says, and in its order.
pub fn check(
    alloc: Global,
    net: &Net,
    formula: &Formula,
    names: &NameTable,
    ask: &Ask,
) -> Result<Checked, McError>
    requires conflicts { ask.now.conflicts < 2 ^ 31 }
    requires room { HasRoom net.now names.now formula.now.prefix (tree_of formula.now.body) }
    ensures { IsAnswer net.now names.now formula.now.prefix (tree_of formula.now.body) ask.now
        result }
{
    match class(formula) {
        Class::Exists => check_as(alloc, net, formula, true, names, ask),
        Class::Forall => check_as(alloc, net, formula, false, names, ask),
        other => Err(McError::Prefix(other)),
    }
}

/// The same of a formula whose quantifiers are all existential, or all universal.
fn check_as(
    alloc: Global,
    net: &Net,
    formula: &Formula,
    existential: bool,
    names: &NameTable,
    ask: &Ask,
) -> Result<Checked, McError>
    requires taken { IsTaken formula.now.prefix }
    requires kind { existential ≡ is_existential formula.now.prefix }
    requires conflicts { ask.now.conflicts < 2 ^ 31 }
    requires room { HasRoom net.now names.now formula.now.prefix (tree_of formula.now.body) }
    ensures { IsAnswer net.now names.now formula.now.prefix (tree_of formula.now.body) ask.now
        result }
{
    net.variables(); // what each net keeps
    signals_are_own(); // and the signals of names
    let n = formula.prefix.len() as u8;
    let body = &formula.body;
    let closure = Closure::of_body(alloc, body, n, existential)?;
    let signals = signals_of(alloc, net, body, names)?;
    let safe = safe_for(alloc, net, n, body, existential, &closure, &signals)?;
    judge(alloc, net, formula, existential, &signals, &safe, ask)
}
