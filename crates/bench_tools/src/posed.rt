//! The nets of a formula on a circuit, made as `mchyper` makes them.

ghost use Rattle.std.specs.Prelude.{◌≡◌, ◌+◌, ◌≤◌, length, IfOk};
ghost use Rattle.std.specs.Bool.{OnTrue};
ghost use Rattle.hy_base.specs.declared.reading.TheConstants.{BYTES_LIMIT};
ghost use Rattle.hy_formula.specs.Trees.{tree_of};
ghost use Rattle.cnf_frames.specs.Facts.{IsSafe};
ghost use Rattle.formula_nets.specs.Posed.{HasRoom, IsTaken, is_existential};

use aig_net::Net;
use anyhow::{Result, bail, ensure};
use formula_nets::{circuits_have_room, net_for, safe_for, signals_are_own};
use hy_base::BYTES_LIMIT;
use hy_formula::{Class, Formula, NameTable, class};
use hy_read::read_formula;
use live_safe::SafeNet;
use ltl_closure::Closure;
use net_names::signals_of;
use std::alloc::Global;

/// The most quantifiers of a formula.
const QUANTIFIERS: u8 = 4;

/// The most variables of a circuit, with the constant.
const VARIABLES: u32 = 1_048_577;

/// The nets of a formula on a circuit.
#[derive(Drop)]
pub struct FormulaNets {
    /// Its executions are the tuples of executions that violate a universal formula, or that satisfy
    /// the body of an existential one.
    pub whole: Net,
    /// The safe net of that.
    pub safe: SafeNet,
}

/// The nets of the formula of a text on a circuit that is no larger than a file can say.
pub fn nets_of(alloc: Global, net: &Net, text: &str) -> Result<FormulaNets>
    ensures { IfOk result (λ nets. IsSafe nets.safe) }
{
    ensure!(is_small(net), "the circuit is too large");
    let mut names = NameTable::new(alloc)?;
    let formula = formula_of(alloc, text, &mut names)?;
    formula.prefix.len(); // what each prefix keeps
    circuits_have_room(); // and there is room for the safe net
    match class(&formula) {
        Class::Exists => pose(alloc, net, &formula, true, &names),
        Class::Forall => pose(alloc, net, &formula, false, &names),
        Class::ExistsForall | Class::Other => bail!("the quantifiers alternate"),
    }
}

/// Whether the circuit is no larger than a file can say.
fn is_small(net: &Net) -> bool
    ensures variables { OnTrue result
        (net.now.inputs + length net.now.latches + length net.now.ands ≤ 1048576) }
    ensures literals { OnTrue result (length net.now.outputs + length net.now.constraints
        + length net.now.fairs ≤ BYTES_LIMIT) }
{
    let outputs = net.outputs().len();
    let constraints = net.constraints().len();
    net.variables() <= VARIABLES
        && outputs <= BYTES_LIMIT
        && constraints <= BYTES_LIMIT - outputs
        && net.fairs().len() <= BYTES_LIMIT - outputs - constraints
}

/// The formula of the text, whose names are added to the table.
fn formula_of(alloc: Global, text: &str, names: &mut NameTable) -> Result<Formula>
    ensures { IfOk result (λ formula. length formula.prefix ≤ 4) }
{
    let bytes = text.as_bytes();
    ensure!(bytes.len() <= u32::MAX as usize, "the file is too long");
    match read_formula(alloc, bytes, QUANTIFIERS, names) {
        Ok(formula) if formula.prefix.len() <= 4 => Ok(formula),
        Ok(_) => bail!("the formula has too many quantifiers"),
        Err(error) => bail!("no formula: {error:?}"),
    }
}

/// The nets of a formula whose quantifiers are all existential, or all universal.
fn pose(
    alloc: Global,
    net: &Net,
    formula: &Formula,
    existential: bool,
    names: &NameTable,
) -> Result<FormulaNets>
    requires taken { IsTaken formula.now.prefix }
    requires kind { existential ≡ is_existential formula.now.prefix }
    requires room { HasRoom net.now names.now formula.now.prefix (tree_of formula.now.body) }
    ensures { IfOk result (λ nets. IsSafe nets.safe) }
{
    net.variables(); // what each net keeps
    signals_are_own(); // and the signals of names
    let n = formula.prefix.len() as u8;
    let body = &formula.body;
    let closure = Closure::of_body(alloc, body, n, existential)?;
    let signals = signals_of(alloc, net, body, names)?;
    let whole = net_for(alloc, net, n, body, existential, &closure, &signals)?;
    let safe = safe_for(alloc, net, n, body, existential, &closure, &signals)?;
    Ok(FormulaNets { whole, safe })
}
