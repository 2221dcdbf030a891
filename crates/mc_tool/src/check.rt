//! Whether a circuit satisfies a formula.

ghost use Rattle.std.specs.Prelude.{◌+◌, ◌<◌, ◌≤◌, ◌^◌, length};
ghost use Rattle.hy_base.specs.declared.reading.TheConstants.{BYTES_LIMIT};
ghost use Rattle.hy_formula.specs.Formulas.{plain_formula};
ghost use Rattle.mc_tool.specs.Checking.{IsCheck};

use crate::refusal::{bad_name, past};
use crate::verdict::{McFault, McVerdict};
use aig_net::Net;
use formula_nets::circuits_have_room;
use hy_formula::{Formula, NameTable};
use hy_run::Refusal;
use mc_core::{Ask, McError};
use std::alloc::Global;

/// Whether the circuit satisfies the formula, by the names of the table.
pub fn check(
    alloc: Global,
    net: &Net,
    formula: &Formula,
    names: &NameTable,
    ask: &Ask,
) -> Result<McVerdict, Refusal<McFault>>
    requires conflicts { ask.now.conflicts < 2 ^ 31 }
    requires variables { net.now.inputs + length net.now.latches + length net.now.ands ≤ 1048576 }
    requires literals { length net.now.outputs + length net.now.constraints + length net.now.fairs
        ≤ BYTES_LIMIT }
    requires quantifiers { length formula.now.prefix ≤ 4 }
    ensures { IsCheck net.now names.now (plain_formula formula.now) ask.now result }
{
    formula.prefix.len(); // what each prefix keeps
    circuits_have_room(); // and there is room for the safe net
    match mc_core::check(alloc, net, formula, names, ask) {
        Ok(checked) => Ok(McVerdict::Checked(checked)),
        Err(McError::Prefix(class)) => Err(Refusal::Prefix { file: 1, class }),
        Err(McError::Limit(limit)) => Err(past(limit)),
        Err(McError::CnfLimit { kind, limit, kept }) => {
            Err(Refusal::Own(McFault::CnfLimit { kind, limit, kept }))
        }
        Err(McError::Name { name, twice }) => Err(bad_name(alloc, names, name, twice)),
        Err(McError::Memory) => Err(Refusal::Memory),
    }
}
