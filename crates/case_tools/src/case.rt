//! Cases of either kind.

use crate::circuits::CircuitCase;
use crate::commands::CommandCase;
use crate::tools::Tools;
use crate::{circuit_report, command_report};
use anyhow::{Result, bail, ensure};
use std::alloc::Global;

/// Something to be tried, and what is expected of it.
#[derive(Drop)]
pub(crate) enum Case {
    Command(CommandCase),
    Circuit(CircuitCase),
}

impl Case {
    /// The case that a line begins by its kind and its name.
    pub(crate) fn begun(alloc: Global, line: &str) -> Result<Case> {
        let (kind, name) = halves(line);
        match kind {
            "case" => Ok(Case::Command(CommandCase::named(alloc, name_of(alloc, name)?))),
            "circuit" => Ok(Case::Circuit(CircuitCase::named(alloc, name_of(alloc, name)?))),
            _ => bail!("no case is open"),
        }
    }

    /// Takes one more line of the case.
    pub(crate) fn take(&mut self, alloc: Global, line: &str) -> Result<()> {
        let (directive, text) = halves(line);
        match self {
            Case::Command(case) => case.take(alloc, directive, text),
            Case::Circuit(case) => case.take(alloc, directive, text),
        }
    }

    /// Tries it, and prints what is not as expected. Says whether all is.
    pub(crate) fn holds<T: Tools>(&mut self, rt: &HostRuntime) -> Result<bool> {
        match self {
            Case::Command(case) => command_report::report::<T>(rt, case),
            Case::Circuit(case) => circuit_report::report(rt, case),
        }
    }
}

/// The first word of a line, and what stands behind the space.
pub(crate) fn halves(line: &str) -> (&str, &str) {
    line.split_once(' ').unwrap_or((line, ""))
}

/// A name, which is not empty.
fn name_of(alloc: Global, name: &str) -> Result<String> {
    ensure!(!name.is_empty(), "a case has a name");
    Ok(String::from_str(alloc, name)?)
}
