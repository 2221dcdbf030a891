ghost use Rattle.std.specs.Prelude.{◌≡◌};
ghost use Rattle.fin_monitor.specs.declared.monitor_error.MonitorError.TheVariants.{Memory as OutOfMemory};

use hy_base::{Kind, Memory};
use std::error::Error;
use std::fmt;

/// A monitor was not built.
#[derive(Clone, Copy, Debug, PartialEq, Eq)]
pub enum MonitorError {
    /// The closure, the atoms or the table of the body is too large; no other kind comes.
    Limit(Kind),
    Memory,
}

impl fmt::Display for MonitorError {
    fn fmt<W: fmt::Write>(&self, f: &mut fmt::Formatter<W>) -> fmt::Result {
        match self {
            MonitorError::Limit(kind) => write!(f, "{kind:?} is too large"),
            MonitorError::Memory => write!(f, "{Memory}"),
        }
    }
}

impl Error for MonitorError {}

impl From<Memory> for MonitorError {
    ghost from_gives = { λ _ e. e ≡ OutOfMemory };

    fn from(_e: Memory) -> MonitorError {
        MonitorError::Memory
    }
}
