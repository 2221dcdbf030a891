//! Why an event is refused, and why specs are not monitored.

ghost use Rattle.std.specs.Prelude.{◌≡◌};
ghost use Rattle.rv_core.specs.declared.rv_error.RvError.TheVariants.{Memory as OutOfMemory};
ghost use Rattle.rv_core.specs.declared.rv_error.RvNewError.TheVariants.{Memory as NewOutOfMemory};

use hy_base::{Kind, Memory};
use hy_formula::Class;
use std::error::Error;
use std::fmt;

/// An event was refused.
#[derive(Clone, Copy, Debug, PartialEq, Eq)]
pub enum RvError {
    /// The session that ends is not open.
    NoLetter,
    /// There is no save to come back to.
    NoSave,
    /// The length of a session, the open sessions or the saves are too many; no other kind comes.
    Limit(Kind),
    Memory,
}

impl fmt::Display for RvError {
    fn fmt<W: fmt::Write>(&self, f: &mut fmt::Formatter<W>) -> fmt::Result {
        match self {
            RvError::NoLetter => write!(f, "the session is not open"),
            RvError::NoSave => write!(f, "there is no save"),
            RvError::Limit(kind) => write!(f, "{kind:?} is too large"),
            RvError::Memory => write!(f, "{Memory}"),
        }
    }
}

impl Error for RvError {}

impl From<Memory> for RvError {
    ghost from_gives = { λ _ e. e ≡ OutOfMemory };

    fn from(_e: Memory) -> RvError {
        RvError::Memory
    }
}

/// Specs are not monitored.
#[derive(Clone, Copy, Debug, PartialEq, Eq)]
pub enum RvNewError {
    /// A spec is not universal, but of this class.
    Prefix { spec: u32, class: Class },
    /// The closure, the atoms or the table of a body is too large; no other kind comes.
    Limit(Kind),
    Memory,
}

impl fmt::Display for RvNewError {
    fn fmt<W: fmt::Write>(&self, f: &mut fmt::Formatter<W>) -> fmt::Result {
        match self {
            RvNewError::Prefix { spec, class } => write!(f, "spec {spec} is {class:?}"),
            RvNewError::Limit(kind) => write!(f, "{kind:?} is too large"),
            RvNewError::Memory => write!(f, "{Memory}"),
        }
    }
}

impl Error for RvNewError {}

impl From<Memory> for RvNewError {
    ghost from_gives = { λ _ e. e ≡ NewOutOfMemory };

    fn from(_e: Memory) -> RvNewError {
        RvNewError::Memory
    }
}
