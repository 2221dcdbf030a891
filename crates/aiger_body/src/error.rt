//! Why bytes are no circuit that is read.

ghost use Rattle.std.specs.Prelude.{◌≡◌};
ghost use Rattle.aiger_body.specs.declared.error.AigerError.TheVariants.{Memory as OutOfMemory};

use aig_kind::AigKind;
use hy_base::{Limit, Memory};
use std::error::Error;
use std::fmt;

/// Why a text was not read.
#[derive(Clone, Copy, Debug, PartialEq, Eq)]
pub enum AigerError {
    /// It is no circuit text, by what begins at this byte.
    Bad { kind: AigKind, byte: u32 },
    /// Its greatest variable is past the limit.
    Limit(Limit),
    Memory,
}

impl fmt::Display for AigerError {
    fn fmt<W: fmt::Write>(&self, f: &mut fmt::Formatter<W>) -> fmt::Result {
        match self {
            AigerError::Bad { kind, byte } => write!(f, "{kind} byte {byte}"),
            AigerError::Limit(limit) => write!(f, "variables {}", limit.limit),
            AigerError::Memory => write!(f, "{Memory}"),
        }
    }
}

impl Error for AigerError {}

impl From<Memory> for AigerError {
    ghost from_gives = { λ _ e. e ≡ OutOfMemory };

    fn from(_e: Memory) -> AigerError {
        AigerError::Memory
    }
}
