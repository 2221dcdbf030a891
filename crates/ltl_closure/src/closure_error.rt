ghost use Rattle.std.specs.Prelude.{◌≡◌};
ghost use Rattle.ltl_closure.specs.declared.closure_error.ClosureError.TheVariants.{Memory as OutOfMemory};

use crate::numbering::MAX_MEMBERS;
use hy_base::Memory;
use std::error::Error;
use std::fmt;

/// A closure was not made.
#[derive(Clone, Copy, Debug, PartialEq, Eq)]
pub enum ClosureError {
    /// It would have more than 1,024 members.
    Limit,
    Memory,
}

impl fmt::Display for ClosureError {
    fn fmt<W: fmt::Write>(&self, f: &mut fmt::Formatter<W>) -> fmt::Result {
        match self {
            ClosureError::Limit => write!(f, "more than {MAX_MEMBERS} members of a closure"),
            ClosureError::Memory => write!(f, "{Memory}"),
        }
    }
}

impl Error for ClosureError {}

impl From<Memory> for ClosureError {
    ghost from_gives = { λ _ e. e ≡ OutOfMemory };

    fn from(_e: Memory) -> ClosureError {
        ClosureError::Memory
    }
}
