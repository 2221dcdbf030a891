ghost use Rattle.std.specs.Prelude.{◌≡◌};
ghost use Rattle.ea_reduce.specs.declared.reduce_error.ReduceError.TheVariants.{Memory as OutOfMemory};

use hy_base::{Limit, Memory};
use hy_formula::Class;
use std::error::Error;
use std::fmt;

/// A plan was not made.
#[derive(Clone, Copy, Debug, PartialEq, Eq)]
pub enum ReduceError {
    /// The formula, the second one of two or the first, is of a class that is not taken.
    Prefix { second: bool, class: Class },
    /// A job would have more than 4,096 maps.
    Limit(Limit),
    Memory,
}

impl fmt::Display for ReduceError {
    fn fmt<W: fmt::Write>(&self, f: &mut fmt::Formatter<W>) -> fmt::Result {
        match self {
            ReduceError::Prefix { .. } => write!(f, "quantifiers of a class that is not taken"),
            ReduceError::Limit(limit) => write!(f, "more than {} maps", limit.limit),
            ReduceError::Memory => write!(f, "{Memory}"),
        }
    }
}

impl Error for ReduceError {}

impl From<Memory> for ReduceError {
    ghost from_gives = { λ _ e. e ≡ OutOfMemory };

    fn from(_e: Memory) -> ReduceError {
        ReduceError::Memory
    }
}
