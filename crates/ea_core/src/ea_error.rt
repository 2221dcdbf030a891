ghost use Rattle.std.specs.Prelude.{◌≡◌};
ghost use Rattle.ea_core.specs.declared.ea_error.EaError.TheVariants.{Memory as OutOfMemory};
ghost use Rattle.ea_core.specs.Undecided.{of_plan, of_closure, of_tableau};

use ea_reduce::ReduceError;
use hy_base::{Kind, Limit, Memory};
use hy_formula::Class;
use ltl_closure::ClosureError;
use ltl_tableau::TableauError;
use std::error::Error;
use std::fmt;

/// Nothing was decided.
#[derive(Clone, Copy, Debug, PartialEq, Eq)]
pub enum EaError {
    /// The formula, the second one of two or the first, is of a class that is not taken.
    Prefix { second: bool, class: Class },
    /// There are too many maps of a job, or members of a closure.
    Limit(Limit),
    /// More branches are reachable than were allowed.
    States,
    Memory,
}

impl fmt::Display for EaError {
    fn fmt<W: fmt::Write>(&self, f: &mut fmt::Formatter<W>) -> fmt::Result {
        match self {
            EaError::Prefix { .. } => write!(f, "quantifiers of a class that is not taken"),
            EaError::Limit(limit) => write!(f, "a limit of {} is passed", limit.limit),
            EaError::States => write!(f, "too many branches"),
            EaError::Memory => write!(f, "{Memory}"),
        }
    }
}

impl Error for EaError {}

impl From<Memory> for EaError {
    ghost from_gives = { λ _ e. e ≡ OutOfMemory };

    fn from(_e: Memory) -> EaError {
        EaError::Memory
    }
}

impl From<ReduceError> for EaError {
    ghost from_gives = { λ given e. e ≡ of_plan given };

    fn from(e: ReduceError) -> EaError {
        match e {
            ReduceError::Prefix { second, class } => EaError::Prefix { second, class },
            ReduceError::Limit(limit) => EaError::Limit(limit),
            ReduceError::Memory => EaError::Memory,
        }
    }
}

impl From<ClosureError> for EaError {
    ghost from_gives = { λ given e. e ≡ of_closure given };

    fn from(e: ClosureError) -> EaError {
        match e {
            ClosureError::Limit => EaError::Limit(Limit {
                kind: Kind::Closure,
                limit: Kind::Closure.most(),
            }),
            ClosureError::Memory => EaError::Memory,
        }
    }
}

impl From<TableauError> for EaError {
    ghost from_gives = { λ given e. e ≡ of_tableau given };

    fn from(e: TableauError) -> EaError {
        match e {
            TableauError::States => EaError::States,
            TableauError::Memory => EaError::Memory,
        }
    }
}
