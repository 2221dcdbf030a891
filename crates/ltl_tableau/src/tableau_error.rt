ghost use Rattle.std.specs.Prelude.{◌≡◌};
ghost use Rattle.ltl_tableau.specs.declared.tableau_error.TableauError.TheVariants.{Memory as OutOfMemory};

use hy_base::Memory;
use std::error::Error;
use std::fmt;

/// A tableau was not built.
#[derive(Clone, Copy, Debug, PartialEq, Eq)]
pub enum TableauError {
    /// More branches are reachable than were allowed.
    States,
    Memory,
}

impl fmt::Display for TableauError {
    fn fmt<W: fmt::Write>(&self, f: &mut fmt::Formatter<W>) -> fmt::Result {
        match self {
            TableauError::States => write!(f, "too many branches"),
            TableauError::Memory => write!(f, "{Memory}"),
        }
    }
}

impl Error for TableauError {}

impl From<Memory> for TableauError {
    ghost from_gives = { λ _ e. e ≡ OutOfMemory };

    fn from(_e: Memory) -> TableauError {
        TableauError::Memory
    }
}
