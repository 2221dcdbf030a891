//! Why a formula has no signals in a net.

ghost use Rattle.std.specs.Prelude.{◌≡◌};
ghost use Rattle.net_names.specs.declared.name_error.NameError.TheVariants.{Memory as OutOfMemory};

use hy_base::Memory;
use std::error::Error;
use std::fmt;

/// A formula has no signals in a net.
#[derive(Clone, Copy, Debug, PartialEq, Eq)]
pub enum NameError {
    /// The first name of the formula, by its number, that nothing in the net has, or that `twice`
    /// stands for different literals.
    Bad { name: u8, twice: bool },
    Memory,
}

impl fmt::Display for NameError {
    fn fmt<W: fmt::Write>(&self, f: &mut fmt::Formatter<W>) -> fmt::Result {
        match self {
            NameError::Bad { name, twice: false } => write!(f, "name {name} stands for nothing"),
            NameError::Bad { name, twice: true } => write!(
                f,
                "name {name} stands for different literals"
            ),
            NameError::Memory => write!(f, "{Memory}"),
        }
    }
}

impl Error for NameError {}

impl From<Memory> for NameError {
    ghost from_gives = { λ _ e. e ≡ OutOfMemory };

    fn from(_e: Memory) -> NameError {
        NameError::Memory
    }
}
