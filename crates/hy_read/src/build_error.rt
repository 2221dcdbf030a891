ghost use Rattle.std.specs.Prelude.{◌≡◌};
ghost use Rattle.hy_read.specs.declared.build_error.BuildError.TheVariants.{Memory as OfMemory};

use hy_base::Memory;
use std::alloc::AllocFailed;

/// Why the body of a text of the grammar was not built.
#[derive(Clone, Copy, Debug, PartialEq, Eq)]
pub enum BuildError {
    /// It is too high.
    TooHigh,
    Memory,
}

impl From<Memory> for BuildError {
    ghost from_gives = { λ _ e. e ≡ OfMemory };

    fn from(_e: Memory) -> BuildError {
        BuildError::Memory
    }
}

impl<T: Drop> From<AllocFailed<T>> for BuildError {
    ghost from_gives = { λ _ e. e ≡ OfMemory };

    fn from(_e: AllocFailed<T>) -> BuildError {
        BuildError::Memory
    }
}
