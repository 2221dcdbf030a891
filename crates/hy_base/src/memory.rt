ghost use Rattle.std.specs.Prelude.{◌≡◌};

use std::alloc::{AllocError, AllocFailed};
use std::error::Error;
use std::fmt;

/// Memory ran out. It is the one answer that needs no cause.
#[derive(Clone, Copy, Debug, PartialEq, Eq)]
pub struct Memory;

/// What a call gives that can only fail for want of memory.
pub type M<T> = Result<T, Memory>;

impl fmt::Display for Memory {
    fn fmt<W: fmt::Write>(&self, f: &mut fmt::Formatter<W>) -> fmt::Result {
        write!(f, "memory")
    }
}

impl Error for Memory {}

impl From<AllocError> for Memory {
    ghost from_gives = { λ _ m. m ≡ record {} };

    fn from(_e: AllocError) -> Memory {
        Memory
    }
}

impl<T: Drop> From<AllocFailed<T>> for Memory {
    ghost from_gives = { λ _ m. m ≡ record {} };

    fn from(_e: AllocFailed<T>) -> Memory {
        Memory
    }
}
