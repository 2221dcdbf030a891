ghost use Rattle.std.specs.Prelude.{◌≡◌};
ghost use Rattle.hy_read.specs.declared.error.ReadError.TheVariants.{Memory as OfMemory};

use hy_base::{Limit, Memory};
use std::alloc::AllocFailed;
use std::error::Error;
use std::fmt;

/// Why a text was not read. Bytes and tokens are counted from 0.
#[derive(Clone, Copy, Debug, PartialEq, Eq)]
pub enum ReadError {
    /// The text is none of the grammar: the number of tokens before the first one that no text has
    /// there, and its first byte. Where the end is the fault, the byte is the text's length.
    Syntax { token: u32, byte: u32 },
    /// The first byte of the first atom whose variable no quantifier of its formula binds.
    Unbound { byte: u32 },
    /// A count is past its number. The counts are those of specs, quantifiers, parens, height and
    /// names; the first of them in this order, each over the whole text.
    Limit(Limit),
    /// Memory ran out.
    Memory,
}

impl fmt::Display for ReadError {
    fn fmt<W: fmt::Write>(&self, f: &mut fmt::Formatter<W>) -> fmt::Result {
        match self {
            ReadError::Syntax { token, byte } => {
                write!(f, "a fault of syntax at token {token}, byte {byte}")
            }
            ReadError::Unbound { byte } => write!(f, "an unbound atom at byte {byte}"),
            ReadError::Limit(limit) => write!(f, "a count past {}", limit.limit),
            ReadError::Memory => write!(f, "{Memory}"),
        }
    }
}

impl Error for ReadError {}

impl From<Memory> for ReadError {
    ghost from_gives = { λ _ e. e ≡ OfMemory };

    fn from(_e: Memory) -> ReadError {
        ReadError::Memory
    }
}

impl<T: Drop> From<AllocFailed<T>> for ReadError {
    ghost from_gives = { λ _ e. e ≡ OfMemory };

    fn from(_e: AllocFailed<T>) -> ReadError {
        ReadError::Memory
    }
}
