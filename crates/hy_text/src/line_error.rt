//! Why a line or a file of lines was not read.

ghost use Rattle.std.specs.Prelude.{◌≡◌};
ghost use Rattle.hy_text.specs.declared.line_error.LineError.TheVariants.{Memory as OutOfMemory};

use hy_base::Memory;
use std::error::Error;
use std::fmt;

/// A line or a file was not read.
#[derive(Clone, Copy, Debug, PartialEq, Eq)]
pub enum LineError {
    /// Line `line`, counted from 1, is no text. Line 0 stands for a line that is missing.
    Syntax { line: u32 },
    /// A trace has too many letters.
    Limit,
    Memory,
}

impl fmt::Display for LineError {
    fn fmt<W: fmt::Write>(&self, f: &mut fmt::Formatter<W>) -> fmt::Result {
        match self {
            LineError::Syntax { line } => write!(f, "line {line}"),
            LineError::Limit => write!(f, "too many letters"),
            LineError::Memory => write!(f, "{Memory}"),
        }
    }
}

impl Error for LineError {}

impl From<Memory> for LineError {
    ghost from_gives = { λ _ e. e ≡ OutOfMemory };

    fn from(_e: Memory) -> LineError {
        LineError::Memory
    }
}
