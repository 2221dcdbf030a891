//! Why a file was not taken.

ghost use Rattle.std.specs.Prelude.{◌≡◌};
ghost use Rattle.hy_files.specs.Faults.{line_fault, read_fault, text_fault};

use aig_kind::AigKind;
use hy_base::{BYTES_LIMIT, FileError, Kind, Memory};
use hy_read::ReadError;
use hy_text::LineError;
use std::error::Error;
use std::fmt;

/// A file was not taken. Bytes and tokens are counted from 0, lines from 1.
#[derive(Clone, Copy, Debug, PartialEq, Eq)]
pub enum FileFault {
    /// The shelf did not open it.
    Open,
    /// The shelf opened it, and a read failed.
    Read,
    /// It has more than `BYTES_LIMIT` bytes.
    Bytes,
    /// It is no formula text: the number of tokens before the fault, and its byte.
    Syntax { token: u32, byte: u32 },
    /// An atom of its formulas has a variable without a quantifier: its first byte.
    Unbound { byte: u32 },
    /// A count of its text is past its limit.
    Count { kind: Kind, limit: u64 },
    /// It is no circuit text: what is wrong, and at which byte.
    Circuit { kind: AigKind, byte: u32 },
    /// A line is no text; line 0 where a file of lassos has none.
    Line { line: u32 },
    /// Memory ran out.
    Memory,
}

impl fmt::Display for FileFault {
    fn fmt<W: fmt::Write>(&self, f: &mut fmt::Formatter<W>) -> fmt::Result {
        match self {
            FileFault::Open => write!(f, "the file did not open"),
            FileFault::Read => write!(f, "a read failed"),
            FileFault::Bytes => write!(f, "more than {BYTES_LIMIT} bytes"),
            FileFault::Syntax { token, byte } => {
                write!(f, "a fault of syntax at token {token}, byte {byte}")
            }
            FileFault::Unbound { byte } => write!(f, "an unbound atom at byte {byte}"),
            FileFault::Count { limit, .. } => write!(f, "a count past {limit}"),
            FileFault::Circuit { kind, byte } => write!(f, "{kind} byte {byte}"),
            FileFault::Line { line } => write!(f, "line {line}"),
            FileFault::Memory => write!(f, "{Memory}"),
        }
    }
}

impl Error for FileFault {}

impl From<FileError> for FileFault {
    ghost from_gives = { λ given fault. fault ≡ read_fault given };

    fn from(error: FileError) -> FileFault {
        match error {
            FileError::OpenFailed => FileFault::Open,
            FileError::ReadFailed => FileFault::Read,
            FileError::Limit => FileFault::Bytes,
            FileError::Memory => FileFault::Memory,
        }
    }
}

impl From<ReadError> for FileFault {
    ghost from_gives = { λ given fault. fault ≡ text_fault given };

    fn from(error: ReadError) -> FileFault {
        match error {
            ReadError::Syntax { token, byte } => FileFault::Syntax { token, byte },
            ReadError::Unbound { byte } => FileFault::Unbound { byte },
            ReadError::Limit(limit) => FileFault::Count {
                kind: limit.kind,
                limit: limit.limit,
            },
            ReadError::Memory => FileFault::Memory,
        }
    }
}

impl From<LineError> for FileFault {
    ghost from_gives = { λ given fault. fault ≡ line_fault given };

    fn from(error: LineError) -> FileFault {
        match error {
            LineError::Syntax { line } => FileFault::Line { line },
            LineError::Limit => FileFault::Count {
                kind: Kind::Length,
                limit: Kind::Length.most(),
            },
            LineError::Memory => FileFault::Memory,
        }
    }
}
