//! A whole file of a shelf.

ghost use Rattle.std.specs.Prelude.{◌≡◌, ◌≢◌, ◌≤◌, ◌<◌, ◌++◌, ℕ, List, [], length, Option, Some, None, IsErrOf, OnOk, OnErr, IfOk};
ghost use Rattle.hy_base.specs.Counts.{Rose};
ghost use Rattle.hy_base.specs.Shelf.{KeepsShelf, ReadsFile, RestSaid};
ghost use Rattle.hy_base.specs.declared.reading.FileError.TheVariants.{Memory as OfMemory};

use crate::list::Text;
use crate::memory::Memory;
use crate::shelf::{Shelf, ShelfFailed};
use std::alloc::Global;
use std::error::Error;
use std::fmt;

/// The most bytes that a file may have.
pub const BYTES_LIMIT: usize = 67_108_864;

/// How many bytes one read asks for.
const READ_SIZE: usize = 65_536;

/// Why a file was not read.
#[derive(Clone, Copy, Debug, PartialEq, Eq)]
pub enum FileError {
    /// The shelf did not open it.
    OpenFailed,
    /// The shelf opened it, and a read failed.
    ReadFailed,
    /// It has more than `BYTES_LIMIT` bytes.
    Limit,
    /// Memory ran out.
    Memory,
}

impl fmt::Display for FileError {
    fn fmt<W: fmt::Write>(&self, f: &mut fmt::Formatter<W>) -> fmt::Result {
        match self {
            FileError::OpenFailed => write!(f, "the file did not open"),
            FileError::ReadFailed => write!(f, "a read failed"),
            FileError::Limit => write!(f, "the file is too long"),
            FileError::Memory => write!(f, "memory"),
        }
    }
}

impl Error for FileError {}

impl From<Memory> for FileError {
    ghost from_gives = { λ _ e. e ≡ OfMemory };

    fn from(_e: Memory) -> FileError {
        FileError::Memory
    }
}

/// The bytes of the file `name`, which is opened and read to its end, in time linear in them and
/// with at most three times their memory.
///
/// `OpenFailed` and `ReadFailed` come with a fault that the shelf counted in this call, the second
/// with the file open. `Limit` comes for a file of more than `BYTES_LIMIT` bytes, once one more
/// than that were read or could have been.
pub fn read_all<S: Shelf>(alloc: Global, shelf: &mut S, name: &str) -> Result<Text, FileError>
    ensures keeps { KeepsShelf S.Shelf shelf.old shelf.new }
    ensures read { ReadsFile S.Shelf shelf.old shelf.new name.now result }
{
    match shelf.open_file(name) {
        Err(ShelfFailed) => Err(FileError::OpenFailed),
        Ok(()) => read_rest(alloc, shelf),
    }
}

/// What is left of the open file.
fn read_rest<S: Shelf>(alloc: Global, shelf: &mut S) -> Result<Text, FileError>
    ensures keeps { KeepsShelf S.Shelf shelf.old shelf.new }
    ensures opened { S.tells shelf.old → S.open_name shelf.new ≡ S.open_name shelf.old }
    ensures open_faults { S.open_faults shelf.new ≡ S.open_faults shelf.old }

    ensures whole { S.tells shelf.old → IfOk result (λ text. S.rest shelf.old ≡ text) }
    ensures within { IfOk result (λ text. length text ≤ BYTES_LIMIT) }
    ensures ended { S.tells shelf.old → OnOk result (S.rest shelf.new ≡ []) }

    ensures opens { result ≢ Err FileError.OpenFailed }
    ensures read_failed { IsErrOf result FileError.ReadFailed → Rose (S.read_faults shelf.old) (S.read_faults shelf.new) }
    ensures reads { S.is_sound shelf.old → result ≢ Err FileError.ReadFailed }
    ensures too_long { S.tells shelf.old → IsErrOf result FileError.Limit → BYTES_LIMIT < length (S.rest shelf.old) }
    ensures said { RestSaid S.Shelf shelf.old shelf.new result }
{
    let mut text = Text::new(alloc);
    let mut buf = [0; READ_SIZE];
    loop {
        match shelf.read(&mut buf) {
            Err(ShelfFailed) => return Err(FileError::ReadFailed),
            Ok(0) => return Ok(text),
            Ok(count) => {
                if BYTES_LIMIT - text.len() < count {
                    return Err(FileError::Limit);
                }
                text.extend(&buf[..count])?;
            }
        }
    }
}
