//! Entries of the log of a shelf.

use crate::list::Text;

/// A call of a shelf, with what came of it.
#[derive(Drop)]
pub enum ShelfCall {
    /// The file of that name was opened.
    Opened(Text),
    /// It was not.
    NotOpened(Text),
    /// A read gave these bytes, one at least.
    Gave(Text),
    /// A read gave none.
    AtEnd,
    /// A read failed.
    NotRead,
}
