//! What runs the commands of cases.

use crate::piece_shelf::PieceShelf;
use hy_base::MemSink;
use std::alloc::Global;

/// The tools that are tried.
pub trait Tools {
    /// Runs a tool over files and streams in memory, and gives its exit status, or `None` where no
    /// tool has this name.
    fn status_of(
        alloc: Global,
        name: &str,
        words: &[String],
        shelf: &mut PieceShelf,
        out: &mut MemSink,
        err: &mut MemSink,
    ) -> Option<u8>;
}
