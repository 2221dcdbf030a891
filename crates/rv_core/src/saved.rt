//! What is put aside.

use crate::kept::Kept;
use crate::sessions::Sessions;
use hy_base::List;

/// How many traces had arrived, what was kept of them, and the sessions that were open.
#[derive(Drop)]
pub(crate) struct Saved {
    pub(crate) arrived: u32,
    pub(crate) kept: Kept,
    pub(crate) sessions: Sessions,
}

/// Saves, the last one last.
pub(crate) type SavedList = List<Saved>;
