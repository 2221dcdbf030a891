//! Ranks of nodes, with a reason for each.

use hy_base::List;

/// For each node a rank or none, and for each rank an until or none. What is past the end of its
/// list has none.
#[derive(Drop)]
pub struct Ranks {
    pub ranks: List<Option<u32>>,
    pub reasons: List<Option<u32>>,
}
