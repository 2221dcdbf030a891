//! How much is tried.

/// How much is tried.
#[derive(Clone, Copy, Debug, PartialEq, Eq)]
pub struct Ask {
    /// The most steps of the paths that are looked at.
    pub depth: u32,
    /// The most clauses that are learned for one query: below 2^31.
    pub conflicts: u32,
    /// Whether no facts about states are looked for.
    pub plain: bool,
    /// The most calls of the solver in a search for clauses over latches; 0 where there is no such
    /// search.
    pub calls: u32,
}
