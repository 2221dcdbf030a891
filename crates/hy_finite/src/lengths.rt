//! The rule for the length on which a tuple of traces is judged.

/// On how many positions a tuple of traces is judged.
#[derive(Clone, Copy, Debug, PartialEq, Eq)]
pub enum Lengths {
    /// On the least of its lengths.
    Min,
    /// On the greatest. A trace that is shorter goes on with empty letters.
    Pad,
}
