//! A fact as a line says it.

/// What a line says that states have. Latches are named by numbers below 10,000,000,000, which need
/// be no latch of a circuit.
#[derive(Clone, Copy)]
pub enum FactLine {
    /// The latch is 0.
    Zero(u64),
    /// The latch is 1.
    One(u64),
    /// Both latches are equal.
    Same(u64, u64),
    /// The latches differ.
    Differ(u64, u64),
}
