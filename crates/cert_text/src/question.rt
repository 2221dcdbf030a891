//! What a certificate answers.

/// What was asked.
#[derive(Clone, Copy)]
pub enum Question {
    /// Whether a formula is satisfiable.
    Formula,
    /// Whether a formula implies another one.
    Implication,
    /// Whether two formulas are equivalent.
    Equivalence,
    /// Whether a circuit satisfies a formula.
    Circuit,
}
