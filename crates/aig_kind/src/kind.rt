//! What can be wrong with a circuit text.

use std::fmt;

/// What is wrong with a circuit text.
#[derive(Clone, Copy, Debug, PartialEq, Eq)]
pub enum AigKind {
    /// The first line is no header, or its greatest variable does not fit its counts.
    Header,
    /// A counted line does not say what it is to say.
    Literal,
    /// A line defines a variable that was defined before.
    Redefined,
    /// A number of a binary and is too long, too small or too large.
    Delta,
    /// The text ends too early.
    Truncated,
    /// A line uses a variable that no line defines.
    Undefined,
    /// An and depends on itself.
    Cycle,
    /// A line behind the ands is no symbol.
    Symbol,
}

impl fmt::Display for AigKind {
    fn fmt<W: fmt::Write>(&self, f: &mut fmt::Formatter<W>) -> fmt::Result {
        match self {
            AigKind::Header => write!(f, "header"),
            AigKind::Literal => write!(f, "literal"),
            AigKind::Redefined => write!(f, "redefined"),
            AigKind::Delta => write!(f, "delta"),
            AigKind::Truncated => write!(f, "truncated"),
            AigKind::Undefined => write!(f, "undefined"),
            AigKind::Cycle => write!(f, "cycle"),
            AigKind::Symbol => write!(f, "symbol"),
        }
    }
}
