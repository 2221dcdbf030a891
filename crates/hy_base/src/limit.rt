//! What is counted, and how much of it is taken.

ghost use Rattle.std.specs.Prelude.{◌≡◌};
ghost use Rattle.hy_base.specs.Limits.{most};

/// What is counted and may be too much.
#[derive(Clone, Copy, Debug, PartialEq, Eq)]
pub enum Kind {
    /// Bytes of one file.
    Bytes,
    /// Formulas of a specification file.
    Specs,
    /// Quantifiers of a formula; a tool may take fewer.
    Quantifiers,
    /// Parentheses of a formula that stand open at once.
    Parens,
    /// Height of a body; a leaf has height 1.
    Height,
    /// Names of a command's formulas.
    Names,
    /// Maps of the universal variables of a formula.
    Instances,
    /// Members of a closure.
    Closure,
    /// Positions of the longest stem and of the common cycle of lassos.
    Joint,
    /// Different indexed atoms of a monitor.
    Atoms,
    /// Residuals of a body times its joint letters.
    Table,
    /// Positions of a trace.
    Length,
    /// Sessions that are open at once.
    Sessions,
    /// Saves on the stack.
    Saves,
    /// Variables of a circuit.
    Variables,
    /// Variables of a query.
    CnfVariables,
    /// Literals of a query.
    CnfLiterals,
    /// Names of the formula that asks about a circuit which a strategy drives.
    StrategyNames,
}

impl Kind {
    /// The number past which a count of this kind is too much.
    pub fn most(self) -> u64
        ensures { result ≡ most self }
    {
        match self {
            Kind::Bytes => 67_108_864,
            Kind::Specs => 16,
            Kind::Quantifiers => 8,
            Kind::Parens => 200,
            Kind::Height => 200,
            Kind::Names => 64,
            Kind::Instances => 4_096,
            Kind::Closure => 1_024,
            Kind::Joint => 4_194_304,
            Kind::Atoms => 16,
            Kind::Table => 4_194_304,
            Kind::Length => 1_024,
            Kind::Sessions => 1_024,
            Kind::Saves => 64,
            Kind::Variables => 1_048_576,
            Kind::CnfVariables => 16_777_216,
            Kind::CnfLiterals => 134_217_728,
            Kind::StrategyNames => 64,
        }
    }
}

/// A count of `kind` is past its number `limit`.
#[derive(Clone, Copy, Debug, PartialEq, Eq)]
pub struct Limit {
    pub kind: Kind,
    pub limit: u64,
}
