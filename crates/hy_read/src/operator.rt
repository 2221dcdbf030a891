//! The operators among the symbols, and what they make of their operands.

ghost use Rattle.std.specs.Prelude.{◌≡◌, suc, IfOk, MatchOption, Some, None};
ghost use Rattle.hy_formula.specs.Trees.{tree_of};
ghost use Rattle.hy_read.specs.Grammar.{unary_of, binary_of};
ghost use Rattle.hy_read.specs.Operators.{rank_number, makes, rank_of, joins};

use crate::symbol::Symbol;
use hy_base::M;
use hy_formula::Body;
use std::alloc::Global;

/// A rank of the grammar, each looser than those before it: that of operands, and those of the binary operators.
#[derive(Clone, Copy, Debug, PartialEq, Eq)]
pub enum Rank {
    Unary,
    Temporal,
    And,
    Or,
    Implies,
    Iff,
}

/// An operator before its operand.
#[derive(Clone, Copy, Debug, PartialEq, Eq)]
pub enum Unary {
    Not,
    Next,
    Finally,
    Globally,
}

/// An operator between its operands.
#[derive(Clone, Copy, Debug, PartialEq, Eq)]
pub enum Binary {
    And,
    Or,
    Implies,
    Iff,
    Until,
    Release,
    Weak,
}

impl Rank {
    /// The next rank that binds tighter, where there is one.
    pub fn tighter(self) -> Option<Rank>
        ensures { MatchOption result (rank_number self ≡ 0)
            (λ r. rank_number self ≡ suc (rank_number r)) }
    {
        match self {
            Rank::Unary => None,
            Rank::Temporal => Some(Rank::Unary),
            Rank::And => Some(Rank::Temporal),
            Rank::Or => Some(Rank::And),
            Rank::Implies => Some(Rank::Or),
            Rank::Iff => Some(Rank::Implies),
        }
    }
}

impl Unary {
    /// The operator that a symbol is, if it stands before an operand.
    pub fn of(symbol: Symbol) -> Option<Unary>
        ensures { MatchOption result (unary_of symbol ≡ None)
            (λ u. unary_of symbol ≡ Some (makes u)) }
    {
        match symbol {
            Symbol::Not => Some(Unary::Not),
            Symbol::Next => Some(Unary::Next),
            Symbol::Finally => Some(Unary::Finally),
            Symbol::Globally => Some(Unary::Globally),
            _ => None,
        }
    }

    /// The body that the operator makes of its operand.
    pub fn make(self, alloc: Global, operand: Body) -> M<Body>
        ensures { IfOk result (λ body. tree_of body ≡ makes self (tree_of operand)) }
    {
        let operand = Box::new(alloc, operand)?;
        Ok(match self {
            Unary::Not => Body::Not(operand),
            Unary::Next => Body::Next(operand),
            Unary::Finally => Body::Finally(operand),
            Unary::Globally => Body::Globally(operand),
        })
    }
}

impl Binary {
    /// The operator that a symbol is, if it stands between operands.
    pub fn of(symbol: Symbol) -> Option<Binary>
        ensures { MatchOption result (binary_of symbol ≡ None)
            (λ b. binary_of symbol ≡ Some (rank_of b, joins b)) }
    {
        match symbol {
            Symbol::And => Some(Binary::And),
            Symbol::Or => Some(Binary::Or),
            Symbol::Implies => Some(Binary::Implies),
            Symbol::Iff => Some(Binary::Iff),
            Symbol::Until => Some(Binary::Until),
            Symbol::Release => Some(Binary::Release),
            Symbol::Weak => Some(Binary::Weak),
            _ => None,
        }
    }

    /// How loosely the operator binds.
    pub fn rank(self) -> Rank
        ensures { rank_number result ≡ rank_of self }
    {
        match self {
            Binary::Until | Binary::Release | Binary::Weak => Rank::Temporal,
            Binary::And => Rank::And,
            Binary::Or => Rank::Or,
            Binary::Implies => Rank::Implies,
            Binary::Iff => Rank::Iff,
        }
    }

    /// The body that the operator makes of its operands.
    pub fn join(self, alloc: Global, left: Body, right: Body) -> M<Body>
        ensures { IfOk result (λ body. tree_of body ≡ joins self (tree_of left) (tree_of right)) }
    {
        let left = Box::new(alloc, left)?;
        let right = Box::new(alloc, right)?;
        Ok(match self {
            Binary::And => Body::And(left, right),
            Binary::Or => Body::Or(left, right),
            Binary::Implies => Body::Implies(left, right),
            Binary::Iff => Body::Iff(left, right),
            Binary::Until => Body::Until(left, right),
            Binary::Release => Body::Release(left, right),
            Binary::Weak => Body::Weak(left, right),
        })
    }
}
