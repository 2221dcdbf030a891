ghost use Rattle.std.specs.Prelude.{◌≡◌, ◌≢◌, ◌≤◌, ◌∷◌, ℕ, List, length, MatchOption, Some};
ghost use Rattle.hy_read.specs.Operators.{rank_number};
ghost use Rattle.hy_read.specs.Parses.{AreLeft, HasNoOperator, IsFollowed, IsOperator, IsWithin};
ghost use Rattle.hy_read.specs.Tokens.{Token as PlainToken, symbol};
ghost use Rattle.hy_read.specs.declared.symbol.Symbol.{Symbol as PlainSymbol};

use crate::operator::{Binary, Rank};
use crate::scan::next_token;
use crate::symbol::Symbol;
use crate::token::Token;
use hy_formula::Body;

/// What stands behind an operand.
#[derive(Clone, Copy)]
pub enum Follow {
    /// Nothing but blanks.
    End,
    /// A symbol, and the place just behind it.
    Symbol(Symbol, usize),
    /// A variable, an atom or no token: nothing that an operand can stand before.
    Other,
}

/// A body that was parsed.
#[derive(Drop)]
pub struct Parsed {
    pub body: Body,
    /// The height of the body.
    pub height: u32,
    /// What stands behind it.
    pub follow: Follow,
}

/// What stands in `text` from place `at` on.
pub fn what_follows(text: &[u8], at: usize) -> Follow
    requires { at ≤ length text.now }
    ensures within { IsWithin (length text.now) result }
    ensures followed { (rest : List PlainToken) → AreLeft text.now at rest
        → IsFollowed text.now result rest }
{
    match next_token(text, at) {
        None => Follow::End,
        Some(next) => match next.token {
            Token::Symbol(symbol) => Follow::Symbol(symbol, next.behind),
            _ => Follow::Other,
        },
    }
}

impl Follow {
    /// The operator of this rank that stands here, and the place just behind it.
    pub fn operator(&self, rank: Rank) -> Option<(Binary, usize)>
        ensures { MatchOption result (HasNoOperator (rank_number rank) self.now)
            (λ found. IsOperator (rank_number rank) self.now found.0 found.1) }
    {
        match *self {
            Follow::Symbol(symbol, behind) => {
                let operator = Binary::of(symbol)?;
                if operator.rank() == rank {
                    Some((operator, behind))
                } else {
                    None
                }
            }
            Follow::End | Follow::Other => None,
        }
    }

    /// The place just behind the closing parenthesis that stands here.
    pub fn closing(&self) -> Option<usize>
        ensures { MatchOption result ((behind : ℕ)
            → self.now ≢ Follow.Symbol Symbol.CloseParen behind)
            (λ behind. self.now ≡ Follow.Symbol Symbol.CloseParen behind) }
    {
        match *self {
            Follow::Symbol(Symbol::CloseParen, behind) => Some(behind),
            _ => None,
        }
    }

    /// The place just behind the symbol that stands here, and else `at`.
    pub fn past(&self, at: usize) -> usize
        ensures past { (text : List ℕ) (s : PlainSymbol) (more : List PlainToken)
            → IsFollowed text self.now (symbol s ∷ more) → AreLeft text result more }
        ensures within { (end : ℕ) → at ≤ end → IsWithin end self.now → result ≤ end }
    {
        match *self {
            Follow::Symbol(_, behind) => behind,
            Follow::End | Follow::Other => at,
        }
    }
}
