//! The parser of bodies: recursive descent over the ranks of the grammar. Each token is scanned
//! once. The text is known to be one of the grammar, and how many parentheses are open at most; this
//! and the greatest height bound the recursion.

ghost use Rattle.std.specs.Prelude.{◌≡◌, ◌≤◌, ◌<◌, ℕ, List, ◌∷◌, length, Some, IfOk};
ghost use Rattle.hy_read.specs.Grammar.{unary_of};
ghost use Rattle.hy_read.specs.Operators.{rank_number, makes};
ghost use Rattle.hy_read.specs.Parses.{means, AreLeft, Builds, IsFollowed, IsSized, IsWithin};
ghost use Rattle.hy_read.specs.Tokens.{Token as PlainToken, symbol as symbol_token, atom as atom_token};
ghost use Rattle.hy_read.specs.declared.symbol.Symbol.{Symbol as PlainSymbol};

use crate::build_error::BuildError;
use crate::operator::{Rank, Unary};
use crate::parsed::{Parsed, what_follows};
use crate::parser::Parser;
use crate::scan::next_token;
use crate::symbol::Symbol;
use crate::token::Token;
use crate::variable::last_place;
use hy_formula::{Atom, Body};

impl<'a> Parser<'a> {
    /// The expression of this rank at place `at`, with at most `parens` parentheses open at once and
    /// of height at most `high`.
    #[cycle(parse)]
    pub fn expression(
        &self,
        at: usize,
        rank: Rank,
        parens: u32,
        high: u32,
    ) -> Result<Parsed, BuildError>
        requires { at ≤ length self.now.text.now }
        ensures sized { IfOk result
            (λ p. IsSized (length self.now.text.now) high (length self.now.variables.now) p) }
        ensures built { (tokens : List PlainToken) → AreLeft self.now.text.now at tokens
            → Builds (means self.now) self.now.text.now parens (rank_number rank) high tokens result }
    {
        let Some(tighter) = rank.tighter() else {
            return self.operand(at, parens, high);
        };
        let left = self.expression(at, tighter, parens, high)?;
        let Some((operator, behind)) = left.follow.operator(rank) else {
            return Ok(left);
        };
        if left.height >= high {
            return Err(BuildError::TooHigh);
        }
        let right = self.expression(behind, rank, parens, high - 1)?;
        let height = left.height.max(right.height) + 1;
        let body = operator.join(self.alloc, left.body, right.body)?;
        Ok(Parsed {
            body,
            height,
            follow: right.follow,
        })
    }

    /// The operand at place `at`.
    #[cycle(parse)]
    fn operand(&self, at: usize, parens: u32, high: u32) -> Result<Parsed, BuildError>
        requires { at ≤ length self.now.text.now }
        ensures sized { IfOk result
            (λ p. IsSized (length self.now.text.now) high (length self.now.variables.now) p) }
        ensures built { (tokens : List PlainToken) → AreLeft self.now.text.now at tokens
            → Builds (means self.now) self.now.text.now parens 0 high tokens result }
    {
        if high == 0 {
            return Err(BuildError::TooHigh);
        }
        let Some(next) = next_token(self.text, at) else {
            return Err(BuildError::TooHigh);
        };
        match next.token {
            Token::Symbol(symbol) => self.behind_symbol(symbol, next.behind, parens, high),
            Token::Atom { name, variable } => self.atom(name, variable, next.behind),
            Token::Variable(_) => Err(BuildError::TooHigh),
            Token::Nothing => Err(BuildError::TooHigh),
        }
    }

    /// The operand that begins with `symbol`, behind which `behind` is.
    #[cycle(parse)]
    fn behind_symbol(
        &self,
        symbol: Symbol,
        behind: usize,
        parens: u32,
        high: u32,
    ) -> Result<Parsed, BuildError>
        requires within { behind ≤ length self.now.text.now }
        requires high { 0 < high }
        ensures sized { IfOk result
            (λ p. IsSized (length self.now.text.now) high (length self.now.variables.now) p) }
        ensures built { (tokens : List PlainToken) → AreLeft self.now.text.now behind tokens
            → Builds (means self.now) self.now.text.now parens 0 high (symbol_token symbol ∷ tokens) result }
    {
        match symbol {
            Symbol::OpenParen => self.group(behind, parens, high),
            Symbol::True => Ok(self.leaf(Body::True, behind)),
            Symbol::False => Ok(self.leaf(Body::False, behind)),
            _ => match Unary::of(symbol) {
                None => Err(BuildError::TooHigh),
                Some(operator) => self.prefixed(operator, behind, parens, high),
            },
        }
    }

    /// The operand that this operator and the operand at place `at` make.
    #[cycle(parse)]
    fn prefixed(
        &self,
        operator: Unary,
        at: usize,
        parens: u32,
        high: u32,
    ) -> Result<Parsed, BuildError>
        requires within { at ≤ length self.now.text.now }
        requires high { 0 < high }
        ensures sized { IfOk result
            (λ p. IsSized (length self.now.text.now) high (length self.now.variables.now) p) }
        ensures built { (s : PlainSymbol) (tokens : List PlainToken)
            → unary_of s ≡ Some (makes operator) → AreLeft self.now.text.now at tokens
            → Builds (means self.now) self.now.text.now parens 0 high (symbol_token s ∷ tokens) result }
    {
        let operand = self.operand(at, parens, high - 1)?;
        let body = operator.make(self.alloc, operand.body)?;
        Ok(Parsed {
            body,
            height: operand.height + 1,
            follow: operand.follow,
        })
    }

    /// The operand in the parenthesis that is opened just before `at`.
    #[cycle(parse)]
    fn group(&self, at: usize, parens: u32, high: u32) -> Result<Parsed, BuildError>
        requires { at ≤ length self.now.text.now }
        ensures sized { IfOk result
            (λ p. IsSized (length self.now.text.now) high (length self.now.variables.now) p) }
        ensures built { (tokens : List PlainToken) → AreLeft self.now.text.now at tokens
            → Builds (means self.now) self.now.text.now parens 0 high (symbol_token Symbol.OpenParen ∷ tokens) result }
    {
        if parens == 0 {
            return Err(BuildError::TooHigh);
        }
        let inner = self.expression(at, Rank::Iff, parens - 1, high)?;
        match inner.follow.closing() {
            None => Err(BuildError::TooHigh),
            Some(behind) => Ok(Parsed {
                body: inner.body,
                height: inner.height,
                follow: what_follows(self.text, behind),
            }),
        }
    }

    /// A leaf, behind which `behind` is.
    fn leaf(&self, body: Body, behind: usize) -> Parsed
        requires { behind ≤ length self.now.text.now }
        ensures body { result.body ≡ body }
        ensures height { result.height ≡ 1 }
        ensures within { IsWithin (length self.now.text.now) result.follow }
        ensures followed { (rest : List PlainToken) → AreLeft self.now.text.now behind rest
            → IsFollowed self.now.text.now result.follow rest }
    {
        Parsed {
            body,
            height: 1,
            follow: what_follows(self.text, behind),
        }
    }

    /// The operand that the atom of this name and this variable is, behind which `behind` is.
    fn atom(&self, name: &[u8], variable: &[u8], behind: usize) -> Result<Parsed, BuildError>
        requires within { behind ≤ length self.now.text.now }
        ensures sized { IfOk result
            (λ p. IsSized (length self.now.text.now) 1 (length self.now.variables.now) p) }
        ensures built { (parens high : ℕ) (tokens : List PlainToken)
            → AreLeft self.now.text.now behind tokens
            → Builds (means self.now) self.now.text.now parens 0 high (atom_token name.now variable.now ∷ tokens) result }
    {
        let Some(names) = self.names else {
            return Ok(self.leaf(Body::True, behind));
        };
        let Some(name) = names.find(name) else {
            return Err(BuildError::TooHigh);
        };
        let Some(var) = last_place(self.variables, variable) else {
            return Err(BuildError::TooHigh);
        };
        let atom = Atom {
            name,
            var: var as u8,
        };
        Ok(self.leaf(Body::Atom(atom), behind))
    }
}
