ghost use Rattle.std.specs.Prelude.{◌≡◌};
ghost use Rattle.hy_read.specs.Moves.{kind_of};
ghost use Rattle.hy_read.specs.Scans.{plain};
ghost use Rattle.hy_read.specs.Tokens as tokens;

use crate::symbol::Symbol;
use crate::table::Kind;

/// A token of a formula text. Names and variables are slices of the text.
#[derive(Clone, Copy)]
pub enum Token<'a> {
    Symbol(Symbol),
    Variable(&'a [u8]),
    Atom { name: &'a [u8], variable: &'a [u8] },
    /// The rest of a text whose first byte begins no token.
    Nothing,
}

/// A token, and the places of its first byte and just behind it.
#[derive(Clone, Copy)]
pub struct Placed<'a> {
    pub token: Token<'a>,
    pub first: usize,
    pub behind: usize,
}

impl Token<'_> {
    /// The kind of the token.
    pub fn kind(&self) -> Kind
        ensures { kind_of result ≡ tokens.kind_of (plain self.now) }
    {
        match *self {
            Token::Symbol(symbol) => kind_of_symbol(symbol),
            Token::Variable(_) => Kind::Variable,
            Token::Atom { .. } => Kind::Leaf,
            Token::Nothing => Kind::Stray,
        }
    }
}

/// The kind of a symbol.
fn kind_of_symbol(symbol: Symbol) -> Kind
    ensures { kind_of result ≡ tokens.kind_of_symbol symbol }
{
    match symbol {
        Symbol::OpenParen => Kind::OpenParen,
        Symbol::CloseParen => Kind::CloseParen,
        Symbol::Not | Symbol::Next | Symbol::Finally | Symbol::Globally => Kind::Prefix,
        Symbol::And | Symbol::Or | Symbol::Implies | Symbol::Iff => Kind::Binary,
        Symbol::Until | Symbol::Release | Symbol::Weak => Kind::Binary,
        Symbol::Dot => Kind::Dot,
        Symbol::Semicolon => Kind::Semicolon,
        Symbol::Exists | Symbol::Forall => Kind::Word,
        Symbol::True | Symbol::False => Kind::Leaf,
    }
}
