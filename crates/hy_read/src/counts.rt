//! What a pass over the tokens of a text counts.

ghost use Rattle.std.specs.Prelude.{◌≡◌, ◌+◌, ◌-◌, ◌≤◌, ◌^◌, ◌++◌, ℕ, [], ◌∷◌, List};
ghost use Rattle.hy_read.specs.Counting.{IsCounted, IsFew, ended_by, opened_by, quantified_by};
ghost use Rattle.hy_read.specs.Moves.{kind_of};
ghost use Rattle.hy_read.specs.Tokens as tokens;

use crate::table::Kind;

/// The counts of the tokens that were passed.
#[derive(Clone, Copy)]
pub struct Counts {
    /// The semicolons.
    pub semicolons: u32,
    /// The quantifiers of the present formula.
    pub quantifiers: u32,
    /// The most quantifiers of a formula.
    pub most_quantifiers: u32,
    /// The parentheses that are open.
    pub parens: u32,
    /// The most parentheses that were open at once.
    pub most_parens: u32,
}

impl Counts {
    /// The counts before the first token.
    pub fn new() -> Counts
        ensures counted { IsCounted [] result }
        ensures none { result.parens ≡ 0 }
        ensures few { IsFew 0 result }
    {
        Counts {
            semicolons: 0,
            quantifiers: 0,
            most_quantifiers: 0,
            parens: 0,
            most_parens: 0,
        }
    }

    /// The counts behind one more token, of this kind.
    pub fn behind(self, kind: Kind) -> Counts
        requires { IsFew (2 ^ 32 - 2) self }
        ensures counted { (front : List tokens.Token) (t : tokens.Token)
            → tokens.kind_of t ≡ kind_of kind
            → IsCounted front self → IsCounted (front ++ t ∷ []) result }
        ensures parens { result.parens ≡ opened_by (kind_of kind) self.parens }
        ensures few { (n : ℕ) → IsFew n self → IsFew (n + 1) result }
    {
        let quantifiers = quantified(self.quantifiers, kind);
        let parens = opened(self.parens, kind);
        Counts {
            semicolons: ended(self.semicolons, kind),
            quantifiers,
            most_quantifiers: self.most_quantifiers.max(quantifiers),
            parens,
            most_parens: self.most_parens.max(parens),
        }
    }
}

/// The semicolons behind a token of this kind.
fn ended(n: u32, kind: Kind) -> u32
    requires { n ≤ 2 ^ 32 - 2 }
    ensures is { result ≡ ended_by (kind_of kind) n }
    ensures few { result ≤ n + 1 }
{
    match kind {
        Kind::Semicolon => n + 1,
        _ => n,
    }
}

/// The quantifiers of the present formula behind a token of this kind.
fn quantified(n: u32, kind: Kind) -> u32
    requires { n ≤ 2 ^ 32 - 2 }
    ensures is { result ≡ quantified_by (kind_of kind) n }
    ensures few { result ≤ n + 1 }
{
    match kind {
        Kind::Word => n + 1,
        Kind::Semicolon => 0,
        _ => n,
    }
}

/// The open parentheses behind a token of this kind.
fn opened(n: u32, kind: Kind) -> u32
    requires { n ≤ 2 ^ 32 - 2 }
    ensures is { result ≡ opened_by (kind_of kind) n }
    ensures few { result ≤ n + 1 }
{
    match kind {
        Kind::OpenParen => n + 1,
        Kind::CloseParen => n.saturating_sub(1),
        _ => n,
    }
}
