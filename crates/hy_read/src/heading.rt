//! The quantifiers at the head of a formula.

ghost use Rattle.std.specs.Prelude.{◌≡◌, ◌≢◌, true, false, ◌<◌, ◌≤◌, length, IfOk, IfSome, MatchOption};
ghost use Rattle.hy_read.specs.Grammar.{quantifier_word};
ghost use Rattle.hy_read.specs.Headings.{IsHead, IsHeading};
ghost use Rattle.hy_read.specs.Scans.{plain};
ghost use Rattle.hy_read.specs.Tokens.{symbol};
ghost use Rattle.hy_formula.specs.declared.prefix.Quant.{Quant as PlainQuant};

use crate::scan::next_token;
use crate::symbol::Symbol;
use crate::token::Token;
use hy_base::M;
use hy_formula::Quant;
use std::alloc::Global;

/// A quantifier, and the place just behind its dot.
#[derive(Clone, Copy)]
pub struct Head<'a> {
    pub quant: Quant,
    pub variable: &'a [u8],
    pub behind: usize,
}

/// The quantifiers of a formula, outermost first, their variables, and where its body begins.
#[derive(Drop)]
pub struct Heading<'a> {
    pub quants: Vec<Quant>,
    pub variables: Vec<&'a [u8]>,
    pub at: usize,
}

/// The quantifier in `text` from place `at` on.
fn read_head(text: &[u8], at: usize) -> Option<Head<'_>>
    requires { at ≤ length text.now }
    ensures head { IsHead text.now at result }
    ensures within { IfSome result (λ h. (at < h.behind) × (h.behind ≤ length text.now)) }
{
    let Some(word) = next_token(text, at) else {
        return None;
    };
    let Some(quant) = quantifier_of(word.token) else {
        return None;
    };
    let Some(name) = next_token(text, word.behind) else {
        return None;
    };
    let Token::Variable(variable) = name.token else {
        return None;
    };
    let Some(dot) = next_token(text, name.behind) else {
        return None;
    };
    if !is_dot(dot.token) {
        return None;
    }
    Some(Head {
        quant,
        variable,
        behind: dot.behind,
    })
}

/// The quantifier that a token is the word of.
fn quantifier_of(token: Token<'_>) -> Option<Quant>
    ensures { MatchOption result ((quant : PlainQuant)
        → plain token.entry ≢ symbol (quantifier_word quant))
        (λ quant. plain token.entry ≡ symbol (quantifier_word quant)) }
{
    match token {
        Token::Symbol(Symbol::Exists) => Some(Quant::Exists),
        Token::Symbol(Symbol::Forall) => Some(Quant::Forall),
        _ => None,
    }
}

/// Whether a token is the dot.
fn is_dot(token: Token<'_>) -> bool
    ensures yes { result ≡ true → plain token.entry ≡ symbol Symbol.Dot }
    ensures no { result ≡ false → plain token.entry ≢ symbol Symbol.Dot }
{
    match token {
        Token::Symbol(Symbol::Dot) => true,
        _ => false,
    }
}

/// The quantifiers in `text` from place `at` on, in time linear in them.
pub fn read_heading(alloc: Global, text: &[u8], at: usize) -> M<Heading<'_>>
    requires { at ≤ length text.now }
    ensures headed { IfOk result (λ h. IsHeading text.now at h) }
    ensures within { IfOk result (λ h. h.at ≤ length text.now) }
    ensures alike { IfOk result (λ h. length h.quants.items ≡ length h.variables.items) }
{
    let mut quants = Vec::new(alloc);
    let mut variables = Vec::new(alloc);
    let mut at = at;
    while let Some(head) = read_head(text, at) {
        quants.push(head.quant)?;
        variables.push(head.variable)?;
        at = head.behind;
    }
    Ok(Heading {
        quants,
        variables,
        at,
    })
}
