//! The scanner: which token stands next in a text.

ghost use Rattle.std.specs.Prelude.{◌≡◌, ◌<◌, ◌≤◌, length, nat_eq, IfSome};
ghost use Rattle.std.specs.List.{find, starts_with};
ghost use Rattle.std.specs.Option.{option_map};
ghost use Rattle.hy_read.specs.Symbols.{spelling, signs};
ghost use Rattle.hy_read.specs.Scanning.{first_token, token_at, word_at, quoted_at, sign_at};
ghost use Rattle.hy_read.specs.Scans.{IsNext, plain, plain_found};

use crate::symbol::Symbol;
use crate::token::{Placed, Token};
use crate::word::word_token;
use hy_text::{Class, is_variable, is_word_byte};

/// The token in `text` from place `at` on, behind blanks, or `None` where no other byte is left. In
/// time linear in what is passed; a word or a quoted name is passed a bounded number of times.
pub fn next_token(text: &[u8], at: usize) -> Option<Placed<'_>>
    requires { at ≤ length text.now }
    ensures { IsNext text.now at result }
{
    let (_, from) = text.split_at(at);
    let (blanks, here) = Class::Blank.split(from);
    if here.is_empty() {
        return None;
    }
    let first = at + blanks.len();
    let (token, len) = token_or_nothing(here);
    Some(Placed {
        token,
        first,
        behind: first + len,
    })
}

/// The token at the front of a text that begins with no blank, and how many bytes it takes; where
/// no token begins, all that is left.
fn token_or_nothing(text: &[u8]) -> (Token<'_>, usize)
    requires { 0 < length text.now }
    ensures is { (plain result.0, result.1) ≡ first_token text.now }
    ensures some { 0 < result.1 }
    ensures within { result.1 ≤ length text.now }
{
    match token_at(text) {
        Some(found) => found,
        None => (Token::Nothing, text.len()),
    }
}

/// The token at the front of a text that begins with no blank, and how many bytes it takes.
fn token_at(text: &[u8]) -> Option<(Token<'_>, usize)>
    ensures found { plain_found result ≡ token_at text.now }
    ensures within { IfSome result (λ f. (0 < f.1) × (f.1 ≤ length text.now)) }
{
    let first = *text.first()?;
    if is_word_byte(first) {
        word_at(text)
    } else if first == b'"' {
        quoted_at(text)
    } else {
        let symbol = sign_at(text)?;
        Some((Token::Symbol(symbol), symbol.spelling().len()))
    }
}

/// The word at the front, and its length.
fn word_at(text: &[u8]) -> Option<(Token<'_>, usize)>
    ensures found { plain_found result ≡ word_at text.now }
    ensures within { IfSome result (λ f. (0 < f.1) × (f.1 ≤ length text.now)) }
{
    let (word, _) = Class::WordByte.split(text);
    Some((word_token(word)?, word.len()))
}

/// The quoted atom at the front, and its length.
fn quoted_at(text: &[u8]) -> Option<(Token<'_>, usize)>
    requires { 0 < length text.now }
    ensures found { plain_found result ≡ quoted_at text.now }
    ensures within { IfSome result (λ f. (0 < f.1) × (f.1 ≤ length text.now)) }
{
    let (_, inner) = text.split_at(1);
    let (name, behind) = Class::Quotable.split(inner);
    if name.is_empty() || !behind.starts_with(b"\"_") {
        return None;
    }
    let (_, tail) = behind.split_at(2);
    let (variable, _) = Class::LetterOrDigit.split(tail);
    if !is_variable(variable) {
        return None;
    }
    Some((
        Token::Atom { name, variable },
        name.len() + 3 + variable.len(),
    ))
}

/// The sign whose spelling begins the text.
fn sign_at(text: &[u8]) -> Option<Symbol>
    ensures found { result ≡ find (λ s. starts_with nat_eq text.now (spelling s)) signs }
    ensures within { IfSome result (λ s. (0 < length (spelling s))
        × (length (spelling s) ≤ length text.now)) }
{
    match text {
        [b'(', ..] => Some(Symbol::OpenParen),
        [b')', ..] => Some(Symbol::CloseParen),
        [b'!', ..] => Some(Symbol::Not),
        [b'&', ..] => Some(Symbol::And),
        [b'|', ..] => Some(Symbol::Or),
        [b'.', ..] => Some(Symbol::Dot),
        [b';', ..] => Some(Symbol::Semicolon),
        [b'-', b'>', ..] => Some(Symbol::Implies),
        [b'<', b'-', b'>', ..] => Some(Symbol::Iff),
        _ => None,
    }
}
