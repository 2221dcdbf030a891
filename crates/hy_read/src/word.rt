//! Words of letters, digits and underscores.

ghost use Rattle.std.specs.Prelude.{◌≡◌, ◌-◌, not, length};
ghost use Rattle.std.specs.List.{suffix_len};
ghost use Rattle.std.specs.Option.{option_map};
ghost use Rattle.hy_text.specs.Bytes.{is_underscore};
ghost use Rattle.hy_read.specs.Symbols.{reserved_words};
ghost use Rattle.hy_read.specs.Scanning.{spelled_so, atom_token, free_token, word_token};
ghost use Rattle.hy_read.specs.Scans.{plain};

use crate::symbol::Symbol;
use crate::token::Token;
use hy_text::{begins_with_letter, is_variable};

/// What a word is: a reserved word, a variable, an atom or nothing. Takes time linear in the word.
pub fn word_token(word: &[u8]) -> Option<Token<'_>>
    ensures { option_map plain result ≡ word_token word.now }
{
    match reserved(word) {
        Some(symbol) => Some(Token::Symbol(symbol)),
        None => free_token(word),
    }
}

/// The reserved word that is spelled so.
fn reserved(word: &[u8]) -> Option<Symbol>
    ensures { result ≡ spelled_so reserved_words word.now }
{
    match word {
        b"X" => Some(Symbol::Next),
        b"F" => Some(Symbol::Finally),
        b"G" => Some(Symbol::Globally),
        b"U" => Some(Symbol::Until),
        b"R" => Some(Symbol::Release),
        b"W" => Some(Symbol::Weak),
        b"true" => Some(Symbol::True),
        b"false" => Some(Symbol::False),
        b"exists" => Some(Symbol::Exists),
        b"forall" => Some(Symbol::Forall),
        _ => None,
    }
}

/// What a word is that is not reserved.
fn free_token(word: &[u8]) -> Option<Token<'_>>
    ensures { option_map plain result ≡ free_token word.now }
{
    if is_variable(word) {
        return Some(Token::Variable(word));
    }
    atom_token(word)
}

/// The atom that a word is.
#[tactic(auto, using(crate::proofs::Suffixes::any_by_suffix))]
fn atom_token(word: &[u8]) -> Option<Token<'_>>
    ensures { option_map plain result ≡ atom_token word.now }
{
    let behind = behind_underscores(word);
    if behind == 0 {
        return None;
    }
    let (_, variable) = word.split_at(behind);
    let (name, _) = word.split_at(behind - 1);
    if begins_with_letter(word) && is_variable(variable) {
        Some(Token::Atom { name, variable })
    } else {
        None
    }
}

/// The place behind the last underscore, 0 where there is none.
fn behind_underscores(word: &[u8]) -> usize
    ensures { result ≡ length word.now - suffix_len (λ b. not (is_underscore b)) word.now }
{
    let mut end = word.len();
    while end > 0 && word[end - 1] != b'_' {
        end -= 1;
    }
    end
}
