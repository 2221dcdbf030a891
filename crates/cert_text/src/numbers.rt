//! Lines of numbers, literals, and ascending lists of numbers.

ghost use Rattle.std.specs.Prelude.{◌↔◌, ◌<◌, ◌≤◌, ◌^◌, ℕ, [], MatchOption, IfSome, IsTrue};
ghost use Rattle.cert_text.specs.LineParts.{SaysAscending, SaysNumbers};
ghost use Rattle.cert_text.specs.Lines.{Speaks};
ghost use Rattle.hy_text.specs.Numbers.{SaysNumber};
ghost use Rattle.cert_text.specs.Numbers.{SaysCount, SaysLiteral, SaysMembers, SaysOne, SaysTwo};

use crate::words::{equals, is_one_word, two_words};
use hy_text::{cut, number, past_byte};

/// Whether the word says a number.
pub fn is_number(word: &[u8]) -> bool
    ensures { IsTrue result ↔ Speaks SaysNumber word.now }
{
    match number(word) {
        Some(_) => true,
        None => false,
    }
}

/// The number that is all that the line says.
pub fn one_number(line: &[u8]) -> Option<u64>
    ensures said { MatchOption result ((n : ℕ) → ¬ SaysOne [] line.now n)
        (λ n. SaysOne [] line.now n) }
    ensures short { IfSome result (λ n. n < 10 ^ 10) }
{
    if !is_one_word(line) {
        return None;
    }
    number(line)
}

/// The two numbers that are all that the line says.
pub fn two_numbers(line: &[u8]) -> Option<(u64, u64)>
    ensures said { MatchOption result ((m n : ℕ) → ¬ SaysTwo [] line.now m n)
        (λ numbers. SaysTwo [] line.now numbers.0 numbers.1) }
    ensures short { IfSome result (λ numbers. (numbers.0 < 10 ^ 10) × (numbers.1 < 10 ^ 10)) }
{
    let Some((one, two)) = two_words(line) else {
        return None;
    };
    let Some(m) = number(one) else {
        return None;
    };
    let Some(n) = number(two) else {
        return None;
    };
    Some((m, n))
}

/// Whether a number is all that the line says.
pub fn is_one_number(line: &[u8]) -> bool
    ensures { IsTrue result ↔ Speaks (SaysOne []) line.now }
{
    match one_number(line) {
        Some(_) => true,
        None => false,
    }
}

/// Whether the word says a number from 1 on.
pub fn is_count(word: &[u8]) -> bool
    ensures { IsTrue result ↔ Speaks SaysCount word.now }
{
    match number(word) {
        Some(n) => n != 0,
        None => false,
    }
}

/// Whether the word says a literal.
pub fn is_literal(word: &[u8]) -> bool
    ensures { IsTrue result ↔ Speaks SaysLiteral word.now }
{
    match past_byte(word, b'-') {
        Some(variable) => is_count(variable),
        None => is_count(word),
    }
}

/// Whether each word of the text says a number. In time linear in the text.
pub fn are_numbers(text: &[u8]) -> bool
    ensures { IsTrue result ↔ Speaks SaysNumbers text.now }
{
    let mut left = text;
    while let Some((word, rest)) = cut(left, b' ') {
        if !is_number(word) {
            return false;
        }
        left = rest;
    }
    is_number(left)
}

/// Whether the word says ascending numbers, maybe none. In time linear in the word.
pub fn are_members(word: &[u8]) -> bool
    ensures { IsTrue result ↔ Speaks SaysMembers word.now }
{
    equals(word, b"-") || are_ascending(word)
}

/// Whether the text says ascending numbers, one at least.
fn are_ascending(text: &[u8]) -> bool
    ensures { IsTrue result ↔ Speaks SaysAscending text.now }
{
    let mut left = text;
    let mut least = 0;
    while let Some((piece, rest)) = cut(left, b',') {
        let Some(n) = number_from(piece, least) else {
            return false;
        };
        least = n + 1;
        left = rest;
    }
    match number_from(left, least) {
        Some(_) => true,
        None => false,
    }
}

/// The number that the word says, where it is no smaller than the least that may come.
#[inline(always)]
pub fn number_from(word: &[u8], least: u64) -> Option<u64>
    ensures says { MatchOption result ((n : ℕ) → SaysNumber word.now n → n < least)
        (λ n. SaysNumber word.now n × (least ≤ n)) }
    ensures short { IfSome result (λ n. n < 10 ^ 10) }
{
    match number(word) {
        Some(n) if least <= n => Some(n),
        _ => None,
    }
}
