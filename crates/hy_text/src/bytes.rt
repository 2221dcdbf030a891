//! Bytes by their classes: single bytes, words of one class, and what stands at the front of a text.

ghost use Rattle.std.specs.Prelude.{◌≡◌, ◌≢◌, ◌≤◌, ◌<◌, List, ℕ, ◌∷◌, length, MatchOption, IfSome};
ghost use Rattle.std.specs.List.{list_all};
ghost use Rattle.hy_text.specs.Bytes.{is_blank, is_line_blank, is_letter, is_digit, is_letter_or_digit, is_word_byte, is_quotable, is_variable, begins_with_letter, is_plain, past_blanks};

use crate::class::Class;

/// Each letter, digit and underscore stands at its own place, and a comma at every other place.
static WORD_BYTES: [u8; 256] = *b"\
    ,,,,,,,,,,,,,,,,,,,,,,,,,,,,,,,,\
    ,,,,,,,,,,,,,,,,0123456789,,,,,,\
    ,ABCDEFGHIJKLMNOPQRSTUVWXYZ,,,,_\
    ,abcdefghijklmnopqrstuvwxyz,,,,,\
    ,,,,,,,,,,,,,,,,,,,,,,,,,,,,,,,,\
    ,,,,,,,,,,,,,,,,,,,,,,,,,,,,,,,,\
    ,,,,,,,,,,,,,,,,,,,,,,,,,,,,,,,,\
    ,,,,,,,,,,,,,,,,,,,,,,,,,,,,,,,,";

/// Space, tab, line feed and carriage return.
pub fn is_blank(b: u8) -> bool
    ensures { result ≡ is_blank b }
{
    b == b' ' || b == b'\t' || b == b'\n' || b == b'\r'
}

/// Space, tab and carriage return.
pub fn is_line_blank(b: u8) -> bool
    ensures { result ≡ is_line_blank b }
{
    b == b' ' || b == b'\t' || b == b'\r'
}

/// A to Z and a to z.
pub fn is_letter(b: u8) -> bool
    ensures { result ≡ is_letter b }
{
    (b'A' <= b && b <= b'Z') || (b'a' <= b && b <= b'z')
}

/// 0 to 9.
pub fn is_digit(b: u8) -> bool
    ensures { result ≡ is_digit b }
{
    b'0' <= b && b <= b'9'
}

/// Letters and digits.
pub fn is_letter_or_digit(b: u8) -> bool
    ensures { result ≡ is_letter_or_digit b }
{
    is_letter(b) || is_digit(b)
}

/// Letters, digits and the underscore.
pub fn is_word_byte(b: u8) -> bool
    ensures { result ≡ is_word_byte b }
{
    WORD_BYTES[b as usize] != b','
}

/// What may stand between quotes: all but the quote and the line feed.
pub fn is_quotable(b: u8) -> bool
    ensures { result ≡ is_quotable b }
{
    !(b == b'"' || b == b'\n')
}

/// Whether the first byte is a letter.
#[inline(always)]
pub fn begins_with_letter(word: &[u8]) -> bool
    ensures { result ≡ begins_with_letter word.now }
{
    match word {
        [] => false,
        [first, ..] => is_letter(*first),
    }
}

/// Whether the word is a letter, and then letters and digits.
pub fn is_variable(word: &[u8]) -> bool
    ensures { result ≡ is_variable word.now }
{
    match word {
        [] => false,
        [first, rest @ ..] => is_letter(*first) && are_letters_and_digits(rest),
    }
}

/// Whether the word is a letter, and then letters, digits and underscores.
pub fn is_plain(word: &[u8]) -> bool
    ensures { result ≡ is_plain word.now }
{
    match word {
        [] => false,
        [first, rest @ ..] => is_letter(*first) && are_word_bytes(rest),
    }
}

/// Whether each byte is a letter, a digit or an underscore.
fn are_word_bytes(word: &[u8]) -> bool
    ensures { result ≡ list_all is_word_byte word.now }
{
    word.iter().all(|b| is_word_byte(*b))
}

/// Whether each byte is a letter or a digit.
fn are_letters_and_digits(word: &[u8]) -> bool
    ensures { result ≡ list_all is_letter_or_digit word.now }
{
    word.iter().all(|b| is_letter_or_digit(*b))
}

/// The text behind the blanks at its front. Mostly there is none, which one look tells.
#[inline(always)]
pub fn past_blanks(text: &[u8]) -> &[u8]
    ensures behind { result.now ≡ past_blanks text.now }
    ensures within { length result.now ≤ length text.now }
{
    match text {
        [first, ..] if is_line_blank(*first) => past_all_blanks(text),
        _ => text,
    }
}

/// As `past_blanks`.
fn past_all_blanks(text: &[u8]) -> &[u8]
    ensures behind { result.now ≡ past_blanks text.now }
    ensures within { length result.now ≤ length text.now }
{
    let (_, rest) = Class::LineBlank.split(text);
    rest
}

/// The text behind its first byte, where that is `byte`.
#[inline(always)]
pub fn past_byte(text: &[u8], byte: u8) -> Option<&[u8]>
    ensures found { MatchOption result ((rest : List ℕ) → text.now ≢ byte ∷ rest)
        (λ rest. text.now ≡ byte ∷ rest.now) }
    ensures within { IfSome result (λ rest. length rest.now < length text.now) }
{
    match text {
        [first, rest @ ..] if *first == byte => Some(rest),
        _ => None,
    }
}
