//! Lines of a few words.

ghost use Rattle.std.specs.Prelude.{◌≡◌, ◌≢◌, ◌↔◌, ℕ, List, [], ◌∷◌, IsTrue, MatchOption};
ghost use Rattle.cert_text.specs.Lines.{words_of};

use hy_text::cut;

/// Whether the word is this text.
pub fn equals(word: &[u8], text: &[u8]) -> bool
    ensures { IsTrue result ↔ (word.now ≡ text.now) }
{
    word == text
}

/// What stands behind the first word and its space, where that word is this text.
pub fn past_word<'a>(line: &'a [u8], text: &[u8]) -> Option<&'a [u8]>
    ensures { MatchOption result
        ((next : List ℕ) (more : List (List ℕ)) → words_of line.now ≢ text.now ∷ next ∷ more)
        (λ rest. words_of line.now ≡ text.now ∷ words_of rest.now) }
{
    match cut(line, b' ') {
        Some((word, rest)) if equals(word, text) => Some(rest),
        _ => None,
    }
}

/// Whether the line is one word.
pub fn is_one_word(line: &[u8]) -> bool
    ensures { IsTrue result ↔ (words_of line.now ≡ line.now ∷ []) }
{
    match cut(line, b' ') {
        Some(_) => false,
        None => true,
    }
}

/// The words of a line of two words.
pub fn two_words(line: &[u8]) -> Option<(&[u8], &[u8])>
    ensures { MatchOption result ((one two : List ℕ) → words_of line.now ≢ one ∷ two ∷ [])
        (λ words. words_of line.now ≡ words.0.now ∷ words.1.now ∷ []) }
{
    let Some((one, two)) = cut(line, b' ') else {
        return None;
    };
    if is_one_word(two) {
        Some((one, two))
    } else {
        None
    }
}
