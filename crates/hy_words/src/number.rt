//! Numbers that options are given.

ghost use Rattle.std.specs.Prelude.{ℕ, IfSome, IfNone};
ghost use Rattle.hy_words.specs.Numbers.{IsNumber, IsNumberOr};
ghost use Rattle.hy_words.specs.Found.{listed_slice};

use itoa::Buffer;

/// The number that a text is, in digits without a sign and without a leading zero, if it is one from
/// `least` to `most`; `usual` for no text.
pub fn number_or(usual: u32, text: Option<&str>, least: u32, most: u32) -> Option<u32>
    ensures some { IfSome result (IsNumberOr usual (listed_slice text.entry) least most) }
    ensures none { IfNone result ((n : ℕ) → ¬ IsNumberOr usual (listed_slice text.entry) least most n) }
{
    match text {
        None => Some(usual),
        Some(text) => number_in(text, least, most),
    }
}

/// The number that a text is, if it is one from `least` to `most`.
pub fn number_in(text: &str, least: u32, most: u32) -> Option<u32>
    ensures some { IfSome result (IsNumber text.now least most) }
    ensures none { IfNone result ((n : ℕ) → ¬ IsNumber text.now least most n) }
{
    let n = text.parse::<u32>().ok()?;
    let mut buffer = Buffer::new();
    if buffer.format(n) != text || n < least || most < n {
        return None;
    }
    Some(n)
}
