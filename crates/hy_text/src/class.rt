//! Classes of bytes, and how far a run of one class goes.

ghost use Rattle.std.specs.Prelude.{◌≡◌, ◌+◌, ◌≤◌, length, drop};
ghost use Rattle.std.specs.List.{prefix_len, take_while};
ghost use Rattle.hy_text.specs.Classes.{is_of};

use crate::bytes::{
    is_blank, is_digit, is_letter_or_digit, is_line_blank, is_quotable, is_word_byte,
};

/// A class of bytes.
#[derive(Clone, Copy)]
pub enum Class {
    Blank,
    LineBlank,
    Digit,
    LetterOrDigit,
    WordByte,
    Quotable,
    /// All but the line feed.
    InLine,
}

impl Class {
    /// Whether the byte is of the class.
    #[inline(always)]
    pub fn has(self, b: u8) -> bool
        ensures { result ≡ is_of self b }
    {
        match self {
            Class::Blank => is_blank(b),
            Class::LineBlank => is_line_blank(b),
            Class::Digit => is_digit(b),
            Class::LetterOrDigit => is_letter_or_digit(b),
            Class::WordByte => is_word_byte(b),
            Class::Quotable => is_quotable(b),
            Class::InLine => b != b'\n',
        }
    }

    /// How many bytes of the class stand at the front, in time linear in them.
    #[inline(always)]
    fn run_len(self, text: &[u8]) -> usize
        ensures longest { result ≡ prefix_len (is_of self) text.now }
        ensures within { result ≤ length text.now }
    {
        for (i, b) in text.iter().enumerate() {
            if !self.has(*b) {
                return i;
            }
        }
        text.len()
    }

    /// The bytes of the class at the front, in time linear in them, and what stands behind them.
    #[inline(always)]
    pub fn split(self, text: &[u8]) -> (&[u8], &[u8])
        ensures run { result.0.now ≡ take_while (is_of self) text.now }
        ensures rest { result.1.now ≡ drop (length result.0.now) text.now }
        ensures lens { length result.0.now + length result.1.now ≡ length text.now }
    {
        text.split_at(self.run_len(text))
    }
}
