//! Lines, and the numbers that they say.

ghost use Rattle.std.specs.Prelude.{◌≡◌, ℕ, suc, ◌+◌, ◌<◌, ◌≤◌, ◌++◌, ◌∷◌, length, take, OnOk, nat_eq, not};
ghost use Rattle.std.specs.List.{slice_split, prefix_len};
ghost use Rattle.std.specs.Option.{option_copied};
ghost use Rattle.aiger_body.specs.Texts.{is_feed, is_ended, is_space, is_return, without_end, line_text, numbers_of, pieces, piece_at, place};
ghost use Rattle.aiger_body.specs.Files.{lines};
ghost use Rattle.aiger_body.specs.Words.{ends_with, IsPlace, first_len, words_of, left_of};

use hy_base::{List, M};
use hy_text::{cut, number};

/// What ends a piece of a text.
#[derive(Clone, Copy)]
pub enum Ends {
    /// A line feed ends a line.
    Line,
    /// A byte below 128 ends a number of the binary form.
    Number,
}

impl Ends {
    #[inline(always)]
    fn has(self, b: u8) -> bool
        ensures { result ≡ ends_with self b }
    {
        match self {
            Ends::Line => b == b'\n',
            Ends::Number => b < 128,
        }
    }

    /// The piece that begins at byte `at`, with its end where it has one; empty at the end of the
    /// text. In time linear in the piece.
    #[inline(always)]
    pub fn piece_at(self, text: &[u8], at: usize) -> &[u8]
        requires { at ≤ length text.now }
        ensures piece { (k : ℕ) → at ≡ place (pieces (ends_with self) text.now) k →
            result.now ≡ piece_at (pieces (ends_with self) text.now) k }
        ensures next { (k : ℕ) → at ≡ place (pieces (ends_with self) text.now) k →
            at + length result.now ≡ place (pieces (ends_with self) text.now) (suc k) }
        ensures within { at + length result.now ≤ length text.now }
        ensures some { at < length text.now → 0 < length result.now }
    {
        let (_, rest) = text.split_at(at);
        let (piece, _) = rest.split_at(self.piece_len(rest));
        piece
    }

    /// How long the first piece is, with its end.
    #[inline(always)]
    fn piece_len(self, text: &[u8]) -> usize
        ensures piece { result ≡ first_len (ends_with self) text.now }
        ensures within { result ≤ length text.now }
        ensures some { 0 < length text.now → 0 < result }
    {
        for (i, b) in text.iter().enumerate() {
            if self.has(*b) {
                return i + 1;
            }
        }
        text.len()
    }
}

/// The line that begins at byte `at`, with its line feed where it has one; empty at the end of the
/// text. In time linear in the line.
pub fn line_at(bytes: &[u8], at: usize) -> &[u8]
    requires { at ≤ length bytes.now }
    ensures line { (k : ℕ) → IsPlace bytes.now k at → result.now ≡ piece_at (lines bytes.now) k }
    ensures next { (k : ℕ) → IsPlace bytes.now k at
        → IsPlace bytes.now (suc k) (at + length result.now) }
    ensures within { at + length result.now ≤ length bytes.now }
    ensures some { at < length bytes.now → 0 < length result.now }
{
    Ends::Line.piece_at(bytes, at)
}

/// Whether the line has its line feed.
pub fn is_whole(line: &[u8]) -> bool
    ensures { result ≡ is_ended is_feed line.now }
{
    ends_in(line, b'\n')
}

/// The line without its line feed, and without one carriage return before that.
pub fn text_of(line: &[u8]) -> &[u8]
    ensures { result.now ≡ line_text line.now }
{
    without_end(without_end(line, b'\n'), b'\r')
}

/// The text without one such byte at its end.
fn without_end(text: &[u8], byte: u8) -> &[u8]
    ensures { result.now ≡ without_end (λ b. nat_eq b byte) text.now }
{
    if !ends_in(text, byte) {
        return text;
    }
    let (front, _) = text.split_at(text.len() - 1);
    front
}

/// Whether the text's last byte is this one.
fn ends_in(text: &[u8], byte: u8) -> bool
    ensures { result ≡ is_ended (λ b. nat_eq b byte) text.now }
{
    !text.is_empty() && text[text.len() - 1] == byte
}

/// Adds the first ten numbers of the text, which has one space between two; none where it is
/// anything else. In time linear in the text.
pub fn read_numbers(text: &[u8], row: &mut List<u64>) -> M<()>
    ensures { OnOk result (row.new ≡ row.old ++ take 10 (numbers_of text.now)) }
{
    let before = row.len();
    let mut left = Some(text);
    let mut count = 0usize;
    while let Some(rest) = left {
        let (word, behind) = cut_word(rest);
        let Some(n) = number(word) else {
            row.truncate(before);
            return Ok(());
        };
        if count < 10 {
            row.push(n)?;
            count += 1;
        }
        left = behind;
    }
    Ok(())
}

/// The first word, and what stands behind the space after it, if there is one.
#[inline(always)]
fn cut_word(text: &[u8]) -> (&[u8], Option<&[u8]>)
    ensures words { slice_split is_space text.now ≡
        result.0.now ∷ words_of (option_copied result.1) }
    ensures fewer { left_of (option_copied result.1) < left_of (Some text.now) }
{
    match cut(text, b' ') {
        Some((word, rest)) => (word, Some(rest)),
        None => (text, None),
    }
}

/// How many bytes stand before the first space.
pub fn word_len(text: &[u8]) -> usize
    ensures longest { result ≡ prefix_len (λ b. not (is_space b)) text.now }
    ensures within { result ≤ length text.now }
{
    for (i, b) in text.iter().enumerate() {
        if *b == b' ' {
            return i;
        }
    }
    text.len()
}
