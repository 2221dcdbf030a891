//! The lines of a file, one after another.

ghost use Rattle.std.specs.Prelude.{◌≡◌, ◌↔◌, ◌<◌, ◌∷◌, IsTrue};
ghost use Rattle.std.specs.Option.{option_copied};
ghost use Rattle.hy_text.specs.Lines.{SaysNothing, lines_of, left_lines, left_len};

use crate::bytes::past_blanks;
use crate::class::Class;

/// The first line, without its line feed, and what stands behind that: `None` where there is none.
/// In time linear in the line.
pub fn split_line(text: &[u8]) -> (&[u8], Option<&[u8]>)
    ensures lines { lines_of text.now ≡ result.0.now ∷ left_lines (option_copied result.1) }
    ensures fewer { left_len (option_copied result.1) < left_len (Some text.now) }
{
    let (line, behind) = Class::InLine.split(text);
    if behind.is_empty() {
        return (line, None);
    }
    let (_, rest) = behind.split_at(1);
    (line, Some(rest))
}

/// Whether the line is blank or a comment. In time linear in its blanks.
pub fn says_nothing(line: &[u8]) -> bool
    ensures { IsTrue result ↔ SaysNothing line.now }
{
    match past_blanks(line) {
        [] | [b'#', ..] => true,
        _ => false,
    }
}
