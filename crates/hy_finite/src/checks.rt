//! Whether a line is a text, without keeping what it says.

ghost use Rattle.hy_finite.specs.LineParts.{IsChecked, IsWordChecked, IsSetChecked};

use crate::begun::{Begun, begin};
use crate::sets::read_whole_set;
use crate::trace::MOST_LETTERS;
use hy_formula::NameTable;
use hy_text::skip_word;

/// What a first look at a line finds.
#[derive(Clone, Copy)]
pub enum LineCheck {
    /// A text that is taken.
    Good,
    /// A whole trace of more than 1,024 letters.
    TooLong,
    /// No text.
    Fault,
}

/// Whether the line is a text that is taken, in time linear in the line. It does not depend on the
/// names, but takes less time where there is none.
pub fn check_line(line: &[u8], names: &NameTable) -> LineCheck
    ensures { IsChecked line.now result }
{
    match begin(line) {
        None => LineCheck::Fault,
        Some(Begun::Word(text)) => check_word(text, names),
        Some(Begun::Letter { set, .. }) => check_set(set, names),
        Some(Begun::Nothing) => LineCheck::Good,
        Some(Begun::End { .. }) => LineCheck::Good,
        Some(Begun::Save) => LineCheck::Good,
        Some(Begun::Back) => LineCheck::Good,
    }
}

/// Whether the text is a word of sets, and not too long.
fn check_word(text: &[u8], names: &NameTable) -> LineCheck
    ensures { IsWordChecked text.now result }
{
    let Some(word) = skip_word(text, names) else {
        return LineCheck::Fault;
    };
    if !word.rest.is_empty() {
        return LineCheck::Fault;
    }
    if word.sets > MOST_LETTERS {
        return LineCheck::TooLong;
    }
    LineCheck::Good
}

/// Whether the text is a set.
fn check_set(text: &[u8], names: &NameTable) -> LineCheck
    ensures { IsSetChecked text.now result }
{
    match read_whole_set(text, names) {
        Some(_) => LineCheck::Good,
        None => LineCheck::Fault,
    }
}
