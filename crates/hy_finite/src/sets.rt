//! Texts that are one set, and words of sets that are whole traces.

ghost use Rattle.std.specs.Prelude.{◌≡◌};
ghost use Rattle.hy_finite.specs.LineParts.{IsSetAnswer, IsTraceAnswer};

use crate::trace::{MOST_LETTERS, Trace};
use hy_base::List;
use hy_bits::{LetterMask, Letters};
use hy_formula::NameTable;
use hy_text::{LineError, past_blanks, read_set, read_word};
use std::alloc::Global;
use std::mem;

/// The letter of the set that is the whole text. `None` where it is none. In time linear in the text.
pub fn read_whole_set(text: &[u8], names: &NameTable) -> Option<LetterMask>
    ensures { IsSetAnswer names.now text.now result }
{
    let Some(set) = read_set(text, names) else {
        return None;
    };
    if !past_blanks(set.rest).is_empty() {
        return None;
    }
    Some(set.letter)
}

/// The trace that the whole text is. It takes the memory of `letters`, and what that has is dropped.
/// In time linear in the text; past 1,024 letters none is kept. Refused as line 1 where the text is
/// no word of sets.
pub fn read_trace(
    alloc: Global,
    text: &[u8],
    names: &NameTable,
    letters: &mut Letters,
) -> Result<Trace, LineError>
    ensures { IsTraceAnswer names.now text.now result }
{
    letters.truncate(0);
    let Some(word) = read_word(text, names, MOST_LETTERS, letters)? else {
        return Err(LineError::Syntax { line: 1 });
    };
    if !word.rest.is_empty() {
        return Err(LineError::Syntax { line: 1 });
    }
    if word.sets > MOST_LETTERS {
        return Err(LineError::Limit);
    }
    match Trace::new(mem::replace(letters, List::new(alloc))) {
        Some(trace) => Ok(trace),
        None => Err(LineError::Limit),
    }
}
