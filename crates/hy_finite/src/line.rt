//! The event of one line.

ghost use Rattle.hy_finite.specs.EventAnswers.{IsLineAnswer, IsLetterAnswer};

use crate::begun::{Begun, begin};
use crate::event::Event;
use crate::sets::{read_trace, read_whole_set};
use hy_base::List;
use hy_bits::Letters;
use hy_formula::NameTable;
use hy_text::LineError;
use std::alloc::Global;

/// What the line says: an event, or nothing where it is blank or a comment. The line has no line
/// feed. Names that the table lacks are passed over. In time linear in the line.
///
/// Syntax, at line 1, where the line is no text; Limit where it is a trace of more than 1,024
/// letters.
pub fn read_event(alloc: Global, line: &[u8], names: &NameTable) -> Result<Option<Event>, LineError>
    ensures { IsLineAnswer names.now line.now result }
{
    let mut letters = List::new(alloc);
    read_line(alloc, line, names, &mut letters)
}

/// As `read_event`. A trace takes the memory of `letters`, and what that has is dropped.
pub fn read_line(
    alloc: Global,
    line: &[u8],
    names: &NameTable,
    letters: &mut Letters,
) -> Result<Option<Event>, LineError>
    ensures { IsLineAnswer names.now line.now result }
{
    let Some(begun) = begin(line) else {
        return Err(LineError::Syntax { line: 1 });
    };
    match begun {
        Begun::Nothing => Ok(None),
        Begun::Word(text) => { Ok(Some(Event::Whole(read_trace(alloc, text, names, letters)?))) }
        Begun::Letter { session, set } => read_letter(session, set, names),
        Begun::End { session } => Ok(Some(Event::End { session })),
        Begun::Save => Ok(Some(Event::Save)),
        Begun::Back => Ok(Some(Event::Back)),
    }
}

/// The letter of a session whose set is the text.
fn read_letter(session: u32, set: &[u8], names: &NameTable) -> Result<Option<Event>, LineError>
    ensures { IsLetterAnswer names.now session set.now result }
{
    match read_whole_set(set, names) {
        Some(letter) => Ok(Some(Event::Letter { session, letter })),
        None => Err(LineError::Syntax { line: 1 }),
    }
}
