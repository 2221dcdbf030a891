//! Files of events.

ghost use Rattle.std.specs.Prelude.{◌≤◌, length};
ghost use Rattle.hy_base.specs.declared.reading.TheConstants.{BYTES_LIMIT};
ghost use Rattle.hy_finite.specs.EventAnswers.{IsCheckAnswer, IsFileAnswer};

use crate::event::EventList;
use crate::lines::EventLines;
use hy_base::List;
use hy_formula::NameTable;
use hy_text::LineError;
use std::alloc::Global;

/// Whether the bytes are a file of events, and if not, why. Takes no memory, and time linear in the
/// bytes.
///
/// Syntax with the first line that is no text; Limit where all lines are, and one is a trace of more
/// than 1,024 letters. Memory is no answer.
pub fn check_events(alloc: Global, bytes: &[u8]) -> Result<(), LineError>
    requires { length bytes.now ≤ BYTES_LIMIT }
    ensures { IsCheckAnswer bytes.now result }
{
    EventLines::new(bytes).check(alloc)
}

/// The events of a file, in the order of its lines. Names that the table lacks are passed over. In
/// time and memory linear in the bytes. Refused as by `check_events`.
pub fn read_events(alloc: Global, bytes: &[u8], names: &NameTable) -> Result<EventList, LineError>
    requires { length bytes.now ≤ BYTES_LIMIT }
    ensures { IsFileAnswer names.now bytes.now result }
{
    check_events(alloc, bytes)?;
    let mut events = List::new(alloc);
    let mut lines = EventLines::new(bytes);
    let mut letters = List::new(alloc);
    while let Some(placed) = lines.next(alloc, names, &mut letters)? {
        events.push(placed)?;
    }
    Ok(events)
}
