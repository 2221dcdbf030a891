//! Events of a run: traces, letters of sessions and their ends, saves and returns.

ghost use Rattle.std.specs.Prelude.{◌≡◌};

use crate::trace::Trace;
use hy_base::{List, M, Remake};
use hy_bits::{LetterMask, Letters};
use std::alloc::Global;

/// What a line of a trace file brings. A session is a trace that comes letter by letter; it is known
/// by its number.
#[derive(Drop)]
pub enum Event {
    /// A trace.
    Whole(Trace),
    /// A letter more of a session.
    Letter { session: u32, letter: LetterMask },
    /// The end of a session, which is a trace then.
    End { session: u32 },
    /// The present traces and sessions are put aside.
    Save,
    /// Those that were put aside last come back.
    Back,
}

impl Remake for Event {
    fn remake(&self, alloc: Global) -> M<Self> {
        Ok(match self {
            Event::Whole(trace) => Event::Whole(trace.remake(alloc)?),
            Event::Letter { session, letter } => Event::Letter {
                session: *session,
                letter: *letter,
            },
            Event::End { session } => Event::End { session: *session },
            Event::Save => Event::Save,
            Event::Back => Event::Back,
        })
    }
}

impl Event {
    ghost use Rattle.hy_finite.specs.EventFiles.{letters_or};

    /// Puts the letters of a whole trace in place of these, so that their memory can be lent again.
    /// Any other event leaves them as they are.
    pub fn return_letters(self, letters: &mut Letters)
        ensures { letters.new ≡ letters_or letters.old self }
    {
        match self {
            Event::Whole(trace) => *letters = trace.into_letters(),
            Event::Letter { .. } | Event::End { .. } | Event::Save | Event::Back => {}
        }
    }
}

/// An event, and the number of its line, counted from 1.
#[derive(Drop)]
pub struct Placed {
    pub line: u32,
    pub event: Event,
}

impl Remake for Placed {
    fn remake(&self, alloc: Global) -> M<Self> {
        Ok(Placed {
            line: self.line,
            event: self.event.remake(alloc)?,
        })
    }
}

/// Events in the order of their lines.
pub type EventList = List<Placed>;
