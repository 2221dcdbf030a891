//! The events that the lines of a file say, one after another.

ghost use Rattle.std.specs.Prelude.{◌≡◌, ◌+◌, ◌<◌, ◌≤◌, ◌^◌, length};
ghost use Rattle.std.specs.Option.{option_copied};
ghost use Rattle.hy_base.specs.declared.reading.TheConstants.{BYTES_LIMIT};
ghost use Rattle.hy_text.specs.Lines.{left_len};
ghost use Rattle.hy_finite.specs.EventAnswers.{AreChecked};
ghost use Rattle.hy_finite.specs.NextEvents.{IsNextLine, IsNextAnswer};

use crate::checks::{LineCheck, check_line};
use crate::event::Placed;
use crate::line::read_line;
use hy_bits::Letters;
use hy_formula::NameTable;
use hy_text::{LineError, says_nothing, split_line};
use std::alloc::Global;

/// The lines of a file that are left to read: what they are, with none after the last one, and the
/// number of the first of them, counted from 1.
#[derive(Clone, Copy)]
pub struct EventLines<'a> {
    left: Option<&'a [u8]>,
    next: u32,
    ghost countable: { next + left_len (option_copied left) < 2 ^ 32 },
}

impl<'a> EventLines<'a> {
    ghost use Rattle.hy_finite.specs.EventAnswers.{all_lines};
    ghost use Rattle.hy_finite.specs.Remaining.{remaining};

    /// All lines of a file.
    pub fn new(bytes: &'a [u8]) -> EventLines<'a>
        requires { length bytes.now ≤ BYTES_LIMIT }
        ensures { remaining result ≡ all_lines bytes.now }
    {
        EventLines {
            left: Some(bytes),
            next: 1,
        }
    }

    /// The next event, or `None` where no line is left that says one, and then no line is left. Names
    /// that the table lacks are passed over. A trace takes the memory of `letters`, and what that has
    /// is dropped: where `Event::return_letters` gives it back, few allocations are made. In time
    /// linear in the lines that are passed.
    ///
    /// Syntax where the next line that says something is no text; Limit where it is a trace of more
    /// than 1,024 letters. After an error the lines are as before.
    pub fn next(
        &mut self,
        alloc: Global,
        names: &NameTable,
        letters: &mut Letters,
    ) -> Result<Option<Placed>, LineError>
        ensures { IsNextAnswer names.now (remaining self.old) (remaining self.new) result }
    {
        let before = *self;
        let Some((line, text)) = self.next_line() else {
            return Ok(None);
        };
        match read_line(alloc, text, names, letters) {
            Ok(Some(event)) => Ok(Some(Placed { line, event })),
            Ok(None) => Ok(None),
            Err(LineError::Syntax { .. }) => {
                *self = before;
                Err(LineError::Syntax { line })
            }
            Err(fault) => {
                *self = before;
                Err(fault)
            }
        }
    }

    /// Whether the lines are texts that are taken, and if not, why. Takes no memory, and time linear
    /// in the bytes.
    ///
    /// Syntax with the first line that is no text; Limit where all lines are, and one is a trace of
    /// more than 1,024 letters. Memory is no answer.
    pub fn check(&self, alloc: Global) -> Result<(), LineError>
        ensures { AreChecked (remaining self.now) result }
    {
        let names = NameTable::new(alloc)?;
        let mut left = self.left;
        let mut line = self.next;
        let mut is_long = false;
        while let Some(text) = left {
            let (first, rest) = split_line(text);
            match check_line(first, &names) {
                LineCheck::Good => {}
                LineCheck::TooLong => is_long = true,
                LineCheck::Fault => return Err(LineError::Syntax { line }),
            }
            left = rest;
            line += 1;
        }
        if is_long {
            return Err(LineError::Limit);
        }
        Ok(())
    }

    /// The next line that says something, and its number.
    fn next_line(&mut self) -> Option<(u32, &'a [u8])>
        ensures { IsNextLine (remaining self.old) (remaining self.new) result }
    {
        while let Some(text) = self.left {
            let line = self.next;
            let (first, rest) = split_line(text);
            *self = EventLines {
                left: rest,
                next: line + 1,
            };
            if !says_nothing(first) {
                return Some((line, first));
            }
        }
        None
    }
}
