//! Where the events of a run come from: the lines of a file, or traces that were made.

ghost use Rattle.std.specs.Prelude.{◌≡◌, ◌<◌, ◌≤◌, ◌^◌, ℕ, List, Result, length, IfOk, IfErr, OnErr};
ghost use Rattle.hy_base.specs.declared.reading.TheConstants.{BYTES_LIMIT};
ghost use Rattle.hy_text.specs.declared.line_error.LineError.{LineError as Fault};
ghost use Rattle.hy_finite.specs.declared.event.Placed.{Placed};
ghost use Rattle.hy_finite.specs.EventAnswers.{IsCheckAnswer};
ghost use Rattle.hy_finite.specs.EventFiles.{IsEventFile};

use hy_base::Remake;
use hy_bits::Letters;
use hy_finite::{Event, EventLines, LineError, Placed, Trace};
use hy_formula::NameTable;
use std::alloc::Global;

/// The events that are left.
#[derive(Clone, Copy)]
pub enum Source<'a> {
    /// Those of lines, by the names of a table.
    Lines {
        lines: EventLines<'a>,
        names: &'a NameTable,
    },
    /// Traces, each of them whole, and the number of the first of them.
    Made {
        first: u32,
        traces: &'a [Trace],
    },
}

impl<'a> Source<'a> {
    ghost use Rattle.rv_tool.specs.Monitoring.{whole_traces};
    ghost use Rattle.rv_tool.specs.Watching.{AreLeft, count_left, AreNumbered, IsLeftAnswer, AreGood, AreRead, IsNext};

    /// The events of lines. Names that the table lacks are passed over.
    pub fn of_lines(bytes: &'a [u8], names: &'a NameTable) -> Source<'a>
        requires { length bytes.now ≤ BYTES_LIMIT }
        ensures left { (events : List Placed) → AreLeft result events
            → IsEventFile names.now bytes.now events }
        ensures few { count_left result < 2 ^ 31 }
        ensures numbered { AreNumbered result }
        ensures all { (found : Result (Unit {0}) Fault) → IsLeftAnswer result found
            → IsCheckAnswer bytes.now found }
    {
        Source::Lines {
            lines: EventLines::new(bytes),
            names,
        }
    }

    /// The traces, counted from 0.
    pub fn of_traces(traces: &'a [Trace]) -> Source<'a>
        requires { length traces.now < 2 ^ 31 }
        ensures left { (events : List Placed) → AreLeft result events
            → events ≡ whole_traces 0 traces.now }
        ensures few { count_left result < 2 ^ 31 }
        ensures numbered { AreNumbered result }
        ensures taken { (found : Result (Unit {0}) Fault) → IsLeftAnswer result found
            → found ≡ Ok tt }
    {
        Source::Made { first: 0, traces }
    }

    /// Whether the lines that are left are taken, and if not, why: as `EventLines::check`. Made
    /// traces are.
    pub fn check(&self, alloc: Global) -> Result<(), LineError>
        ensures { IsLeftAnswer self.now result }
    {
        match self {
            Source::Lines { lines, .. } => lines.check(alloc),
            Source::Made { .. } => Ok(()),
        }
    }

    /// The next event, if there is one. That of a line takes the memory of `letters`. As
    /// `EventLines::next` where the next line is at fault; else only memory may be wanting. A refusal
    /// leaves the source as it was.
    pub fn next(
        &mut self,
        alloc: Global,
        letters: &mut Letters,
    ) -> Result<Option<Placed>, LineError>
        requires { AreNumbered self.old }
        ensures next { IfOk result (λ next. IsNext self.old self.new next) }
        ensures read { AreRead self.old self.new }
        ensures ended { IfErr result (λ fault. AreGood self.old → fault ≡ LineError.Memory) }
        ensures refused { OnErr result (self.new ≡ self.old) }
    {
        match *self {
            Source::Lines { mut lines, names } => {
                let next = lines.next(alloc, names, letters)?;
                *self = Source::Lines { lines, names };
                Ok(next)
            }
            Source::Made { first, traces } => {
                let [trace, rest @ ..] = traces else {
                    return Ok(None);
                };
                let trace = trace.remake(alloc)?;
                *self = Source::Made {
                    first: first + 1,
                    traces: rest,
                };
                let event = Event::Whole(trace);
                Ok(Some(Placed { line: first, event }))
            }
        }
    }
}
