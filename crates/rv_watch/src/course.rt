//! Lines that are taken one after another.

ghost use Rattle.std.specs.Prelude.{◌≡◌, ◌+◌, ◌≤◌, IfNone, length};
ghost use Rattle.hy_base.specs.Sink.{KeepsSink};
ghost use Rattle.hy_base.specs.declared.reading.TheConstants.{BYTES_LIMIT};
ghost use Rattle.rv_core.specs.Seen.{held};
ghost use Rattle.rv_watch.specs.At.{CountsArrival, IsUnderWay, TakesLine, TellsCrowded, line_refusal};

use crate::texts::write_counts;
use crate::verdict::{Question, WatchAnswer, WatchFault};
use hy_base::{Kind, Sink, Steps};
use hy_finite::{Event, LineError, read_event};
use hy_formula::NameTable;
use hy_run::Refusal;
use rv_core::{Reply, Rv};
use rv_tool::{RvVerdict, event_refusal};
use std::alloc::Global;
use std::sync::ledger::Ledger;

/// How many traces may be present when one more comes.
const MOST_TRACES: u32 = 2_147_483_648;

/// What is asked, and by which names lines are read.
#[derive(Clone, Copy)]
pub struct Terms<'a> {
    pub question: Question,
    pub names: &'a NameTable,
}

/// A monitor, how many lines were taken, and how many traces arrived since the last line of counts.
#[derive(Drop)]
pub struct Watcher {
    pub rv: Rv,
    pub lines: u64,
    since: u32,
}

impl Watcher {
    /// The monitor before all lines.
    pub fn new(rv: Rv) -> Watcher
        ensures { result ≡ record { rv = rv; lines = 0; since = 0 } }
    {
        Watcher {
            rv,
            lines: 0,
            since: 0,
        }
    }

    /// Takes the next line, which has no line feed; the answer where it stops the watch. Its event is
    /// given to the monitor, and a line of counts is written where it is due. In time linear in the
    /// line, and that of `Rv::event`.
    pub fn take<L: Ledger, E: Sink>(
        &mut self,
        alloc: Global,
        line: &[u8],
        terms: &Terms<'_>,
        steps: &mut Steps<L>,
        err: &mut E,
    ) -> Option<WatchAnswer>
        requires small { length line.now ≤ BYTES_LIMIT }
        requires at { IsUnderWay terms.now E.Sink err.old self.old }
        ensures keeps { KeepsSink E.Sink err.old err.new }
        ensures taken { TakesLine terms.now E.Sink err.old self.old err.new self.new line.now result }
        ensures more { IfNone result (self.new.lines ≡ self.old.lines + 1) }
    {
        let Some(number) = self.lines.checked_add(1) else {
            return Some(Err(Refusal::Own(WatchFault::Lines)));
        };
        let event = match read_event(alloc, line, terms.names) {
            Ok(Some(event)) => event,
            Ok(None) => {
                self.lines = number;
                return None;
            }
            Err(fault) => return Some(Err(line_refusal(fault, number))),
        };
        if is_crowded(&self.rv, &event) {
            return Some(Err(Refusal::Own(WatchFault::Traces)));
        }
        match self.rv.event(alloc, &event, steps) {
            Ok(Reply::Quiet) => {
                self.lines = number;
                None
            }
            Ok(Reply::Arrived { .. }) => {
                self.lines = number;
                self.count(terms.question.every, err);
                None
            }
            Ok(Reply::Violation { spec, trace, tuple }) => {
                Some(Ok(RvVerdict::Violation { spec, trace, tuple }))
            }
            Err(error) => { Some(Err(event_refusal(error, WatchFault::Session { line: number }))) }
        }
    }

    /// Counts an arrival, and writes a line of counts where it is due.
    fn count<E: Sink>(&mut self, every: Option<u32>, err: &mut E)
        ensures keeps { KeepsSink E.Sink err.old err.new }
        ensures same { self.new.rv ≡ self.old.rv }
        ensures lines { self.new.lines ≡ self.old.lines }
        ensures counted { CountsArrival E.Sink err.old self.old every err.new self.new }
    {
        let Some(every) = every else {
            return;
        };
        if self.since < every.saturating_sub(1) {
            self.since += 1;
            return;
        }
        self.since = 0;
        write_counts(err, self.rv.traces(), self.rv.live());
    }
}

/// Whether a trace comes by an event behind the most traces that can be present.
fn is_crowded(rv: &Rv, event: &Event) -> bool
    ensures { TellsCrowded (held rv.now) event.now result }
{
    rv.traces() >= MOST_TRACES && rv.brings_trace(event)
}

/// Why a line with this number is refused that is read so.
fn line_refusal(fault: LineError, line: u64) -> Refusal<WatchFault>
    ensures { result ≡ line_refusal line fault }
{
    match fault {
        LineError::Syntax { .. } => Refusal::Own(WatchFault::Line { line }),
        LineError::Limit => Refusal::Limit {
            kind: Kind::Length,
            limit: Kind::Length.most(),
        },
        LineError::Memory => Refusal::Memory,
    }
}
