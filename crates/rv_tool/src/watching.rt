//! Events, given to a monitor one after another.

ghost use Rattle.std.specs.Prelude.{◌≡◌, ◌<◌, ◌^◌, IfOk};
ghost use Rattle.rv_core.specs.Held.{StandsFor, specs_of};
ghost use Rattle.rv_core.specs.Seen.{held};
ghost use Rattle.rv_core.specs.Histories.{History, empty_history};
ghost use Rattle.rv_tool.specs.Monitoring.{EventsCome, AreKeptCounts, IsNoViolation};
ghost use Rattle.rv_tool.specs.Watching.{OrMemory, OrFault, AreLeft, count_left, AreNumbered, AreGood, AreRead, IsWatched};

use crate::refusals::event_refusal;
use crate::source::Source;
use crate::verdict::{RvAnswer, RvFault, RvVerdict};
use hy_base::{M, Memory, NumList, Steps};
use hy_bits::Letters;
use hy_files::FileFault;
use hy_run::{Refusal, file_refusal};
use rv_core::laws::{keeping, runs};
use rv_core::{Reply, Rv, RvError};
use std::alloc::Global;
use std::marker::Brand;
use std::sync::ledger::{Blank, Ledger};
use tuple_walk::Tuple;

/// What giving events to a monitor came to. It is no answer: a line that is not read yet may be at
/// fault.
#[derive(Drop)]
pub enum Watched {
    /// No event was refused or violated a formula.
    Through,
    /// The event of a line was refused.
    Refused { error: RvError, line: u32 },
    /// The traces up to this one violate a formula: the first such one, by these of them.
    Violated { spec: u32, trace: u32, tuple: Tuple },
    /// The next line was not read: it is at fault, or memory ran out.
    Unread,
}

/// What the events of a source come to with a monitor to which nothing has come yet; or the first
/// line at fault. Each line is read once: those behind the last event that is given
/// are checked alone.
pub fn watch(alloc: Global, rv: &mut Rv, source: &Source) -> RvAnswer
    requires stands { StandsFor (held rv.old) empty_history }
    requires few { count_left source.now < 2 ^ 31 }
    requires numbered { AreNumbered source.now }
    ensures { OrFault source.now result (OrMemory result (EventsCome (held rv.old).rule
        (held rv.old).drop (specs_of (held rv.old)) (AreLeft source.now) result)) }
{
    let mut left = *source;
    let watched = watch_on::<Brand>(alloc, rv, &mut left, Blank::new(1));
    match left.check(alloc) {
        Ok(()) => watched_answer(alloc, rv, watched),
        Err(fault) => Err(file_refusal(1, FileFault::from(fault))),
    }
}

/// Gives the monitor the events of a source, on a ledger of its own, on which the steps are counted.
fn watch_on<L: Ledger>(alloc: Global, rv: &mut Rv, source: &mut Source, blank: Blank) -> Watched
    requires stands { StandsFor (held rv.old) empty_history }
    requires few { count_left source.old < 2 ^ 31 }
    requires numbered { AreNumbered source.old }
    requires name { blank.name ≡ L.name }
    requires parts { blank.parts ≡ L.parts }
    requires some { 0 < blank.parts }
    ensures specs { specs_of (held rv.new) ≡ specs_of (held rv.old) }
    ensures rule { (held rv.new).rule ≡ (held rv.old).rule }
    ensures dropping { (held rv.new).drop ≡ (held rv.old).drop }
    ensures watched { AreGood source.old → IsWatched (held rv.old).rule (held rv.old).drop
        (specs_of (held rv.old)) source.old (held rv.new) result }
    ensures read { AreRead source.old source.new }
{
    let mut steps = Steps::<L>::new(blank);
    watch_events(alloc, rv, source, &mut steps)
}

/// Gives the monitor the events of a source, up to the first that is refused or violates a formula.
fn watch_events<L: Ledger>(
    alloc: Global,
    rv: &mut Rv,
    source: &mut Source,
    steps: &mut Steps<L>,
) -> Watched
    requires stands { StandsFor (held rv.old) empty_history }
    requires few { count_left source.old < 2 ^ 31 }
    requires numbered { AreNumbered source.old }
    ensures specs { specs_of (held rv.new) ≡ specs_of (held rv.old) }
    ensures rule { (held rv.new).rule ≡ (held rv.old).rule }
    ensures dropping { (held rv.new).drop ≡ (held rv.old).drop }
    ensures watched { AreGood source.old → IsWatched (held rv.old).rule (held rv.old).drop
        (specs_of (held rv.old)) source.old (held rv.new) result }
    ensures read { AreRead source.old source.new }
{
    runs(); // how calls of `event` stop
    let mut letters = Letters::new(alloc);
    loop {
        let placed = match source.next(alloc, &mut letters) {
            Ok(Some(placed)) => placed,
            Ok(None) => return Watched::Through,
            Err(_) => return Watched::Unread,
        };
        let reply = match rv.event(alloc, &placed.event, steps) {
            Ok(reply) => reply,
            Err(error) => {
                return Watched::Refused {
                    error,
                    line: placed.line,
                };
            }
        };
        match reply {
            Reply::Quiet => {}
            Reply::Arrived { .. } => {}
            Reply::Violation { spec, trace, tuple } => {
                return Watched::Violated { spec, trace, tuple };
            }
        }
        placed.event.return_letters(&mut letters);
    }
}

/// The answer where all lines are taken.
fn watched_answer(alloc: Global, rv: &Rv, watched: Watched) -> RvAnswer
    ensures { (source : Source) → IsWatched (held rv.now).rule (held rv.now).drop
        (specs_of (held rv.now)) source (held rv.now) watched → OrMemory result (EventsCome
        (held rv.now).rule (held rv.now).drop (specs_of (held rv.now)) (AreLeft source) result) }
{
    match watched {
        Watched::Through => clean_answer(alloc, rv),
        Watched::Refused { error, line } => { Err(event_refusal(error, RvFault::Session { line })) }
        Watched::Violated { spec, trace, tuple } => {
            Ok(RvVerdict::Violation { spec, trace, tuple })
        }
        Watched::Unread => Err(Refusal::Memory),
    }
}

/// The answer that no event was refused or violated a formula.
fn clean_answer(alloc: Global, rv: &Rv) -> RvAnswer
    ensures { OrMemory result ((h : History) → StandsFor (held rv.now) h
        → IsNoViolation (held rv.now).rule (held rv.now).drop (specs_of (held rv.now)) h result) }
{
    match kept_of(alloc, rv) {
        Ok(kept) => Ok(RvVerdict::NoViolation {
            traces: rv.traces(),
            kept,
            live: rv.live(),
        }),
        Err(Memory) => Err(Refusal::Memory),
    }
}

/// How many traces are kept for each formula: all that arrived, or, where dominated ones are
/// dropped, their leaders. In time linear in what is kept, times the logarithm of it.
pub fn kept_of(alloc: Global, rv: &Rv) -> M<NumList>
    ensures { IfOk result (λ kept. (h : History) → StandsFor (held rv.now) h
        → AreKeptCounts (held rv.now).rule (held rv.now).drop (specs_of (held rv.now))
        h.present.arrived kept) }
{
    keeping();
    let mut kept = NumList::new(alloc);
    for spec in 0..rv.specs() {
        kept.push(rv.kept(spec))?;
    }
    Ok(kept)
}
