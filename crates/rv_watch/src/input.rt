//! Standard input, whose lines are taken as they end.

ghost use Rattle.std.specs.Prelude.{◌≡◌, ◌+◌, ◌≤◌, ◌++◌, [], Err, IfNone, IfSome, length};
ghost use Rattle.hy_base.specs.Shelf.{KeepsShelf};
ghost use Rattle.hy_base.specs.Sink.{KeepsSink};
ghost use Rattle.hy_run.specs.declared.refusal.Refusal.TheVariants.{File as OfFile};
ghost use Rattle.rv_watch.specs.At.{Finishes, IsFresh, IsMidway, IsUnderWay, IsWatchedBy, TakesLine, TakesPiece, room};

use crate::course::{Terms, Watcher};
use crate::verdict::WatchAnswer;
use hy_base::{BYTES_LIMIT, Kind, Memory, Shelf, ShelfFailed, Sink, Steps, Text};
use hy_files::FileFault;
use hy_finite::split_line;
use hy_run::Refusal;
use rv_core::Rv;
use rv_tool::{RvVerdict, kept_of};
use std::alloc::Global;
use std::sync::ledger::Ledger;

/// How many bytes one read asks for.
const READ_SIZE: usize = 65_536;

/// What standard input comes to with a monitor to which nothing has come yet. It is opened, and read
/// in pieces; each line that ended in a piece is taken before the next read. The last line may end
/// without a line feed.
///
/// In time linear in the bytes, however they are cut into pieces, and that of `Rv::event` for each
/// event. Of them the line in hand alone is kept: in at most three times its memory.
pub fn watch_input<S: Shelf, L: Ledger, E: Sink>(
    alloc: Global,
    shelf: &mut S,
    rv: Rv,
    terms: &Terms<'_>,
    steps: &mut Steps<L>,
    err: &mut E,
) -> WatchAnswer
    requires { IsFresh terms.now rv }
    ensures keeps_shelf { KeepsShelf S.Shelf shelf.old shelf.new }
    ensures keeps_err { KeepsSink E.Sink err.old err.new }
    ensures watched { IsWatchedBy terms.now rv E.Sink err.old S.Shelf shelf.old shelf.new err.new result }
{
    let mut watcher = Watcher::new(rv);
    let mut front = Text::new(alloc);
    let mut buffer = [0; READ_SIZE];
    let Ok(()) = shelf.open_file("-") else {
        return input_fault(FileFault::Open);
    };
    loop {
        match shelf.read(&mut buffer) {
            Err(ShelfFailed) => return input_fault(FileFault::Read),
            Ok(0) => return finish(alloc, &mut watcher, front.as_slice(), terms, steps, err),
            Ok(count) => {
                let piece = &buffer[..count];
                let fed = feed(alloc, &mut watcher, &mut front, piece, terms, steps, err);
                if let Some(answer) = fed {
                    return answer;
                }
            }
        }
    }
}

/// The answer for a fault of standard input.
fn input_fault(fault: FileFault) -> WatchAnswer
    ensures { result ≡ Err (OfFile 1 fault) }
{
    Err(Refusal::File { file: 1, fault })
}

/// Takes the lines that end in a piece, of which the first goes on from a front; the answer where one
/// stops the watch, or grows past its limit. The new front is what stands behind them.
fn feed<L: Ledger, E: Sink>(
    alloc: Global,
    watcher: &mut Watcher,
    front: &mut Text,
    piece: &[u8],
    terms: &Terms<'_>,
    steps: &mut Steps<L>,
    err: &mut E,
) -> Option<WatchAnswer>
    requires { IsMidway terms.now E.Sink err.old watcher.old front.old }
    ensures keeps { KeepsSink E.Sink err.old err.new }
    ensures fed { TakesPiece terms.now E.Sink err.old watcher.old front.old err.new watcher.new
        front.new piece.now result }
    ensures room { IfNone result (room watcher.new.lines front.new + length piece.now
        ≤ room watcher.old.lines front.old) }
{
    let mut left = piece;
    loop {
        let (line, rest) = split_line(left);
        if BYTES_LIMIT - front.len() < line.len() {
            return Some(Err(Refusal::Limit {
                kind: Kind::Bytes,
                limit: BYTES_LIMIT as u64,
            }));
        }
        let Some(rest) = rest else {
            return keep(front, line);
        };
        let stopped = take_ended(alloc, watcher, front, line, terms, steps, err);
        if let Some(answer) = stopped {
            return Some(answer);
        }
        left = rest;
    }
}

/// Puts bytes behind the front of a line; the answer where memory ran out.
fn keep(front: &mut Text, bytes: &[u8]) -> Option<WatchAnswer>
    ensures kept { IfNone result (front.new ≡ front.old ++ bytes.now) }
    ensures refused { IfSome result (λ answer. answer ≡ Err Refusal.Memory) }
{
    match front.extend(bytes) {
        Ok(()) => None,
        Err(Memory) => Some(Err(Refusal::Memory)),
    }
}

/// Takes a line that ended: a front, and what stands behind it. The front is empty then.
fn take_ended<L: Ledger, E: Sink>(
    alloc: Global,
    watcher: &mut Watcher,
    front: &mut Text,
    line: &[u8],
    terms: &Terms<'_>,
    steps: &mut Steps<L>,
    err: &mut E,
) -> Option<WatchAnswer>
    requires small { length (front.old ++ line.now) ≤ BYTES_LIMIT }
    requires at { IsUnderWay terms.now E.Sink err.old watcher.old }
    ensures keeps { KeepsSink E.Sink err.old err.new }
    ensures taken { TakesLine terms.now E.Sink err.old watcher.old err.new watcher.new
        (front.old ++ line.now) result }
    ensures more { IfNone result (watcher.new.lines ≡ watcher.old.lines + 1) }
    ensures empty { IfNone result (front.new ≡ []) }
{
    if front.is_empty() {
        return watcher.take(alloc, line, terms, steps, err);
    }
    let Ok(()) = front.extend(line) else {
        return Some(Err(Refusal::Memory));
    };
    let stopped = watcher.take(alloc, front.as_slice(), terms, steps, err);
    front.truncate(0);
    stopped
}

/// Takes the last line, and answers.
fn finish<L: Ledger, E: Sink>(
    alloc: Global,
    watcher: &mut Watcher,
    line: &[u8],
    terms: &Terms<'_>,
    steps: &mut Steps<L>,
    err: &mut E,
) -> WatchAnswer
    requires { IsMidway terms.now E.Sink err.old watcher.old line.now }
    ensures keeps { KeepsSink E.Sink err.old err.new }
    ensures finished { Finishes terms.now E.Sink err.old watcher.old line.now err.new result }
{
    if let Some(answer) = watcher.take(alloc, line, terms, steps, err) {
        return answer;
    }
    match kept_of(alloc, &watcher.rv) {
        Ok(kept) => Ok(RvVerdict::NoViolation {
            traces: watcher.rv.traces(),
            kept,
            live: watcher.rv.live(),
        }),
        Err(Memory) => Err(Refusal::Memory),
    }
}
