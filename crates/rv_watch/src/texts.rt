//! Lines that a watch writes, without taking memory.

ghost use Rattle.std.specs.Prelude.{◌≡◌, OnOk, OnErr, codes, decimal, ◌++◌};
ghost use Rattle.hy_base.specs.Sink.{KeepsSink, GivesWhole, FailsToGive};
ghost use Rattle.hy_files.specs.ErrorLines.{Received, plain};
ghost use Rattle.hy_run.specs.Refusals.{refusal_line, refusal_status};
ghost use Rattle.rv_watch.specs.Texts.{counts_text, fault_line, own_line, own_status};

use crate::verdict::WatchFault;
use hy_base::{Sink, SinkFailed, write_all, write_pieces};
use hy_files::{name_of_file, write_class, write_fault, write_limit};
use hy_run::{Refusal, file_status};
use itoa::Buffer;

/// Writes how many traces are present, and how many sessions are open. That a put fails changes
/// nothing but the sink.
pub fn write_counts<E: Sink>(err: &mut E, traces: u32, live: u32)
    ensures keeps { KeepsSink E.Sink err.old err.new }
    ensures received { Received E.Sink err.old err.new (counts_text traces live) }
{
    let mut buffer = Buffer::new();
    let mut other = Buffer::new();
    let traces = buffer.format(traces).as_bytes();
    let live = other.format(live).as_bytes();
    let _ = write_pieces(err, &[b"traces ", traces, b" open ", live, b"\n"]);
}

/// Writes the line of a refusal of a command that has files of these names.
pub fn write_refusal<E: Sink>(
    refusal: &Refusal<WatchFault>,
    files: &[&str],
    err: &mut E,
) -> Result<(), SinkFailed>
    ensures keeps { KeepsSink E.Sink err.old err.new }
    ensures given { OnOk result (GivesWhole E.Sink err.old err.new
        (refusal_line own_line (plain files.now) refusal.now)) }
    ensures refused { OnErr result (FailsToGive E.Sink err.old err.new
        (refusal_line own_line (plain files.now) refusal.now)) }
{
    match refusal {
        Refusal::Words => write_all(err, b"error E1: words\n"),
        Refusal::File { file, fault } => write_fault(err, name_of_file(files, *file), *fault),
        Refusal::Prefix { file, class } => write_class(err, name_of_file(files, *file), *class),
        Refusal::Limit { kind, limit } => write_limit(err, *kind, *limit),
        Refusal::Own(fault) => write_own(fault, err),
        Refusal::Write => write_all(err, b"error E8\n"),
        Refusal::Memory => write_all(err, b"error: memory\n"),
    }
}

/// Writes the line of a refusal of a watch alone.
fn write_own<E: Sink>(fault: &WatchFault, err: &mut E) -> Result<(), SinkFailed>
    ensures keeps { KeepsSink E.Sink err.old err.new }
    ensures given { OnOk result (GivesWhole E.Sink err.old err.new (fault_line fault.now)) }
    ensures refused { OnErr result (FailsToGive E.Sink err.old err.new (fault_line fault.now)) }
{
    match fault {
        WatchFault::Line { line } => write_line(err, b"error E9 -: line ", *line),
        WatchFault::Session { line } => write_line(err, b"error E10: line ", *line),
        WatchFault::Traces => write_all(err, b"error E5: traces 2147483648\n"),
        WatchFault::Lines => write_all(err, b"error E5: lines 18446744073709551615\n"),
    }
}

/// Writes a line that ends in the number of a line.
fn write_line<E: Sink>(err: &mut E, front: &[u8], line: u64) -> Result<(), SinkFailed>
    ensures keeps { KeepsSink E.Sink err.old err.new }
    ensures given { OnOk result (GivesWhole E.Sink err.old err.new
        (front.now ++ decimal line ++ codes "\n")) }
    ensures refused { OnErr result (FailsToGive E.Sink err.old err.new
        (front.now ++ decimal line ++ codes "\n")) }
{
    let mut buffer = Buffer::new();
    write_pieces(err, &[front, buffer.format(line).as_bytes(), b"\n"])
}

/// The exit status of a refusal.
pub fn status_of(refusal: &Refusal<WatchFault>) -> u8
    ensures { result ≡ refusal_status own_status refusal.now }
{
    match refusal {
        Refusal::Words | Refusal::Prefix { .. } => 2,
        Refusal::File { fault, .. } => file_status(*fault),
        Refusal::Limit { .. } => 5,
        Refusal::Own(WatchFault::Line { .. } | WatchFault::Session { .. }) => 2,
        Refusal::Own(WatchFault::Traces | WatchFault::Lines) => 5,
        Refusal::Write => 3,
        Refusal::Memory => 6,
    }
}
