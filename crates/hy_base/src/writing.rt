//! Whole texts into a sink.

ghost use Rattle.std.specs.Prelude.{◌≡◌, ◌≤◌, ◌<◌, ◌++◌, ℕ, List, OnOk, OnErr, length};
ghost use Rattle.hy_base.specs.Counts.{Rose};
ghost use Rattle.hy_base.specs.Sink.{KeepsSink, GivesWhole, FailsToGive};
ghost use Rattle.hy_base.specs.Pieces.{joined};

use crate::sink::{Sink, SinkFailed};

/// Gives all of `bytes` to the sink, by as few puts as it takes them in. It takes no memory.
///
/// `SinkFailed` comes where a put failed; the sink has then received less than all of them, and no
/// put is made behind the one that failed.
pub fn write_all<O: Sink>(sink: &mut O, bytes: &[u8]) -> Result<(), SinkFailed>
    ensures keeps { KeepsSink O.Sink sink.old sink.new }
    ensures given { OnOk result (GivesWhole O.Sink sink.old sink.new bytes.now) }
    ensures refused { OnErr result (FailsToGive O.Sink sink.old sink.new bytes.now) }
    ensures some { OnErr result (0 < length bytes.now) }
{
    let mut sent = 0;
    while sent < bytes.len() {
        sent += sink.put(&bytes[sent..])?;
    }
    Ok(())
}

/// Gives all of `pieces` to the sink, one after the other. It takes no memory.
///
/// `SinkFailed` comes where a put failed; the sink has then received less than all of them, and no
/// put is made behind the one that failed.
pub fn write_pieces<O: Sink>(sink: &mut O, pieces: &[&[u8]]) -> Result<(), SinkFailed>
    ensures keeps { KeepsSink O.Sink sink.old sink.new }
    ensures given { OnOk result (GivesWhole O.Sink sink.old sink.new (joined pieces.now)) }
    ensures refused { OnErr result (FailsToGive O.Sink sink.old sink.new (joined pieces.now)) }
{
    for piece in pieces {
        write_all(sink, piece)?;
    }
    Ok(())
}
