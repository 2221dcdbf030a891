//! A sink that tells nothing, and a log of what was put into it.

ghost use Rattle.std.specs.Prelude.{◌≡◌, Some, None, [], ◌∷◌, IfSome};
ghost use Rattle.hy_base.specs.Logs.{Extends};
ghost use Rattle.hy_base.specs.Recorded.{sink_entry};

use crate::list::List;
use crate::log::{copy_of, note};
use crate::sink::{Sink, SinkFailed};
use crate::sink_call::SinkCall;
use std::alloc::Global;

/// The puts into a sink, one after another.
pub type SinkLog = List<SinkCall>;

/// A sink of which each put, with what came of it, is put into a log. It tells nothing of what it was
/// given, and its puts are joined by that log alone.
///
/// Where memory runs out for the log there is none any more, and the sink goes on without it.
#[derive(Drop)]
pub struct RecordedSink<O> {
    sink: O,
    alloc: Global,
    log: Option<SinkLog>,
}

impl<O> RecordedSink<O> {
    /// The sink with an empty log. Takes no memory.
    pub fn new(alloc: Global, sink: O) -> RecordedSink<O>
        ensures { result.log ≡ Some [] }
    {
        RecordedSink {
            sink,
            alloc,
            log: Some(SinkLog::new(alloc)),
        }
    }

    /// What was put so far; none where memory ran out.
    pub fn log(&self) -> Option<&SinkLog>
        ensures some { IfSome result (λ log. self.now.log ≡ Some log.now) }
        ensures none { result ≡ None → self.now.log ≡ None }
    {
        match &self.log {
            Some(log) => Some(log),
            None => None,
        }
    }
}

impl<O: Sink> Sink for RecordedSink<O> {
    ghost tells = { λ _. ⊥ };

    ghost given = { λ _. [] };

    ghost faults = { λ s. O.faults s.sink };

    ghost called = { λ s put t. Extends s.log (sink_entry put ∷ []) t.log };

    fn put(&mut self, piece: &[u8]) -> Result<usize, SinkFailed> {
        match self.sink.put(piece) {
            Ok(count) => {
                match copy_of(self.alloc, &piece[..count]) {
                    Ok(bytes) => note(&mut self.log, SinkCall::Took(bytes)),
                    Err(_) => self.log = None,
                }
                Ok(count)
            }
            Err(SinkFailed) => {
                note(&mut self.log, SinkCall::NotTaken);
                Err(SinkFailed)
            }
        }
    }
}
