//! A sink over standard output or standard error. It is not proved what a stream takes, so this
//! sink tells nothing.

ghost use Rattle.std.specs.Prelude.{◌≡◌, []};
ghost use Rattle.hy_base.specs.Fakes.{CountsPut};

use crate::calls::one_more;
use crate::sink::{Sink, SinkFailed};
use std::io::Print;

/// A stream of the process: over `rt.stdout()` its standard output, over `rt.stderr()` its standard
/// error. It keeps no byte back, so nothing is lost at exit.
///
/// Its puts are joined by its count alone: proved is that a failure was counted, and that a success
/// was not. What code that is generic over sinks says of its puts it says of these, too, as a
/// `RecordedSink` shows by its log. Left to trust are the lines below: that a put hands on as many
/// bytes as it answers, from the front of its piece, behind those of the puts before, that a failure
/// hands on none, and that it fails only where the stream took none.
#[derive(Drop)]
pub struct StdSink<P> {
    stream: P,
    faults: u64,
}

impl<P: Print> StdSink<P> {
    /// A sink with no fault counted.
    pub fn new(stream: P) -> StdSink<P>
        ensures { ⟦<StdSink<P> as Sink>⟧.faults result ≡ 0 }
    {
        StdSink { stream, faults: 0 }
    }
}

impl<P: Print> Sink for StdSink<P> {
    ghost tells = { λ _. ⊥ };

    ghost given = { λ _. [] };

    ghost faults = { λ s. s.faults };

    ghost called = { λ s put t. CountsPut s.faults t.faults put };

    fn put(&mut self, piece: &[u8]) -> Result<usize, SinkFailed> {
        if piece.is_empty() {
            return Ok(0);
        }
        match self.stream.write_some(piece) {
            Ok(count) if count > 0 => Ok(count),
            _ => {
                self.faults = one_more(self.faults);
                Err(SinkFailed)
            }
        }
    }
}
