//! Where bytes are written: what a writer may count on, wherever the bytes go.

use std::error::Error;
use std::fmt;

/// A sink took nothing.
#[derive(Clone, Copy, Debug, PartialEq, Eq)]
pub struct SinkFailed;

impl fmt::Display for SinkFailed {
    fn fmt<W: fmt::Write>(&self, f: &mut fmt::Formatter<W>) -> fmt::Result {
        write!(f, "the sink failed")
    }
}

impl Error for SinkFailed {}

/// What takes bytes, a piece at a time.
///
/// A sink over a real stream tells nothing of what it was given: only its count is known.
pub trait Sink {
    ghost use Rattle.std.specs.Prelude.{◌≡◌, ℕ, ◌≤◌, ◌<◌, ◌++◌, List, OnOk, OnErr, IfOk, length, take};
    ghost use Rattle.hy_base.specs.Counts.{Rose};
    ghost use Rattle.hy_base.specs.Talks.{Put, took, not_taken};

    /// Whether the sink tells what it was given.
    ghost tells: { Self → Type 0 };

    /// The bytes that it was given so far.
    ghost given: { Self → List ℕ };

    /// How many puts have failed, as far as a `u64` counts.
    ghost faults: { Self → ℕ };

    /// Whether this put, with what came of it, leads from one sink to another. So what a program says
    /// of its writes holds on sinks that tell nothing too: no two sinks are joined by a put that was
    /// not made.
    ghost called: { Self → Put → Self → Type 0 };

    /// Gives bytes from the front of `piece`, and answers how many: at least one of a piece that is
    /// not empty. A failure gives nothing, and it alone is counted.
    fn put(&mut self, piece: &[u8]) -> Result<usize, SinkFailed>
        ensures tells { tells self.old → tells self.new }
        ensures faults { faults self.old ≤ faults self.new }
        ensures counted { OnErr result (Rose (faults self.old) (faults self.new)) }
        ensures kept { OnOk result (faults self.new ≡ faults self.old) }
        ensures within { IfOk result (λ k. k ≤ length piece.now) }
        ensures some { IfOk result (λ k. 0 < length piece.now → 0 < k) }
        ensures empty { length piece.now ≡ 0 → result ≡ Ok 0 }
        ensures given { tells self.old → IfOk result (λ k. given self.new ≡ given self.old ++ take k piece.now) }
        ensures refused { tells self.old → OnErr result (given self.new ≡ given self.old) }
        ensures called { IfOk result (λ k. called self.old (took (take k piece.now)) self.new) }
        ensures not_taken { OnErr result (called self.old not_taken self.new) };
}
