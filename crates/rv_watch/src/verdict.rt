//! What `rvwatch` is asked, and what it alone refuses.

use hy_finite::Lengths;
use hy_run::Refusal;
use rv_tool::RvVerdict;

/// Whether the traces that standard input brings violate formulas, under a rule of lengths. Dominated
/// traces are dropped where `drop`; how many traces there are is told behind each `every`-th arrival.
#[derive(Clone, Copy)]
pub struct Question {
    pub lengths: Lengths,
    pub drop: bool,
    pub every: Option<u32>,
}

/// What no other tool refuses. Lines are counted from 1.
#[derive(Drop)]
pub enum WatchFault {
    /// A line is no text.
    Line { line: u64 },
    /// The event of a line is refused: it ends a session that is not open, or goes back without a save.
    Session { line: u64 },
    /// A trace comes where 2^31 are present.
    Traces,
    /// A line comes behind 2^64 - 1 lines.
    Lines,
}

/// What a question comes to.
pub type WatchAnswer = Result<RvVerdict, Refusal<WatchFault>>;
