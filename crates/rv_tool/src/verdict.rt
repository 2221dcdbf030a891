//! What `rvhyper` is asked, what it says, and what it alone refuses.

use hy_base::NumList;
use hy_finite::Lengths;
use hy_run::Refusal;
use tuple_walk::Tuple;

/// What is asked of the files of a command, under a rule of lengths. Dominated traces are dropped where
/// `drop`.
#[derive(Clone, Copy)]
pub enum Question {
    /// Whether the traces of the second file violate the formulas of the first.
    Monitor {
        lengths: Lengths,
        drop: bool,
    },
    /// Whether `count` made traces, from 1 to 1,000,000, violate the formulas of the only file.
    MonitorMade {
        count: u32,
        lengths: Lengths,
        drop: bool,
    },
}

/// What is said where nothing is refused.
#[derive(Drop)]
pub enum RvVerdict {
    /// No tuple of the traces violates a formula. `kept` has the number of kept traces for each formula,
    /// and `live` is the number of sessions that are open.
    NoViolation {
        traces: u32,
        kept: NumList,
        live: u32,
    },
    /// Trace `trace` is the first after which some tuple of traces violates formula `spec`: this one.
    Violation {
        spec: u32,
        trace: u32,
        tuple: Tuple,
    },
}

/// What no other tool refuses.
#[derive(Drop)]
pub enum RvFault {
    /// The event of a line is refused: it ends a session that is not open, or goes back without a save.
    Session { line: u32 },
}

/// What a question comes to.
pub type RvAnswer = Result<RvVerdict, Refusal<RvFault>>;
