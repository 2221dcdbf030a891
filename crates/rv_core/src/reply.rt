//! What is answered to an event.

use tuple_walk::Tuple;

/// What came of an event that was not refused.
#[derive(Drop)]
pub enum Reply {
    /// No trace arrived.
    Quiet,
    /// A trace arrived, and the traces so far violate no spec. Traces are numbered from 0, by
    /// arrival.
    Arrived { trace: u32 },
    /// A trace arrived, and the traces so far violate a spec: the first such one, by these of them,
    /// one for each variable.
    Violation { spec: u32, trace: u32, tuple: Tuple },
}
