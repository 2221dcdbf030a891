//! Entries of the log of a sink.

use crate::list::Text;

/// A put into a sink, with what came of it.
#[derive(Drop)]
pub enum SinkCall {
    /// The sink took these bytes.
    Took(Text),
    /// It took none and failed.
    NotTaken,
}
