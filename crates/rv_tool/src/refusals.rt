//! How a tool that monitors answers what a monitor refuses.

ghost use Rattle.std.specs.Prelude.{◌≡◌};
ghost use Rattle.rv_tool.specs.Refused.{event_refused, new_refused};

use hy_run::Refusal;
use rv_core::{RvError, RvNewError};

/// Why an event is refused, where `session` says that its session is not open, or that nothing is put
/// aside.
pub fn event_refusal<F: Drop>(error: RvError, session: F) -> Refusal<F>
    ensures { result ≡ event_refused session error }
{
    match error {
        RvError::NoLetter | RvError::NoSave => Refusal::Own(session),
        RvError::Limit(kind) => Refusal::Limit {
            kind,
            limit: kind.most(),
        },
        RvError::Memory => Refusal::Memory,
    }
}

/// Why formulas are refused that are not monitored.
pub fn new_refusal<F: Drop>(error: RvNewError) -> Refusal<F>
    ensures { result ≡ new_refused error }
{
    match error {
        RvNewError::Prefix { class, .. } => Refusal::Prefix { file: 0, class },
        RvNewError::Limit(kind) => Refusal::Limit {
            kind,
            limit: kind.most(),
        },
        RvNewError::Memory => Refusal::Memory,
    }
}
