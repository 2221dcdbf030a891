//! Logs that are kept as far as memory suffices.

ghost use Rattle.std.specs.Prelude.{◌≡◌, [], ◌∷◌, IfOk};
ghost use Rattle.hy_base.specs.Logs.{Extends};

use crate::list::{List, Text};
use crate::memory::M;
use std::alloc::Global;

/// Puts an entry behind a log, in constant time but for growth. There is no log any more where
/// memory ran out.
pub fn note<T: Drop>(log: &mut Option<List<T>>, entry: T)
    ensures { Extends log.old (entry ∷ []) log.new }
{
    let kept = match log {
        Some(entries) => entries.push(entry).is_ok(),
        None => false,
    };
    if !kept {
        *log = None;
    }
}

/// A copy of bytes, in time linear in them.
pub fn copy_of(alloc: Global, bytes: &[u8]) -> M<Text>
    ensures { IfOk result (λ text. text ≡ bytes.now) }
{
    let mut text = Text::new(alloc);
    text.extend(bytes)?;
    Ok(text)
}
