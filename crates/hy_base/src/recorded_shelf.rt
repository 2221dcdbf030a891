//! A shelf that tells nothing, and a log of what was called of it.

ghost use Rattle.std.specs.Prelude.{◌≡◌, Some, None, [], ◌∷◌, IfSome};
ghost use Rattle.hy_base.specs.Logs.{Extends};
ghost use Rattle.hy_base.specs.Recorded.{shelf_entry};

use crate::list::List;
use crate::log::{copy_of, note};
use crate::shelf::{Shelf, ShelfFailed};
use crate::shelf_call::ShelfCall;
use std::alloc::Global;

/// The calls of a shelf, one after another.
pub type ShelfLog = List<ShelfCall>;

/// A shelf of which each call, with what came of it, is put into a log. It tells nothing of its
/// files, and its calls are joined by that log alone: so what a program says of its reads is seen to
/// hold where nothing is told.
///
/// Where memory runs out for the log there is none any more, and the shelf goes on without it.
#[derive(Drop)]
pub struct RecordedShelf<S> {
    shelf: S,
    alloc: Global,
    log: Option<ShelfLog>,
}

impl<S> RecordedShelf<S> {
    /// The shelf with an empty log. Takes no memory.
    pub fn new(alloc: Global, shelf: S) -> RecordedShelf<S>
        ensures { result.log ≡ Some [] }
    {
        RecordedShelf {
            shelf,
            alloc,
            log: Some(ShelfLog::new(alloc)),
        }
    }

    /// What was called so far; none where memory ran out.
    pub fn log(&self) -> Option<&ShelfLog>
        ensures some { IfSome result (λ log. self.now.log ≡ Some log.now) }
        ensures none { result ≡ None → self.now.log ≡ None }
    {
        match &self.log {
            Some(log) => Some(log),
            None => None,
        }
    }
}

impl<S: Shelf> Shelf for RecordedShelf<S> {
    ghost tells = { λ _. ⊥ };

    ghost file = { λ _ _. None };

    ghost open_name = { λ _. None };

    ghost rest = { λ _. [] };

    ghost is_sound = { λ _. ⊥ };

    ghost open_faults = { λ s. S.open_faults s.shelf };

    ghost read_faults = { λ s. S.read_faults s.shelf };

    ghost called = { λ s call t. Extends s.log (shelf_entry call ∷ []) t.log };

    fn open_file(&mut self, name: &str) -> Result<(), ShelfFailed> {
        let copied = copy_of(self.alloc, name.as_bytes());
        let opened = self.shelf.open_file(name);
        match copied {
            Ok(name) => {
                let entry = match opened {
                    Ok(()) => ShelfCall::Opened(name),
                    Err(ShelfFailed) => ShelfCall::NotOpened(name),
                };
                note(&mut self.log, entry);
            }
            Err(_) => self.log = None,
        }
        opened
    }

    fn read(&mut self, buf: &mut [u8]) -> Result<usize, ShelfFailed> {
        match self.shelf.read(buf) {
            Ok(0) => {
                note(&mut self.log, ShelfCall::AtEnd);
                Ok(0)
            }
            Ok(count) => {
                match copy_of(self.alloc, &buf[..count]) {
                    Ok(bytes) => note(&mut self.log, ShelfCall::Gave(bytes)),
                    Err(_) => self.log = None,
                }
                Ok(count)
            }
            Err(ShelfFailed) => {
                note(&mut self.log, ShelfCall::NotRead);
                Err(ShelfFailed)
            }
        }
    }
}
