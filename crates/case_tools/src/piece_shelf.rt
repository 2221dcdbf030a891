//! A shelf in memory whose reads give few bytes each.

ghost use Rattle.std.specs.Prelude.{◌≡◌};

use hy_base::{MemShelf, Shelf, ShelfFailed};
use std::num::NonZeroU32;

/// A shelf of which one read gives at most so many bytes. All else is as the shelf has it.
#[derive(Drop)]
pub struct PieceShelf {
    shelf: MemShelf,
    most: NonZeroU32,
}

impl PieceShelf {
    /// The shelf, of which one read gives at most `most` bytes.
    pub fn new(shelf: MemShelf, most: NonZeroU32) -> PieceShelf {
        PieceShelf { shelf, most }
    }
}

impl Shelf for PieceShelf {
    ghost tells = { λ s. ⟦<MemShelf as Shelf>⟧.tells s.shelf };

    ghost file = { λ s. ⟦<MemShelf as Shelf>⟧.file s.shelf };

    ghost open_name = { λ s. ⟦<MemShelf as Shelf>⟧.open_name s.shelf };

    ghost rest = { λ s. ⟦<MemShelf as Shelf>⟧.rest s.shelf };

    ghost is_sound = { λ s. ⟦<MemShelf as Shelf>⟧.is_sound s.shelf };

    ghost open_faults = { λ s. ⟦<MemShelf as Shelf>⟧.open_faults s.shelf };

    ghost read_faults = { λ s. ⟦<MemShelf as Shelf>⟧.read_faults s.shelf };

    ghost called = { λ s call t. ⟦<MemShelf as Shelf>⟧.called s.shelf call t.shelf };

    fn open_file(&mut self, name: &str) -> Result<(), ShelfFailed> {
        self.shelf.open_file(name)
    }

    fn read(&mut self, buf: &mut [u8]) -> Result<usize, ShelfFailed> {
        let most = buf.len().min(self.most.get() as usize);
        self.shelf.read(&mut buf[..most])
    }
}
