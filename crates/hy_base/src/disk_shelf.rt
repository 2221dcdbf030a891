//! A shelf over real files. It is not proved what a file holds, so this shelf tells nothing.

ghost use Rattle.std.specs.Prelude.{◌≡◌, None, []};
ghost use Rattle.hy_base.specs.Fakes.{CountsCall};

use crate::calls::one_more;
use crate::shelf::{Shelf, ShelfFailed};
use std::fs;
use std::io::{Input, Read};
use std::rt::Files;

/// What is open.
#[derive(Drop)]
enum Source<F, I> {
    Nothing,
    File(F),
    Input(I),
}

/// The files of the machine, and standard input under the name `-`.
///
/// A folder opens, and its first read fails.
///
/// Its calls are joined by its counts alone: proved is that a failure was counted, and that a success
/// was not. What code that is generic over shelves says of its calls it says of these, too, as a
/// `RecordedShelf` shows by its log. Left to trust are the lines below: that an open opens the file of
/// that name and no other, that a read gives the next bytes of it, and none only at its end, and that
/// a call fails only where one of the machine's failed.
#[derive(Drop)]
pub struct DiskShelf<R: Files + Input> {
    runtime: R,
    source: Source<R::File, R::Reader>,
    open_faults: u64,
    read_faults: u64,
}

impl<R: Files + Input> DiskShelf<R> {
    /// A shelf with no file open and no fault counted.
    pub fn new(runtime: R) -> DiskShelf<R>
        ensures open_faults { ⟦<DiskShelf<R> as Shelf>⟧.open_faults result ≡ 0 }
        ensures read_faults { ⟦<DiskShelf<R> as Shelf>⟧.read_faults result ≡ 0 }
    {
        DiskShelf {
            runtime,
            source: Source::Nothing,
            open_faults: 0,
            read_faults: 0,
        }
    }
}

impl<R: Files + Input> Shelf for DiskShelf<R> {
    ghost tells = { λ _. ⊥ };

    ghost file = { λ _ _. None };

    ghost open_name = { λ _. None };

    ghost rest = { λ _. [] };

    ghost is_sound = { λ _. ⊥ };

    ghost open_faults = { λ s. s.open_faults };

    ghost read_faults = { λ s. s.read_faults };

    ghost called = { λ s call t. CountsCall s.open_faults s.read_faults t.open_faults t.read_faults call };

    fn open_file(&mut self, name: &str) -> Result<(), ShelfFailed> {
        self.source = Source::Nothing;
        if name == "-" {
            self.source = Source::Input(self.runtime.reader());
            return Ok(());
        }
        match fs::open(&self.runtime, name) {
            Ok(file) => {
                self.source = Source::File(file);
                Ok(())
            }
            Err(_) => {
                self.open_faults = one_more(self.open_faults);
                Err(ShelfFailed)
            }
        }
    }

    fn read(&mut self, buf: &mut [u8]) -> Result<usize, ShelfFailed> {
        let got = match &mut self.source {
            Source::Nothing => Ok(0),
            Source::File(file) => file.read(buf),
            Source::Input(input) => input.read(buf),
        };
        match got {
            Ok(count) => Ok(count),
            Err(_) => {
                self.read_faults = one_more(self.read_faults);
                Err(ShelfFailed)
            }
        }
    }
}
