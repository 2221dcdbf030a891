//! A table of bytes by row and column.

ghost use Rattle.std.specs.Prelude.{◌≡◌, ◌<◌, [], slice_index, slice_index_or};

use std::marker::Model;

/// R rows of C bytes each, which contracts see as a list of lists.
#[derive(Clone, Copy)]
pub struct CaseTable<const R: usize, const C: usize> {
    cells: [[u8; C]; R],
}

impl<const R: usize, const C: usize> Model for CaseTable<R, C> {
    ghost use Rattle.std.specs.Prelude.{List, ℕ};

    ghost Value = { List (List ℕ) };

    ghost view = { λ t. t.cells };

    ghost inverse = { λ cells. record { cells = cells } };
}

impl<const R: usize, const C: usize> CaseTable<R, C> {
    /// The table with these rows.
    pub fn new(cells: [[u8; C]; R]) -> Self
        ensures { result ≡ cells.entry }
    {
        CaseTable { cells }
    }

    /// The byte in row `r` and column `c`, both counted from 0.
    pub fn at(&self, r: usize, c: usize) -> u8
        requires row { r < R }
        requires column { c < C }
        ensures { result ≡ slice_index (slice_index_or self.now r []) c }
    {
        self.cells[r][c]
    }
}
