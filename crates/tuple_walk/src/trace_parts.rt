//! A trace beside the parts of codes that its letters give.

ghost use Rattle.std.specs.Prelude.{◌≡◌, ◌<◌};
ghost use Rattle.tuple_walk.specs.TraceParts.{part_at};

use crate::alone::letter_at;
use fin_monitor::VariableParts;
use hy_bits::LetterMask;

/// A trace, or what is left of it, and the parts that letters of its variable give.
#[derive(Clone, Copy)]
pub(crate) struct TraceParts<'p, 't> {
    pub(crate) parts: &'p VariableParts,
    pub(crate) trace: &'t [LetterMask],
}

impl<'p, 't> TraceParts<'p, 't> {
    /// The part of the letter at position `i`, an empty one past the end.
    #[inline(always)]
    pub(crate) fn at(&self, i: usize) -> u32
        requires { part_at self.now i < 65536 }
        ensures { result ≡ part_at self.now i }
    {
        self.parts.of(letter_at(self.trace, i))
    }
}
