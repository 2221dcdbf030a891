//! Where a walk stands at one place of its tuples.

ghost use Rattle.std.specs.Prelude.{◌≡◌, ◌↔◌, IsTrue};
ghost use Rattle.trace_trie.specs.Numbered.{same_letter};
ghost use Rattle.tuple_walk.specs.Places.{letter_taken, has_taken};
ghost use Rattle.tuple_walk.specs.Serving.{Agrees};
ghost use Rattle.tuple_walk.specs.declared.place.Taken.TheVariants.{Nothing};

use crate::spot::Spot;
use hy_bits::LetterMask;

/// What a step takes at a place.
#[derive(Clone, Copy)]
pub(crate) enum Taken {
    /// It is not chosen yet.
    Nothing,
    /// The next letter.
    Letter(LetterMask),
    /// An empty letter, where the trace has ended.
    Gap,
}

/// A place of the tuples on a walk.
#[derive(Clone, Copy)]
pub(crate) struct Place<'a> {
    pub(crate) taken: Taken,
    pub(crate) spot: Spot<'a>,
}

impl<'a> Place<'a> {
    /// The place at a spot, with nothing taken yet.
    pub(crate) fn at(spot: &Spot<'a>) -> Place<'a>
        ensures taken { result.taken ≡ Nothing }
        ensures spot { result.spot ≡ spot.now }
    {
        Place {
            taken: Taken::Nothing,
            spot: *spot,
        }
    }

    /// The letter that is taken, empty where there is none.
    pub(crate) fn letter(&self) -> LetterMask
        ensures { result ≡ letter_taken self.now }
    {
        match self.taken {
            Taken::Letter(letter) => letter,
            Taken::Gap => LetterMask::empty(),
            Taken::Nothing => LetterMask::empty(),
        }
    }

    /// Whether a letter is taken.
    pub(crate) fn has_letter(&self) -> bool
        ensures { result ≡ has_taken self.now }
    {
        match self.taken {
            Taken::Letter(_) => true,
            Taken::Gap => false,
            Taken::Nothing => false,
        }
    }

    /// Whether what is taken may be what a trace has next of which this is left.
    pub(crate) fn agrees(&self, rest: &[LetterMask]) -> bool
        ensures { IsTrue result ↔ Agrees self.now.taken rest.now }
    {
        match self.taken {
            Taken::Nothing => true,
            Taken::Letter(letter) => !rest.is_empty() && same(letter, rest[0]),
            Taken::Gap => rest.is_empty(),
        }
    }

    /// An equal place.
    pub(crate) fn copied(&self) -> Place<'a>
        ensures { result ≡ self.now }
    {
        Place {
            taken: self.taken,
            spot: self.spot,
        }
    }
}

/// Whether both are the same letter.
fn same(a: LetterMask, b: LetterMask) -> bool
    ensures { result ≡ same_letter a b }
{
    a.is_subset(&b) && b.is_subset(&a)
}
