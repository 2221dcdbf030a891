//! Where a walk stands at all places of its tuples.

ghost use Rattle.std.specs.Prelude.{◌≡◌, ◌↔◌, ◌<◌, IsTrue, map, replicate, set, slice_get, Some};
ghost use Rattle.trace_trie.specs.Cursors.{AreLetters};
ghost use Rattle.tuple_walk.specs.declared.place.Place.{Place as Seen};
ghost use Rattle.tuple_walk.specs.Places.{open_at, letters_at, rests_of};
ghost use Rattle.tuple_walk.specs.Four.{four};
ghost use Rattle.tuple_walk.specs.Serving.{Agrees};

use crate::place::Place;
use hy_bits::LetterMask;

/// A place for each variable: of four, as many as there are variables.
#[derive(Clone, Copy)]
pub(crate) struct Places<'a> {
    first: Place<'a>,
    second: Place<'a>,
    third: Place<'a>,
    fourth: Place<'a>,
}

impl<'a> Places<'a> {
    /// The same at each place.
    pub(crate) fn all(place: &Place<'a>) -> Places<'a>
        ensures { four result ≡ replicate 4 place.now }
    {
        Places {
            first: place.copied(),
            second: place.copied(),
            third: place.copied(),
            fourth: place.copied(),
        }
    }

    /// Place `i`, counted from 0.
    pub(crate) fn at(&self, i: usize) -> Place<'a>
        requires { i < 4 }
        ensures { slice_get (four self.now) i ≡ Some result }
    {
        match i {
            0 => self.first.copied(),
            1 => self.second.copied(),
            2 => self.third.copied(),
            _ => self.fourth.copied(),
        }
    }

    /// The letters that may come next at place `i` differ, and are the first letters of what goes on.
    pub(crate) fn letters_differ(&self, i: usize)
        requires { i < 4 }
        ensures { (p : Seen) → slice_get (four self.now) i ≡ Some p
            → AreLetters (letters_at p.spot) (rests_of p.spot) }
    {
        match i {
            0 => self.first.spot.letters_differ(),
            1 => self.second.spot.letters_differ(),
            2 => self.third.spot.letters_differ(),
            _ => self.fourth.spot.letters_differ(),
        }
    }

    /// Whether what is taken at place `i` may be what a trace has next of which this is left.
    pub(crate) fn agrees(&self, i: usize, rest: &[LetterMask]) -> bool
        requires { i < 4 }
        ensures { (p : Seen) → slice_get (four self.now) i ≡ Some p
            → (IsTrue result ↔ Agrees p.taken rest.now) }
    {
        match i {
            0 => self.first.agrees(rest),
            1 => self.second.agrees(rest),
            2 => self.third.agrees(rest),
            _ => self.fourth.agrees(rest),
        }
    }

    /// Puts another at place `i`, and copies no other.
    pub(crate) fn put(&mut self, i: usize, place: &Place<'a>)
        requires { i < 4 }
        ensures { four self.new ≡ set (four self.old) i place.now }
    {
        match i {
            0 => self.first = place.copied(),
            1 => self.second = place.copied(),
            2 => self.third = place.copied(),
            _ => self.fourth = place.copied(),
        }
    }

    /// The same with another at place `i`.
    pub(crate) fn with(&self, i: usize, place: &Place<'a>) -> Places<'a>
        requires { i < 4 }
        ensures { four result ≡ set (four self.now) i place.now }
    {
        let mut with = Places {
            first: self.first.copied(),
            second: self.second.copied(),
            third: self.third.copied(),
            fourth: self.fourth.copied(),
        };
        with.put(i, place);
        with
    }

    /// The same spots with nothing taken.
    pub(crate) fn opened(&self) -> Places<'a>
        ensures { four result ≡ map open_at (four self.now) }
    {
        Places {
            first: Place::at(&self.first.spot),
            second: Place::at(&self.second.spot),
            third: Place::at(&self.third.spot),
            fourth: Place::at(&self.fourth.spot),
        }
    }
}
