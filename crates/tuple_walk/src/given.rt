//! The new trace on a walk.

ghost use Rattle.std.specs.Prelude.{◌≡◌, ◌<◌, ℕ, [], ◌∷◌, true, slice_get, Some, IfSome};
ghost use Rattle.trace_trie.specs.Numbered.{tail};
ghost use Rattle.tuple_walk.specs.declared.place.Taken.TheVariants.{Nothing};
ghost use Rattle.tuple_walk.specs.Four.{four, first_places};
ghost use Rattle.tuple_walk.specs.Places.{rests_of};
ghost use Rattle.tuple_walk.specs.Searches.{IsOnly};
ghost use Rattle.tuple_walk.specs.Serving.{sought_of, IsBehind, Stays};

use crate::place::Place;
use crate::places::Places;
use crate::spot::Spot;
use crate::walk::MOST_PLACES;
use hy_bits::LetterMask;

/// What is left of the new trace, and the places at which it may come. A walk goes on only as long
/// as there is one; each tuple that it finds has the new trace at one of them.
#[derive(Clone, Copy)]
pub(crate) struct Given<'a> {
    pub(crate) number: u32,
    pub(crate) rest: &'a [LetterMask],
    /// For each place whether it may come there.
    pub(crate) stands: [bool; MOST_PLACES],
}

impl<'a> Given<'a> {
    /// The trace with this number before all letters, at any of the first `count` places: at most
    /// four.
    pub(crate) fn first(number: u32, trace: &'a [LetterMask], count: usize) -> Given<'a>
        ensures given { (sought_of result).given ≡ (number, trace.now) }
        ensures within { (i : ℕ) → slice_get (sought_of result).marks i ≡ Some true → i < count }
        ensures all { (i : ℕ) → i < count → i < 4
            → slice_get (sought_of result).marks i ≡ Some true }
    {
        Given {
            number,
            rest: trace,
            stands: [0 < count, 1 < count, 2 < count, 3 < count],
        }
    }

    /// The only place at which it may come, if there is just one.
    pub(crate) fn only(&self) -> Option<usize>
        ensures only { IfSome result (IsOnly (sought_of self.now).marks) }
        ensures within { IfSome result (λ i. i < 4) }
    {
        match (
            self.stands[0],
            self.stands[1],
            self.stands[2],
            self.stands[3],
        ) {
            (true, false, false, false) => Some(0),
            (false, true, false, false) => Some(1),
            (false, false, true, false) => Some(2),
            (false, false, false, true) => Some(3),
            _ => None,
        }
    }

    /// The place where it alone is left.
    pub(crate) fn place(&self) -> Place<'a>
        ensures taken { result.taken ≡ Nothing }
        ensures alone { rests_of result.spot ≡ (self.now.number, self.now.rest.now) ∷ [] }
    {
        Place::at(&Spot::Alone(self.number, self.rest))
    }

    /// It behind the step that is chosen at the places.
    pub(crate) fn behind(&self, places: &Places<'a>) -> Given<'a>
        ensures { (n : ℕ) → IsBehind (sought_of self.now) (sought_of result) (first_places n places.now) }
    {
        Given {
            number: self.number,
            rest: behind_first(self.rest),
            stands: [
                self.stays(places, 0),
                self.stays(places, 1),
                self.stays(places, 2),
                self.stays(places, 3),
            ],
        }
    }

    /// Whether it may come at place `i` and what is taken there is what it has next, or may be.
    pub(crate) fn stays(&self, places: &Places<'a>, i: usize) -> bool
        requires { i < 4 }
        ensures { Stays (sought_of self.now) (four places.now) i result }
    {
        self.stands[i] && places.agrees(i, self.rest)
    }
}

/// What is left of a trace behind its first letter, if it has one.
pub(crate) fn behind_first<'t>(trace: &'t [LetterMask]) -> &'t [LetterMask]
    ensures { result.now ≡ tail trace.now }
{
    if trace.is_empty() { &[] } else { &trace[1..] }
}
