//! Where the new trace has to come, and what is taken there.

ghost use Rattle.std.specs.Prelude.{◌≡◌, ◌<◌, ℕ, [], true, slice_get, Some, None, IfSome, IfNone};
ghost use Rattle.std.specs.Bool.{OnTrue, OnFalse};
ghost use Rattle.std.specs.List.{Contains};
ghost use Rattle.hy_finite.specs.declared.lengths.Lengths.TheVariants.{Min};
ghost use Rattle.tuple_walk.specs.JointPrefixes.{entry};
ghost use Rattle.tuple_walk.specs.Places.{rests_of, whole_of, IsMoved, IsWay, HasNoGap};
ghost use Rattle.tuple_walk.specs.Serving.{sought_of, Agrees, MayServe, MayElsewhere};
ghost use Rattle.tuple_walk.specs.Walks.{machine_in, places_in};

use crate::given::Given;
use crate::place::{Place, Taken};
use crate::places::Places;
use crate::spot::Spot;
use crate::walk::Walk;
use hy_finite::Lengths;
use std::sync::ledger::Ledger;

impl<'a, L: Ledger> Walk<'a, L> {
    /// Whether the new trace has to come at place `i`, since it may come there and at no other.
    pub(crate) fn has_to_come(&self, places: &Places<'a>, given: &Given<'a>, i: usize) -> bool
        requires within { i < (machine_in self.now).variables }
        ensures marked { OnTrue result (slice_get (sought_of given.now).marks i ≡ Some true) }
        ensures last { OnTrue result (¬ MayElsewhere (sought_of given.now) (places_in self.now places.now) i) }
        ensures other { OnFalse result (slice_get (sought_of given.now).marks i ≡ Some true
            → MayElsewhere (sought_of given.now) (places_in self.now places.now) i) }
    {
        if !given.stands[i] {
            return false;
        }
        for j in 0..self.monitor.vars() as usize {
            if j != i && given.stays(places, j) {
                return false;
            }
        }
        true
    }

    /// The place behind what the new trace has next, where it is among what is left at the spot;
    /// `None` where it has ended and no tuple is judged past an end.
    pub(crate) fn given_place(&self, given: &Given<'a>, spot: &Spot<'a>) -> Option<Place<'a>>
        requires { Contains (rests_of spot.now) (sought_of given.now).given }
        ensures moved { IfSome result (IsMoved self.now.lengths) }
        ensures way { IfSome result (λ p. IsWay (rests_of spot.now)
            (entry (sought_of given.now).given.1) (whole_of p)) }
        ensures agrees { IfSome result (λ p. Agrees p.taken (sought_of given.now).given.1) }
        ensures serves { IfSome result (λ p. Contains (whole_of p) (sought_of given.now).given) }
        ensures none { IfNone result ((self.now.lengths ≡ Min)
            × ((sought_of given.now).given.1 ≡ [])) }
    {
        if !given.rest.is_empty() {
            return spot.behind(given.rest[0]);
        }
        match self.lengths {
            Lengths::Min => None,
            Lengths::Pad => Some(Place {
                taken: Taken::Gap,
                spot: Spot::Alone(given.number, given.rest),
            }),
        }
    }

    /// The place past the end of a trace, where one ends at the spot of place `i` and tuples are
    /// judged there: past that of the new trace, if it may come there.
    pub(crate) fn gap_at(&self, given: &Given<'a>, i: usize, spot: &Spot<'a>) -> Option<Place<'a>>
        requires within { i < 4 }
        requires there { slice_get (sought_of given.now).marks i ≡ Some true
            → Contains (rests_of spot.now) (sought_of given.now).given }
        ensures moved { IfSome result (IsMoved self.now.lengths) }
        ensures way { IfSome result (λ p. IsWay (rests_of spot.now) None (whole_of p)) }
        ensures serves { IfSome result (λ p. slice_get (sought_of given.now).marks i ≡ Some true
            → Agrees p.taken (sought_of given.now).given.1
            → Contains (whole_of p) (sought_of given.now).given) }
        ensures none { IfNone result (HasNoGap self.now.lengths (rests_of spot.now)) }
    {
        if given.stands[i] && given.rest.is_empty() {
            self.given_place(given, spot)
        } else {
            self.gap(spot)
        }
    }
}
