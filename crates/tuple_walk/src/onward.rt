//! The way past the end of a trace.

ghost use Rattle.std.specs.Prelude.{◌≡◌, IfSome, IfNone, None};
ghost use Rattle.std.specs.Bool.{OnTrue};
ghost use Rattle.hy_finite.specs.declared.lengths.Lengths.TheVariants.{Min};
ghost use Rattle.tuple_walk.specs.Places.{whole_of, rests_of, HasNoGap, IsMoved, IsWay};

use crate::place::Place;
use crate::spot::Spot;
use crate::walk::Walk;
use hy_finite::Lengths;
use std::sync::ledger::Ledger;

impl<'a, L: Ledger> Walk<'a, L> {
    /// The place past the end of a trace, where one ends at the spot and tuples are judged there.
    pub(crate) fn gap(&self, spot: &Spot<'a>) -> Option<Place<'a>>
        ensures moved { IfSome result (IsMoved self.now.lengths) }
        ensures way { IfSome result (λ p. IsWay (rests_of spot.now) None (whole_of p)) }
        ensures none { IfNone result (HasNoGap self.now.lengths (rests_of spot.now)) }
    {
        match self.lengths {
            Lengths::Min => None,
            Lengths::Pad => spot.gap(),
        }
    }

    /// Whether tuples are judged on the least of their lengths.
    pub(crate) fn is_least(&self) -> bool
        ensures { OnTrue result (self.now.lengths ≡ Min) }
    {
        match self.lengths {
            Lengths::Min => true,
            Lengths::Pad => false,
        }
    }
}
