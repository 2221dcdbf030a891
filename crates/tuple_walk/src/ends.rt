//! Where tuples of a walk have no position left.

ghost use Rattle.std.specs.Prelude.{◌≡◌, ◌<◌, ◌≤◌, true, false, List, slice_get, IfSome, IfNone, Some};
ghost use Rattle.std.specs.Bool.{OnTrue, OnFalse};
ghost use Rattle.hy_finite.specs.declared.lengths.Lengths.TheVariants.{Min, Pad};
ghost use Rattle.hy_finite.specs.Traces.{Trace, judged};
ghost use Rattle.fin_monitor.specs.Machines.{is_accepting, states_of};
ghost use Rattle.trace_trie.specs.Numbered.{Numbered};
ghost use Rattle.tuple_walk.specs.Finds.{numbers_of};
ghost use Rattle.tuple_walk.specs.Places.{AreSome};
ghost use Rattle.tuple_walk.specs.Searches.{IsTupleOf, IsTupleIn, CanStop, AreEnded, AreReady, AreStopped};
ghost use Rattle.tuple_walk.specs.Serving.{sought_of};
ghost use Rattle.tuple_walk.specs.Walks.{machine_in, rests_in};

use crate::given::Given;
use crate::places::Places;
use crate::tuple::Tuple;
use crate::walk::{MOST_PLACES, Walk};
use hy_finite::Lengths;
use std::sync::ledger::Ledger;

impl<'a, L: Ledger> Walk<'a, L> {
    /// A tuple with the new trace at a place where it stands, that is rejected where it has no position
    /// left.
    #[inline(never)]
    pub(crate) fn stopped(&self, places: &Places<'a>, given: &Given<'a>, q: u32) -> Option<Tuple>
        requires some { 1 ≤ (machine_in self.now).variables }
        requires state { q < states_of (machine_in self.now) }
        requires ready { AreReady (sought_of given.now) (rests_in self.now places.now) }
        ensures stopped { IfSome result (AreStopped (sought_of given.now) self.now.lengths
            (rests_in self.now places.now)) }
        ensures rejects { IfSome result (λ _. is_accepting (machine_in self.now) q ≡ false) }
        ensures none { IfNone result ((tuple : List Trace)
            → IsTupleIn (sought_of given.now) (rests_in self.now places.now) tuple
            → judged self.now.lengths tuple ≡ 0 → is_accepting (machine_in self.now) q ≡ true) }
    {
        if !self.rejects(places, q) {
            return None;
        }
        for i in 0..self.monitor.vars() as usize {
            match self.stopped_with(places, given, i) {
                Some(tuple) => return Some(tuple),
                None => {}
            }
        }
        None
    }

    /// A tuple that has no position left, with the new trace at place `i`, if it stands there.
    fn stopped_with(&self, places: &Places<'a>, given: &Given<'a>, i: usize) -> Option<Tuple>
        requires within { i < (machine_in self.now).variables }
        requires ready { AreReady (sought_of given.now) (rests_in self.now places.now) }
        ensures stopped { IfSome result (AreStopped (sought_of given.now) self.now.lengths
            (rests_in self.now places.now)) }
        ensures none { IfNone result ((tuple : List Trace)
            → IsTupleOf (rests_in self.now places.now) tuple
            → slice_get (sought_of given.now).marks i ≡ Some true
            → slice_get tuple i ≡ Some (sought_of given.now).given.1
            → ¬ (judged self.now.lengths tuple ≡ 0)) }
    {
        if !given.stands[i] {
            return None;
        }
        let with = places.with(i, &given.place());
        if self.stops(&with) {
            self.tuple_of(&with)
        } else {
            None
        }
    }

    /// Whether some tuple from the places is rejected where it has no position left.
    fn rejects(&self, places: &Places<'a>, q: u32) -> bool
        requires some { 1 ≤ (machine_in self.now).variables }
        requires state { q < states_of (machine_in self.now) }
        ensures stop { OnTrue result (CanStop self.now.lengths (rests_in self.now places.now)) }
        ensures rejects { OnTrue result (is_accepting (machine_in self.now) q ≡ false) }
        ensures accepts { OnFalse result ((tuple : List Trace)
            → IsTupleOf (rests_in self.now places.now) tuple
            → judged self.now.lengths tuple ≡ 0 → is_accepting (machine_in self.now) q ≡ true) }
    {
        if self.monitor.accepts(q) {
            false
        } else {
            self.stops(places)
        }
    }

    /// Whether some tuple from the places has no position left.
    fn stops(&self, places: &Places<'a>) -> bool
        ensures yes { OnTrue result (CanStop self.now.lengths (rests_in self.now places.now)) }
        ensures no { OnFalse result (¬ CanStop self.now.lengths (rests_in self.now places.now)) }
    {
        match self.lengths {
            Lengths::Min => self.some_ended(places),
            Lengths::Pad => self.all_ended(places),
        }
    }

    /// Whether a trace ends at some place.
    fn some_ended(&self, places: &Places<'a>) -> bool
        ensures yes { OnTrue result (CanStop Min (rests_in self.now places.now)) }
        ensures no { OnFalse result (¬ CanStop Min (rests_in self.now places.now)) }
    {
        for i in 0..self.monitor.vars() as usize {
            if places.at(i).spot.ended().is_some() {
                return true;
            }
        }
        false
    }

    /// Whether a trace ends at each place.
    fn all_ended(&self, places: &Places<'a>) -> bool
        ensures yes { OnTrue result (CanStop Pad (rests_in self.now places.now)) }
        ensures no { OnFalse result (¬ CanStop Pad (rests_in self.now places.now)) }
    {
        for i in 0..self.monitor.vars() as usize {
            if places.at(i).spot.ended().is_none() {
                return false;
            }
        }
        true
    }

    /// The numbers of a tuple from the places, with traces that have ended where there are some.
    pub(crate) fn tuple_of(&self, places: &Places<'a>) -> Option<Tuple>
        ensures some { IfSome result (λ numbers. (pairs : List Numbered)
            × AreEnded (rests_in self.now places.now) pairs
            × (numbers_of pairs ≡ numbers)) }
        ensures none { IfNone result (¬ AreSome (rests_in self.now places.now)) }
    {
        let mut numbers = [0; MOST_PLACES];
        let count = self.monitor.vars() as usize;
        for i in 0..count {
            numbers[i] = places.at(i).spot.any()?;
        }
        Some(Tuple::new(self.alloc, numbers, count))
    }
}
