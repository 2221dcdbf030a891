//! The walk where one trace alone is left at each place: one tuple, letter by letter.

ghost use Rattle.std.specs.Prelude.{◌≡◌, ◌-◌, ◌<◌, ◌≤◌, length, slice_index_or, ◌∷◌, [], take};
ghost use Rattle.std.specs.Bool.{OnTrue, OnFalse};
ghost use Rattle.std.specs.FinSet.{empty};
ghost use Rattle.hy_formula.specs.Quantifiers.{Each};
ghost use Rattle.hy_finite.specs.Traces.{judged, trace_words};
ghost use Rattle.fin_monitor.specs.Machines.{codes, code_at, states_of};
ghost use Rattle.fin_monitor.specs.Parts.{AreParts};
ghost use Rattle.tuple_walk.specs.Alone.{IsAlone, left_of, sought_alone};
ghost use Rattle.tuple_walk.specs.Searches.{IsSearch, IsAccepted, IsRejected, AreReady, AreSteps};
ghost use Rattle.tuple_walk.specs.Serving.{sought_of};
ghost use Rattle.tuple_walk.specs.TraceParts.{traces_in, parts_in};
ghost use Rattle.tuple_walk.specs.Walks.{machine_in, places_in, rests_in};

use crate::given::Given;
use crate::places::Places;
use crate::trace_parts::TraceParts;
use crate::tuple::Tuple;
use crate::walk::{MOST_PLACES, Walk};
use hy_base::Steps;
use hy_bits::LetterMask;
use hy_finite::of_two;
use std::sync::ledger::Ledger;

impl<'a, L: Ledger> Walk<'a, L> {
    /// Whether one trace alone is left at each place.
    pub(crate) fn are_alone(&self, places: &Places<'a>) -> bool
        ensures { OnTrue result (Each IsAlone (places_in self.now places.now)) }
    {
        for i in 0..self.monitor.vars() as usize {
            if !places.at(i).spot.is_alone() {
                return false;
            }
        }
        true
    }

    /// As `search`, where one trace alone is left at each place. The stack stays flat.
    #[inline(never)]
    pub(crate) fn follow(
        &self,
        places: &Places<'a>,
        given: &Given<'a>,
        q: u32,
        steps: &mut Steps<L>,
    ) -> Option<Tuple>
        requires some { 1 ≤ (machine_in self.now).variables }
        requires state { q < states_of (machine_in self.now) }
        requires alone { Each IsAlone (places_in self.now places.now) }
        requires ready { AreReady (sought_of given.now) (rests_in self.now places.now) }
        ensures searched { IsSearch (sought_of given.now) (machine_in self.now) self.now.lengths q 0
            (rests_in self.now places.now) result }
        ensures steps { steps.old ≤ steps.new }
        ensures counted { AreSteps (sought_of given.now) self.now.lengths
            (rests_in self.now places.now) (steps.new - steps.old) }
    {
        let mut rests: [&[LetterMask]; MOST_PLACES] = [&[]; MOST_PLACES];
        let count = self.monitor.vars() as usize;
        for i in 0..count {
            rests[i] = places.at(i).spot.rest();
        }
        if self.rejects_rests(&rests[..count], q, steps) {
            self.tuple_of(places)
        } else {
            None
        }
    }

    /// As `search` before all letters, where the formula has one variable: the tuple is the given
    /// trace. No place is made, and the stack stays flat.
    pub(crate) fn follow_trace(
        &self,
        number: u32,
        trace: &[LetterMask],
        steps: &mut Steps<L>,
    ) -> Option<Tuple>
        requires one { (machine_in self.now).variables ≡ 1 }
        ensures searched { IsSearch (sought_alone (number, trace.now)) (machine_in self.now)
            self.now.lengths 0 0 (((number, trace.now) ∷ []) ∷ []) result }
        ensures steps { steps.old ≤ steps.new }
        ensures counted { AreSteps (sought_alone (number, trace.now)) self.now.lengths
            (((number, trace.now) ∷ []) ∷ []) (steps.new - steps.old) }
    {
        if self.rejects_rests(&[trace], self.monitor.start(), steps) {
            Some(Tuple::new(self.alloc, [number, 0, 0, 0], 1))
        } else {
            None
        }
    }

    /// Whether the tuple of these rests is rejected from state `q` on. It is stepped once for each
    /// position on which it is judged, until nothing is rejected any more.
    pub(crate) fn rejects_rests(
        &self,
        rests: &[&[LetterMask]],
        q: u32,
        steps: &mut Steps<L>,
    ) -> bool
        requires some { 1 ≤ (machine_in self.now).variables }
        requires state { q < states_of (machine_in self.now) }
        requires each { length rests.now ≡ (machine_in self.now).variables }
        ensures rejected { OnTrue result (IsRejected (machine_in self.now) self.now.lengths q
            (left_of rests.now)) }
        ensures accepted { OnFalse result (IsAccepted (machine_in self.now) self.now.lengths q
            (left_of rests.now)) }
        ensures steps { steps.old ≤ steps.new }
        ensures counted { steps.new - steps.old ≤ judged self.now.lengths (left_of rests.now) }
    {
        match self.monitor.vars() {
            1 => self.rejects_of::<1>(rests, q, steps),
            2 => self.rejects_of::<2>(rests, q, steps),
            3 => self.rejects_of::<3>(rests, q, steps),
            _ => self.rejects_of::<4>(rests, q, steps),
        }
    }

    /// As `rejects_rests`, for `N` rests. The parts of codes are lent once, before the loop, and each
    /// number of rests has a loop of its own.
    #[inline(never)]
    fn rejects_of<const N: usize>(
        &self,
        rests: &[&[LetterMask]],
        q: u32,
        steps: &mut Steps<L>,
    ) -> bool
        requires some { 1 ≤ N }
        requires vars { N ≡ (machine_in self.now).variables }
        requires state { q < states_of (machine_in self.now) }
        requires each { length rests.now ≡ N }
        ensures rejected { OnTrue result (IsRejected (machine_in self.now) self.now.lengths q
            (left_of rests.now)) }
        ensures accepted { OnFalse result (IsAccepted (machine_in self.now) self.now.lengths q
            (left_of rests.now)) }
        ensures steps { steps.old ≤ steps.new }
        ensures counted { steps.new - steps.old ≤ judged self.now.lengths (left_of rests.now) }
    {
        let lent = self.with_parts::<N>(rests);
        let all = &lent[..N];
        let mut state = q;
        for i in 0..self.judged(rests) {
            if self.monitor.is_settled(state) {
                return false;
            }
            state = self.monitor.step(state, self.joint_at(all, i), steps);
        }
        !self.monitor.accepts(state)
    }

    /// Each rest with the parts that letters of its variable give; what stands behind is not used.
    #[inline(always)]
    fn with_parts<'p, 't, const N: usize>(
        &'p self,
        rests: &[&'t [LetterMask]],
    ) -> [TraceParts<'p, 't>; MOST_PLACES]
        requires some { 1 ≤ N }
        requires vars { N ≡ (machine_in self.now).variables }
        requires each { length rests.now ≡ N }
        ensures traces { traces_in (take N result) ≡ left_of rests.now }
        ensures parts { AreParts (parts_in (take N result)) (machine_in self.now).atoms N }
    {
        let mut all = [TraceParts {
            parts: self.monitor.parts_of(0),
            trace: &[],
        }; MOST_PLACES];
        for var in 0..N {
            all[var] = TraceParts {
                parts: self.monitor.parts_of(var as u8),
                trace: rests[var],
            };
        }
        all
    }

    /// On how many positions the tuple of these rests is judged.
    fn judged(&self, rests: &[&[LetterMask]]) -> usize
        requires { 1 ≤ length rests.now }
        ensures { result ≡ judged self.now.lengths (left_of rests.now) }
    {
        let mut length = rests[0].len();
        for i in 1..rests.len() {
            length = of_two(self.lengths, length, rests[i].len());
        }
        length
    }

    /// The code of the letters at position `i` of these traces, empty ones past an end.
    #[inline(always)]
    fn joint_at(&self, all: &[TraceParts<'_, '_>], i: usize) -> u32
        requires { AreParts (parts_in all.now) (machine_in self.now).atoms (length all.now) }
        ensures code { result ≡ code_at (machine_in self.now) (trace_words (traces_in all.now)) i }
        ensures within { result < codes (machine_in self.now) }
    {
        let mut code = 0;
        for t in all {
            code |= t.at(i);
        }
        code
    }
}

/// Letter `i` of a rest, empty past its end.
#[inline(always)]
pub(crate) fn letter_at(rest: &[LetterMask], i: usize) -> LetterMask
    ensures { result ≡ slice_index_or rest.now i empty }
{
    if i < rest.len() {
        rest[i]
    } else {
        LetterMask::empty()
    }
}
