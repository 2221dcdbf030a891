//! The walk down from one place for each variable.

ghost use Rattle.std.specs.Prelude.{◌≡◌, ◌+◌, ◌-◌, ◌<◌, ◌≤◌, IfNone};
ghost use Rattle.hy_formula.specs.Quantifiers.{Each};
ghost use Rattle.fin_monitor.specs.Machines.{states_of};
ghost use Rattle.tuple_walk.specs.Four.{four, letters_in, placed, AreKept};
ghost use Rattle.tuple_walk.specs.Places.{IsOpen};
ghost use Rattle.tuple_walk.specs.Searches.{IsSearch, IsSearchBy, IsNarrowed, AreReady, AreSteps, AreStepsBy};
ghost use Rattle.tuple_walk.specs.Serving.{sought_of};
ghost use Rattle.tuple_walk.specs.Walks.{AreChosen, IsChoice, IsLast, IsFree, machine_in, places_in, rests_in, wholes_at, wholes_in};

use crate::choice::Choice;
use crate::counted_monitor::CountedMonitor;
use crate::given::Given;
use crate::place::Place;
use crate::places::Places;
use crate::tuple::Tuple;
use hy_base::Steps;
use hy_finite::Lengths;
use std::alloc::Global;
use std::sync::ledger::Ledger;

/// Most variables of a formula.
pub(crate) const MOST_PLACES: usize = 4;

/// What a walk goes by.
#[derive(Drop)]
pub(crate) struct Walk<'a, L: Ledger> {
    pub(crate) alloc: Global,
    pub(crate) monitor: CountedMonitor<'a, L>,
    pub(crate) lengths: Lengths,
}

impl<'a, L: Ledger> Walk<'a, L> {
    /// A tuple from the spots of the places, with the new trace at one of those where it stands, that
    /// is rejected from state `q` on.
    ///
    /// It is never inlined, so that what it opens stands on the stack only as long as it runs.
    #[cycle(walk)]
    #[inline(never)]
    pub(crate) fn search_left(
        &self,
        places: &Places<'a>,
        given: &Given<'a>,
        q: u32,
        steps: &mut Steps<L>,
    ) -> Option<Tuple>
        requires some { 1 ≤ (machine_in self.now).variables }
        requires state { q < states_of (machine_in self.now) }
        requires ready { AreReady (sought_of given.now) (rests_in self.now places.now) }
        ensures searched { IsSearch (sought_of given.now) (machine_in self.now) self.now.lengths q 0
            (rests_in self.now places.now) result }
        ensures steps { steps.old ≤ steps.new }
        ensures counted { AreSteps (sought_of given.now) self.now.lengths
            (rests_in self.now places.now) (steps.new - steps.old) }
    {
        // Where one trace alone is left at each place none need be opened.
        if self.are_alone(places) {
            return self.follow(places, given, q, steps);
        }
        let mut open = places.opened();
        self.narrow(&mut open, given);
        self.search(&mut open, given, q, steps)
    }

    /// As `search_left`, from places at which nothing is taken.
    #[cycle(walk)]
    fn search(
        &self,
        places: &mut Places<'a>,
        given: &Given<'a>,
        q: u32,
        steps: &mut Steps<L>,
    ) -> Option<Tuple>
        requires some { 1 ≤ (machine_in self.now).variables }
        requires state { q < states_of (machine_in self.now) }
        requires open { Each IsOpen (places_in self.now places.old) }
        requires ready { AreReady (sought_of given.now) (rests_in self.now places.old) }
        ensures searched { IsSearch (sought_of given.now) (machine_in self.now) self.now.lengths q 0
            (rests_in self.now places.old) result }
        ensures steps { steps.old ≤ steps.new }
        ensures counted { AreSteps (sought_of given.now) self.now.lengths
            (rests_in self.now places.old) (steps.new - steps.old) }
    {
        if self.are_alone(places) {
            return self.follow(places, given, q, steps);
        }
        match self.only_of_two(given) {
            Some(place) => return self.search_pair(places, given, place, q, steps),
            None => {}
        }
        match self.stopped(places, given, q) {
            Some(tuple) => return Some(tuple),
            None => {}
        }
        let choice = Choice {
            q,
            count: 0,
            code: 0,
            some_letter: false,
        };
        self.choose(places, given, &choice, steps)
    }

    /// As `search`, where a step is chosen at the first places; at least one step. Where nothing is
    /// found the places are as before but for the one that was to be chosen.
    #[cycle(walk)]
    fn choose(
        &self,
        places: &mut Places<'a>,
        given: &Given<'a>,
        choice: &Choice,
        steps: &mut Steps<L>,
    ) -> Option<Tuple>
        requires within { choice.now.count < (machine_in self.now).variables }
        requires chosen { AreChosen self.now (four places.old) given.now choice.now.count }
        requires choice { IsChoice self.now (four places.old) choice.now }
        ensures searched { IsSearch (sought_of given.now) (machine_in self.now) self.now.lengths
            choice.now.q 1 (wholes_in self.now places.old) result }
        ensures same { IfNone result (four places.new ≡ four places.old) }
        ensures steps { steps.old ≤ steps.new }
        ensures counted { AreSteps (sought_of given.now) self.now.lengths
            (wholes_in self.now places.old) (steps.new - steps.old) }
    {
        let i = choice.count;
        if self.has_to_come(places, given, i) {
            return self.choose_given(places, given, choice, steps);
        }
        match self.choose_letter(places, given, choice, steps) {
            Some(tuple) => return Some(tuple),
            None => {}
        }
        places.letters_differ(i);
        // Under the least length no place is copied to look for an end.
        if self.is_least() {
            return None;
        }
        let here = places.at(i);
        match self.gap_at(given, i, &here.spot) {
            Some(place) => {
                let found = self.choose_with(places, given, choice, &place, steps);
                places.put(i, &here);
                found
            }
            None => None,
        }
    }

    /// As `choose`, at a place where the new trace has to come.
    #[cycle(walk)]
    #[inline(never)]
    fn choose_given(
        &self,
        places: &mut Places<'a>,
        given: &Given<'a>,
        choice: &Choice,
        steps: &mut Steps<L>,
    ) -> Option<Tuple>
        requires last { IsLast self.now places.old given.now choice.now.count }
        requires chosen { AreChosen self.now (four places.old) given.now choice.now.count }
        requires choice { IsChoice self.now (four places.old) choice.now }
        ensures searched { IsSearch (sought_of given.now) (machine_in self.now) self.now.lengths
            choice.now.q 1 (wholes_in self.now places.old) result }
        ensures same { IfNone result (four places.new ≡ four places.old) }
        ensures steps { steps.old ≤ steps.new }
        ensures counted { AreSteps (sought_of given.now) self.now.lengths
            (wholes_in self.now places.old) (steps.new - steps.old) }
    {
        let here = places.at(choice.count);
        match self.given_place(given, &here.spot) {
            Some(place) => {
                let found = self.choose_with(places, given, choice, &place, steps);
                places.put(choice.count, &here);
                found
            }
            None => None,
        }
    }

    /// As `choose`, with a letter, where the new trace need not come at the place.
    #[cycle(walk)]
    fn choose_letter(
        &self,
        places: &mut Places<'a>,
        given: &Given<'a>,
        choice: &Choice,
        steps: &mut Steps<L>,
    ) -> Option<Tuple>
        requires free { IsFree self.now places.old given.now choice.now.count }
        requires chosen { AreChosen self.now (four places.old) given.now choice.now.count }
        requires choice { IsChoice self.now (four places.old) choice.now }
        ensures searched { IsSearchBy (sought_of given.now) (machine_in self.now) self.now.lengths
            choice.now.q choice.now.count (letters_in choice.now.count (four places.old))
            (wholes_in self.now places.old) result }
        ensures same { IfNone result (four places.new ≡ four places.old) }
        ensures steps { steps.old ≤ steps.new }
        ensures counted { AreStepsBy (sought_of given.now) self.now.lengths choice.now.count
            (letters_in choice.now.count (four places.old)) (wholes_in self.now places.old)
            (steps.new - steps.old) }
    {
        let here = places.at(choice.count);
        here.spot.letters_differ();
        for k in 0..here.spot.len() {
            match self.choose_with(places, given, choice, &here.spot.letter(k), steps) {
                Some(tuple) => return Some(tuple),
                None => {}
            }
        }
        places.put(choice.count, &here);
        None
    }

    /// As `choose`, with a place that is chosen next. The last one is stepped before anything is put
    /// there, so that a step to the settled state copies no place.
    #[cycle(walk)]
    #[inline(always)]
    fn choose_with(
        &self,
        places: &mut Places<'a>,
        given: &Given<'a>,
        choice: &Choice,
        place: &Place<'a>,
        steps: &mut Steps<L>,
    ) -> Option<Tuple>
        requires chosen { AreChosen self.now (placed places.old choice.now.count place.now) given.now
            (choice.now.count + 1) }
        requires choice { IsChoice self.now (placed places.old choice.now.count place.now) choice.now }
        ensures searched { IsSearch (sought_of given.now) (machine_in self.now) self.now.lengths
            choice.now.q 1 (wholes_at self.now (placed places.old choice.now.count place.now)) result }
        ensures kept { IfNone result (AreKept choice.now.count places.old places.new) }
        ensures steps { steps.old ≤ steps.new }
        ensures counted { AreSteps (sought_of given.now) self.now.lengths
            (wholes_at self.now (placed places.old choice.now.count place.now)) (steps.new - steps.old) }
    {
        let code = choice.code | self.monitor.part(choice.count as u8, place.letter());
        let some_letter = choice.some_letter | place.has_letter();
        if choice.count + 1 < self.monitor.vars() as usize {
            places.put(choice.count, place);
            let next = Choice {
                q: choice.q,
                count: choice.count + 1,
                code,
                some_letter,
            };
            return self.choose(places, given, &next, steps);
        }
        if !some_letter {
            return None;
        }
        let q = self.monitor.step(choice.q, code, steps);
        // From a settled state on nothing is rejected.
        if self.monitor.is_settled(q) {
            return None;
        }
        places.put(choice.count, place);
        self.search_left(places, &given.behind(places), q, steps)
    }

    /// Leaves the new trace alone where it stands, if that is one place only.
    fn narrow(&self, places: &mut Places<'a>, given: &Given<'a>)
        requires { Each IsOpen (places_in self.now places.old) }
        ensures open { Each IsOpen (places_in self.now places.new) }
        ensures narrowed { IsNarrowed (sought_of given.now) (rests_in self.now places.old)
            (rests_in self.now places.new) }
    {
        match given.only() {
            Some(i) => places.put(i, &given.place()),
            None => {}
        }
    }
}
