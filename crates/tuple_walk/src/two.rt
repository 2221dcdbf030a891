//! The walk for two variables: the given trace at one place, and those of a version at the other.

ghost use Rattle.std.specs.Prelude.{◌≡◌, ◌-◌, ◌<◌, ◌≤◌, ℕ, cond, not, ◌&&◌, [], ◌∷◌, length, IfSome, IfNone};
ghost use Rattle.std.specs.List.{Contains};
ghost use Rattle.fin_monitor.specs.Machines.{states_of, is_accepting};
ghost use Rattle.trace_trie.specs.Cursors.{letters_of, rests_at};
ghost use Rattle.tuple_walk.specs.Alone.{left_of};
ghost use Rattle.tuple_walk.specs.Pairs.{pair_of, beside, sought_beside, found, stops_of, over_of, MayGoOn};
ghost use Rattle.tuple_walk.specs.Places.{HasNoGap};
ghost use Rattle.tuple_walk.specs.Searches.{IsSearch, IsSearchBy, IsOnly, AreReady, AreSteps, AreStepsBy};
ghost use Rattle.tuple_walk.specs.Serving.{sought_of};
ghost use Rattle.tuple_walk.specs.Walks.{machine_in, rests_in};

use crate::alone::letter_at;
use crate::given::{Given, behind_first};
use crate::places::Places;
use crate::spot::Spot;
use crate::tuple::Tuple;
use crate::walk::Walk;
use hy_base::Steps;
use hy_bits::LetterMask;
use hy_finite::Lengths;
use std::sync::ledger::Ledger;
use trace_trie::Cursor;

impl<'a, L: Ledger> Walk<'a, L> {
    /// The only place of two at which the new trace may come, if there is just one.
    pub(crate) fn only_of_two(&self, given: &Given<'a>) -> Option<usize>
        ensures two { IfSome result (λ _. (machine_in self.now).variables ≡ 2) }
        ensures only { IfSome result (IsOnly (sought_of given.now).marks) }
    {
        if self.monitor.vars() == 2 {
            given.only()
        } else {
            None
        }
    }

    /// As `search`, where the formula has two variables, and the new trace stands at one place alone.
    #[inline(never)]
    pub(crate) fn search_pair(
        &self,
        places: &Places<'a>,
        given: &Given<'a>,
        place: usize,
        q: u32,
        steps: &mut Steps<L>,
    ) -> Option<Tuple>
        requires two { (machine_in self.now).variables ≡ 2 }
        requires state { q < states_of (machine_in self.now) }
        requires only { IsOnly (sought_of given.now).marks place }
        requires ready { AreReady (sought_of given.now) (rests_in self.now places.now) }
        ensures searched { IsSearch (sought_of given.now) (machine_in self.now) self.now.lengths q 0
            (rests_in self.now places.now) result }
        ensures steps { steps.old ≤ steps.new }
        ensures counted { AreSteps (sought_of given.now) self.now.lengths
            (rests_in self.now places.now) (steps.new - steps.old) }
    {
        let first = place == 0;
        let (_, other) = places_of(first);
        let node = places.at(other as usize).spot.node();
        match self.search_beside(first, given.rest, &node, q, steps) {
            Some(number) => Some(self.pair(first, given.number, number)),
            None => None,
        }
    }

    /// As `search`, with what is left of the given trace at one place, the first or the second, and
    /// a node at the other: the number of a trace of the node. No place is made.
    #[cycle(beside)]
    #[inline(always)]
    pub(crate) fn search_beside(
        &self,
        first: bool,
        given: &[LetterMask],
        node: &Cursor<'a>,
        q: u32,
        steps: &mut Steps<L>,
    ) -> Option<u32>
        requires two { (machine_in self.now).variables ≡ 2 }
        requires state { q < states_of (machine_in self.now) }
        requires some { 0 < length (rests_at node.now) }
        ensures searched { (number : ℕ) → IsSearch (sought_beside first (number, given.now))
            (machine_in self.now) self.now.lengths q 0 (beside first (number, given.now) (rests_at node.now)) (found first number result) }
        ensures steps { steps.old ≤ steps.new }
        ensures counted { (number : ℕ) → AreSteps (sought_beside first (number, given.now))
            self.now.lengths (beside first (number, given.now) (rests_at node.now)) (steps.new - steps.old) }
    {
        if self.monitor.is_settled(q) {
            return None;
        }
        match node.alone() {
            Some(only) => self.follow_pair(first, given, only, q, steps),
            None => self.search_node(first, given, node, q, steps),
        }
    }

    /// As `search_beside`, at a node that more than one trace passes.
    #[cycle(beside)]
    fn search_node(
        &self,
        first: bool,
        given: &[LetterMask],
        node: &Cursor<'a>,
        q: u32,
        steps: &mut Steps<L>,
    ) -> Option<u32>
        requires two { (machine_in self.now).variables ≡ 2 }
        requires state { q < states_of (machine_in self.now) }
        requires some { 0 < length (rests_at node.now) }
        ensures searched { (number : ℕ) → IsSearch (sought_beside first (number, given.now))
            (machine_in self.now) self.now.lengths q 0 (beside first (number, given.now) (rests_at node.now)) (found first number result) }
        ensures steps { steps.old ≤ steps.new }
        ensures counted { (number : ℕ) → AreSteps (sought_beside first (number, given.now))
            self.now.lengths (beside first (number, given.now) (rests_at node.now)) (steps.new - steps.old) }
    {
        let ended = given.is_empty();
        if self.rejects_beside(ended, node.first().is_some(), q) {
            return Spot::Node(*node).any();
        }
        if self.is_over(ended) {
            return None;
        }
        match self.search_letters(first, given, node, q, steps) {
            Some(number) => return Some(number),
            None => {}
        }
        node.letters_differ();
        match self.past_end(node) {
            Some(number) => self.follow_pair(first, given, (number, &[]), q, steps),
            None => None,
        }
    }

    /// As `search_node`, for the traces that go on by a letter, where the given one can go on.
    #[cycle(beside)]
    #[inline(always)]
    fn search_letters(
        &self,
        first: bool,
        given: &[LetterMask],
        node: &Cursor<'a>,
        q: u32,
        steps: &mut Steps<L>,
    ) -> Option<u32>
        requires two { (machine_in self.now).variables ≡ 2 }
        requires state { q < states_of (machine_in self.now) }
        requires goes { MayGoOn self.now.lengths given.now }
        ensures searched { (number : ℕ) → IsSearchBy (sought_beside first (number, given.now))
            (machine_in self.now) self.now.lengths q (cond first 1 0) (letters_of node.now)
            (beside first (number, given.now) (rests_at node.now)) (found first number result) }
        ensures steps { steps.old ≤ steps.new }
        ensures counted { (number : ℕ) → AreStepsBy (sought_beside first (number, given.now))
            self.now.lengths (cond first 1 0) (letters_of node.now)
            (beside first (number, given.now) (rests_at node.now)) (steps.new - steps.old) }
    {
        let (own, other) = places_of(first);
        let part = self.monitor.part(own, letter_at(given, 0));
        let left = behind_first(given);
        node.letters_differ();
        for k in 0..node.len() {
            let (letter, child) = node.at(k);
            let next = self
                .monitor
                .step(q, part | self.monitor.part(other, letter), steps);
            match self.search_beside(first, left, &child, next, steps) {
                Some(number) => return Some(number),
                None => {}
            }
        }
        None
    }

    /// As `search_beside`, where one trace alone is left at the other place. The stack stays flat.
    #[inline(never)]
    fn follow_pair(
        &self,
        first: bool,
        given: &[LetterMask],
        only: (u32, &[LetterMask]),
        q: u32,
        steps: &mut Steps<L>,
    ) -> Option<u32>
        requires two { (machine_in self.now).variables ≡ 2 }
        requires state { q < states_of (machine_in self.now) }
        ensures searched { (number : ℕ) → IsSearch (sought_beside first (number, given.now))
            (machine_in self.now) self.now.lengths q 0 (beside first (number, given.now) ((only.entry.0, only.entry.1.now) ∷ []))
            (found first number result) }
        ensures steps { steps.old ≤ steps.new }
        ensures counted { (number : ℕ) → AreSteps (sought_beside first (number, given.now))
            self.now.lengths (beside first (number, given.now) ((only.entry.0, only.entry.1.now) ∷ [])) (steps.new - steps.old) }
    {
        let rests = in_order(first, given, only.1);
        if self.rejects_rests(&rests, q, steps) {
            Some(only.0)
        } else {
            None
        }
    }

    /// The tuple of the given trace's number and another.
    pub(crate) fn pair(&self, first: bool, given: u32, other: u32) -> Tuple
        ensures { result ≡ pair_of first given other }
    {
        let numbers = if first {
            [given, other, 0, 0]
        } else {
            [other, given, 0, 0]
        };
        Tuple::new(self.alloc, numbers, 2)
    }

    /// Whether a pair is rejected that has no position left, where it is known whether the given trace
    /// has ended, and whether another has.
    fn rejects_beside(&self, given: bool, other: bool, q: u32) -> bool
        requires { q < states_of (machine_in self.now) }
        ensures { result ≡ (not (is_accepting (machine_in self.now) q)
            && stops_of self.now.lengths given other) }
    {
        if self.monitor.accepts(q) {
            return false;
        }
        match self.lengths {
            Lengths::Min => given || other,
            Lengths::Pad => given && other,
        }
    }

    /// Whether no pair has a position left, where it is known whether the given trace has ended.
    fn is_over(&self, given: bool) -> bool
        ensures { result ≡ over_of self.now.lengths given }
    {
        match self.lengths {
            Lengths::Min => given,
            Lengths::Pad => false,
        }
    }

    /// The number of a trace that ends at the node, where tuples are judged past an end.
    fn past_end(&self, node: &Cursor<'a>) -> Option<u32>
        ensures some { IfSome result (λ n. Contains (rests_at node.now) (n, [])) }
        ensures none { IfNone result (HasNoGap self.now.lengths (rests_at node.now)) }
    {
        match self.lengths {
            Lengths::Min => None,
            Lengths::Pad => node.first(),
        }
    }
}

/// The place of the given trace and the other one.
#[inline(always)]
fn places_of(first: bool) -> (u8, u8)
    ensures given { result.0 ≡ cond first 0 1 }
    ensures other { result.1 ≡ cond first 1 0 }
{
    if first { (0, 1) } else { (1, 0) }
}

/// The given trace and another in the order of their places.
fn in_order<'t>(
    first: bool,
    given: &'t [LetterMask],
    other: &'t [LetterMask],
) -> [&'t [LetterMask]; 2]
    ensures pair { left_of result ≡ pair_of first given.now other.now }
    ensures long { length result ≡ 2 }
{
    if first {
        [given, other]
    } else {
        [other, given]
    }
}
