//! Tuples of a version with a new trace.

ghost use Rattle.std.specs.Prelude.{◌≡◌, ◌+◌, ◌-◌, ◌≤◌, ◌∷◌, [], List, length, replicate, IfSome, IfNone};
ghost use Rattle.std.specs.List.{Contains};
ghost use Rattle.tuple_walk.specs.Counted.{machine_on};
ghost use Rattle.tuple_walk.specs.Finds.{AreViolating, AllMeet, FirstMeet, IsFirst, traces_of};
ghost use Rattle.tuple_walk.specs.JointPrefixes.{Row, IsJointPrefix, IsFirstPrefix};
ghost use Rattle.tuple_walk.specs.Searches.{IsSearch, AreReady, AreSteps};
ghost use Rattle.tuple_walk.specs.Serving.{sought_of};
ghost use Rattle.tuple_walk.specs.Walks.{machine_in};

use crate::counted_monitor::CountedMonitor;
use crate::given::Given;
use crate::place::Place;
use crate::places::Places;
use crate::spot::Spot;
use crate::tuple::Tuple;
use crate::walk::Walk;
use hy_base::Steps;
use hy_bits::LetterMask;
use hy_finite::Lengths;
use std::alloc::Global;
use std::sync::ledger::Ledger;
use trace_trie::Version;

/// The numbers of a tuple of traces of the version, with the given one at some place, that violates
/// the formula; `None` exactly where each such tuple satisfies it. Takes no memory.
///
/// Traces that begin alike are walked together, and all places of the given trace at once: each joint
/// prefix of such tuples is stepped at most once, and none from a state on from which nothing is
/// rejected. For `n` variables a letter takes at most 2n + 2 frames of the stack, as long as more
/// than one trace may still come at some place; from there on a tuple is walked in a loop, with a
/// flat stack. For one variable `find_alone` does without a version.
pub fn find<'a, L: Ledger>(
    alloc: Global,
    version: &'a Version,
    monitor: CountedMonitor<'a, L>,
    number: u32,
    trace: &'a [LetterMask],
    lengths: Lengths,
    steps: &mut Steps<L>,
) -> Option<Tuple>
    requires member { Contains version.now (number, trace.now) }
    requires some { 1 ≤ (machine_on monitor).variables }
    ensures found { IfSome result (AreViolating (machine_on monitor.entry) lengths version.now) }
    ensures given { IfSome result (λ numbers. Contains numbers number) }
    ensures none { IfNone result
        (AllMeet (machine_on monitor.entry) lengths (traces_of version.now) trace.now) }
    ensures counted { steps.old ≤ steps.new }
    ensures bounded { (prefixes : List (List Row)) → ((rows : List Row)
        → IsJointPrefix lengths (traces_of version.now) trace.now
        (machine_on monitor.entry).variables rows → Contains prefixes rows)
        → steps.new ≤ steps.old + length prefixes }
{
    version.numbers_ascend();
    let walk = Walk {
        alloc,
        monitor,
        lengths,
    };
    let given = Given::first(number, trace, walk.monitor.vars() as usize);
    walk.search_version(version, &given, steps)
}

/// As `find`, with the given trace at the first place. Each joint prefix of such tuples is stepped
/// at most once.
pub fn find_first<'a, L: Ledger>(
    alloc: Global,
    version: &'a Version,
    monitor: CountedMonitor<'a, L>,
    number: u32,
    trace: &'a [LetterMask],
    lengths: Lengths,
    steps: &mut Steps<L>,
) -> Option<Tuple>
    requires member { Contains version.now (number, trace.now) }
    requires some { 1 ≤ (machine_on monitor).variables }
    ensures found { IfSome result (AreViolating (machine_on monitor.entry) lengths version.now) }
    ensures given { IfSome result (IsFirst number) }
    ensures none { IfNone result
        (FirstMeet (machine_on monitor.entry) lengths (traces_of version.now) trace.now) }
    ensures counted { steps.old ≤ steps.new }
    ensures bounded { (prefixes : List (List Row)) → ((rows : List Row)
        → IsFirstPrefix lengths (traces_of version.now) trace.now
        (machine_on monitor.entry).variables rows → Contains prefixes rows)
        → steps.new ≤ steps.old + length prefixes }
{
    version.numbers_ascend();
    let walk = Walk {
        alloc,
        monitor,
        lengths,
    };
    walk.search_version(version, &Given::first(number, trace, 1), steps)
}

/// As `find` for a formula with one variable: the one tuple with the given trace is that trace alone,
/// so no version is asked. In time linear in the trace, until nothing is rejected any more, with a
/// flat stack. Takes no memory.
pub fn find_alone<L: Ledger>(
    alloc: Global,
    monitor: CountedMonitor<'_, L>,
    number: u32,
    trace: &[LetterMask],
    lengths: Lengths,
    steps: &mut Steps<L>,
) -> Option<Tuple>
    requires some { 1 ≤ length trace.now }
    requires short { length trace.now ≤ 1024 }
    requires one { (machine_on monitor).variables ≡ 1 }
    ensures found { IfSome result
        (AreViolating (machine_on monitor.entry) lengths ((number, trace.now) ∷ [])) }
    ensures given { IfSome result (λ numbers. Contains numbers number) }
    ensures none { IfNone result
        (AllMeet (machine_on monitor.entry) lengths (trace.now ∷ []) trace.now) }
    ensures counted { steps.old ≤ steps.new }
    ensures bounded { (prefixes : List (List Row)) → ((rows : List Row)
        → IsJointPrefix lengths (trace.now ∷ []) trace.now
        (machine_on monitor.entry).variables rows → Contains prefixes rows)
        → steps.new ≤ steps.old + length prefixes }
{
    let walk = Walk {
        alloc,
        monitor,
        lengths,
    };
    walk.follow_trace(number, trace, steps)
}

impl<'a, L: Ledger> Walk<'a, L> {
    /// A rejected tuple of traces of the version, with the new one at one of the places where it may
    /// come.
    fn search_version(
        &self,
        version: &'a Version,
        given: &Given<'a>,
        steps: &mut Steps<L>,
    ) -> Option<Tuple>
        requires some { 1 ≤ (machine_in self.now).variables }
        requires ready { AreReady (sought_of given.now)
            (replicate (machine_in self.now).variables version.now) }
        ensures searched { IsSearch (sought_of given.now) (machine_in self.now) self.now.lengths 0 0
            (replicate (machine_in self.now).variables version.now) result }
        ensures steps { steps.old ≤ steps.new }
        ensures counted { AreSteps (sought_of given.now) self.now.lengths
            (replicate (machine_in self.now).variables version.now) (steps.new - steps.old) }
    {
        // From a settled state on nothing is rejected, so no place need be made.
        if self.monitor.is_settled(self.monitor.start()) {
            return None;
        }
        self.search_root(version, given, steps)
    }

    /// As `search_version`, from places. These are large, so they stand in a function of their own,
    /// which is not called where none is needed.
    fn search_root(
        &self,
        version: &'a Version,
        given: &Given<'a>,
        steps: &mut Steps<L>,
    ) -> Option<Tuple>
        requires some { 1 ≤ (machine_in self.now).variables }
        requires ready { AreReady (sought_of given.now)
            (replicate (machine_in self.now).variables version.now) }
        ensures searched { IsSearch (sought_of given.now) (machine_in self.now) self.now.lengths 0 0
            (replicate (machine_in self.now).variables version.now) result }
        ensures steps { steps.old ≤ steps.new }
        ensures counted { AreSteps (sought_of given.now) self.now.lengths
            (replicate (machine_in self.now).variables version.now) (steps.new - steps.old) }
    {
        let places = Places::all(&Place::at(&Spot::of(version.root())));
        self.search_left(&places, given, self.monitor.start(), steps)
    }
}
