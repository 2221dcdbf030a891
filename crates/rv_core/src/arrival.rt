//! What comes of a trace that arrives.

ghost use Rattle.std.specs.Prelude.{◌≡◌, ◌↔◌, ◌+◌, ◌<◌, ◌≤◌, ◌^◌, ℕ, List, length, sum, IfOk, IsTrue};
ghost use Rattle.rv_core.specs.Arrivals.{AreHeld, IsArrival, FitsIn, after_arrival, kept_or};
ghost use Rattle.rv_core.specs.declared.arrival.Arrival.TheVariants.{Same};
ghost use Rattle.rv_core.specs.Replies.{IsReplyTo};
ghost use Rattle.rv_core.specs.Seen.{watched_by};
ghost use Rattle.rv_core.specs.SpecAlone.{KeepsNone, TellsHeld, HasOneVariable, ComesOf, GrowWithin, by_names, whole};
ghost use Rattle.rv_core.specs.StepBounds.{AreBounds};

use crate::kept::Kept;
use crate::reply::Reply;
use crate::rv::Rv;
use hy_base::{M, Steps};
use hy_bits::LetterMask;
use hy_finite::Trace;
use std::alloc::Global;
use std::sync::ledger::Ledger;
use trace_trie::Version;
use tuple_walk::Tuple;

/// What comes of a trace for one spec.
#[derive(Drop)]
pub(crate) enum Outcome {
    /// The spec is not violated, and what is kept for it stays.
    Stays,
    /// The spec is not violated, and this is kept for it.
    Passes(Version),
    /// The spec is violated by these traces.
    Violates(Tuple),
}

/// What comes of a trace for all specs.
#[derive(Drop)]
pub(crate) enum Arrival {
    /// No spec is violated, and what is kept stays.
    Same,
    /// No spec is violated, and this is kept.
    Clean(Kept),
    /// The first spec that is violated, and by which traces.
    Violation { spec: u32, tuple: Tuple },
}

impl Rv {
    ghost use Rattle.rv_core.specs.Seen.{held};

    /// Whether each spec keeps a trace that is this one as far as its names go. Takes no memory, and
    /// time as `Watch::holds` for each spec.
    pub(crate) fn all_hold(&self, trace: &[LetterMask]) -> bool
        ensures { IsTrue result ↔ AreHeld (watched_by self.now.watches) trace.now self.now.kept }
    {
        for spec in 0..self.watches.len() {
            if !self.watches.at(spec).holds(self.kept.at(spec), trace) {
                return false;
            }
        }
        true
    }

    /// As `all_hold`, for one spec. Not each spec keeps such a trace: so where there is one alone
    /// nothing is looked for.
    fn is_held(&self, spec: usize, trace: &[LetterMask]) -> bool
        requires there { spec < length self.now.watches }
        requires not_all { ¬ AreHeld (watched_by self.now.watches) trace.now self.now.kept }
        ensures { TellsHeld self.now spec (by_names trace.now) result }
    {
        if self.watches.len() == 1 {
            return false;
        }
        self.watches.at(spec).holds(self.kept.at(spec), trace)
    }

    /// What would come of the trace, where not each spec keeps an equal one. It takes all memory that
    /// its arrival takes.
    pub(crate) fn arrival<L: Ledger>(
        &self,
        alloc: Global,
        trace: &Trace,
        steps: &mut Steps<L>,
    ) -> M<Arrival>
        requires few { (held self.now).arrived < 2 ^ 31 }
        requires not_all { ¬ AreHeld (watched_by self.now.watches) trace.now self.now.kept }
        ensures arrival { IfOk result (IsArrival (held self.now) trace.now) }
        ensures below { IfOk result
            (FitsIn (length self.now.watches) ((held self.now).arrived + 1)) }
        ensures counted { steps.old ≤ steps.new }
        ensures bounded { (bounds : List ℕ) → AreBounds (held self.now) trace.now bounds
            → steps.new ≤ steps.old + sum bounds }
    {
        let mut next = None;
        for i in 0..self.watches.len() {
            match self.outcome(alloc, i, trace, steps)? {
                Outcome::Stays => {}
                Outcome::Passes(version) => {
                    let mut kept = self.kept_or_shared(alloc, next)?;
                    kept.set(i, version);
                    next = Some(kept);
                }
                Outcome::Violates(tuple) => {
                    let spec = i as u32;
                    return Ok(Arrival::Violation { spec, tuple });
                }
            }
        }
        match next {
            Some(kept) => Ok(Arrival::Clean(kept)),
            None => Ok(Arrival::Same),
        }
    }

    /// This, or else what is kept now.
    fn kept_or_shared(&self, alloc: Global, next: Option<Kept>) -> M<Kept>
        ensures { IfOk result (λ kept. kept ≡ kept_or self.now.kept next) }
    {
        match next {
            Some(kept) => Ok(kept),
            None => self.kept.share(alloc),
        }
    }

    /// What would come of the trace for the spec with this number, where not each spec keeps an equal
    /// one. The spec sees its own names of it alone. Where it keeps an equal one, there are no new
    /// tuples, and none is walked.
    fn outcome<L: Ledger>(
        &self,
        alloc: Global,
        spec: usize,
        trace: &Trace,
        steps: &mut Steps<L>,
    ) -> M<Outcome>
        requires few { (held self.now).arrived < 2 ^ 31 }
        requires there { spec < length self.now.watches }
        requires not_all { ¬ AreHeld (watched_by self.now.watches) trace.now self.now.kept }
        ensures outcome { ComesOf self.now spec (by_names trace.now) result }
        ensures counted { steps.old ≤ steps.new }
        ensures bounded { GrowWithin self.now spec (by_names trace.now) steps.old steps.new }
    {
        let letters = trace.as_slice();
        if self.is_held(spec, letters) {
            return Ok(Outcome::Stays);
        }
        let watch = self.watches.at(spec);
        if watch.sees_all(letters) {
            return self.new_outcome(alloc, spec, trace, steps);
        }
        let masked = watch.masked(alloc, trace)?;
        self.new_outcome(alloc, spec, &masked, steps)
    }

    /// What would come of the trace for the spec with this number, which keeps no equal one.
    ///
    /// With one variable the trace is judged by itself. With more it is put with those that are kept
    /// and its tuples are walked; and where dominated ones are dropped, it is compared with those.
    fn new_outcome<L: Ledger>(
        &self,
        alloc: Global,
        spec: usize,
        trace: &Trace,
        steps: &mut Steps<L>,
    ) -> M<Outcome>
        requires few { (held self.now).arrived < 2 ^ 31 }
        requires there { spec < length self.now.watches }
        requires absent { KeepsNone self.now spec trace.now }
        ensures outcome { ComesOf self.now spec (whole trace.now) result }
        ensures counted { steps.old ≤ steps.new }
        ensures bounded { GrowWithin self.now spec (whole trace.now) steps.old steps.new }
    {
        let watch = self.watches.at(spec);
        let kept = self.kept.at(spec);
        let number = self.traces;
        let letters = trace.as_slice();
        if watch.has_one_variable() {
            return self.lone_outcome(alloc, spec, trace, steps);
        }
        let all = kept.insert(number, trace)?;
        match watch.find(alloc, self.rule, &all, number, letters, steps) {
            Some(tuple) => Ok(Outcome::Violates(tuple)),
            None if self.drop_dominated => {
                let left = watch.leaders(alloc, self.rule, kept, number, trace)?;
                Ok(Outcome::Passes(left))
            }
            None => Ok(Outcome::Passes(all)),
        }
    }

    /// As `new_outcome`, where the body has one variable: the trace is judged by itself, and one of those
    /// that satisfy the body is kept, which does as well as any other.
    fn lone_outcome<L: Ledger>(
        &self,
        alloc: Global,
        spec: usize,
        trace: &Trace,
        steps: &mut Steps<L>,
    ) -> M<Outcome>
        requires few { (held self.now).arrived < 2 ^ 31 }
        requires there { spec < length self.now.watches }
        requires absent { KeepsNone self.now spec trace.now }
        requires one { HasOneVariable self.now spec }
        ensures outcome { ComesOf self.now spec (whole trace.now) result }
        ensures counted { steps.old ≤ steps.new }
        ensures bounded { GrowWithin self.now spec (whole trace.now) steps.old steps.new }
    {
        let watch = self.watches.at(spec);
        let kept = self.kept.at(spec);
        let number = self.traces;
        prove!(trace.len() > 0);
        match watch.find_alone(alloc, self.rule, number, trace.as_slice(), steps) {
            Some(tuple) => Ok(Outcome::Violates(tuple)),
            None => match kept.next(0) {
                Some(_) => Ok(Outcome::Stays),
                None => Ok(Outcome::Passes(kept.insert(number, trace)?)),
            },
        }
    }

    /// The trace arrives, and what is kept stays. So do most traces of a long run, and they cost no
    /// match over what may come of one.
    pub(crate) fn take_same(&mut self) -> Reply
        requires few { (held self.old).arrived < 2 ^ 31 }
        ensures held { held self.new ≡ after_arrival (held self.old) Same }
        ensures reply { IsReplyTo (held self.old).arrived Same result }
    {
        let trace = self.traces;
        self.traces = trace + 1;
        Reply::Arrived { trace }
    }

    /// The trace arrives.
    pub(crate) fn take_arrival(&mut self, arrival: Arrival) -> Reply
        requires few { (held self.old).arrived < 2 ^ 31 }
        requires below { FitsIn (length self.old.watches) ((held self.old).arrived + 1) arrival }
        ensures held { held self.new ≡ after_arrival (held self.old) arrival }
        ensures reply { IsReplyTo (held self.old).arrived arrival result }
    {
        let trace = self.traces;
        let reply = self.take_same();
        match arrival {
            Arrival::Same => reply,
            Arrival::Clean(kept) => {
                self.kept = kept;
                reply
            }
            Arrival::Violation { spec, tuple } => {
                self.clean = false;
                Reply::Violation { spec, trace, tuple }
            }
        }
    }
}
