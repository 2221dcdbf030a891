//! A monitor and the counter of its steps as one thing.

ghost use Rattle.std.specs.Prelude.{◌≡◌, ◌+◌, ◌<◌, ◌≤◌, nat_eq};
ghost use Rattle.fin_monitor.specs.Codes.{part_of};
ghost use Rattle.fin_monitor.specs.Machines.{codes, states_of, next_state, is_accepting, settled_state};
ghost use Rattle.fin_monitor.specs.Parts.{ArePartsOf};
ghost use Rattle.fin_monitor.specs.Seen.{machine_of};

use fin_monitor::{Monitor, VariableParts};
use hy_base::Steps;
use hy_bits::LetterMask;
use std::marker::PhantomData;
use std::sync::ledger::Ledger;

/// A monitor for the one counter that its steps are counted on.
///
/// A walk is lent this and no monitor. It is stepped on a counter over the ledger of its type alone,
/// and a ledger has one counter: so whatever a walk learns of the table is counted there.
#[derive(Drop)]
pub struct CountedMonitor<'a, L: Ledger> {
    monitor: &'a Monitor,
    counter: PhantomData<L>,
}

impl<'a, L: Ledger> CountedMonitor<'a, L> {
    ghost use Rattle.tuple_walk.specs.Counted.{machine_on};

    /// The monitor, to be stepped on the counter over this ledger.
    pub fn new(monitor: &'a Monitor) -> CountedMonitor<'a, L>
        ensures { machine_on result ≡ machine_of monitor.now }
    {
        CountedMonitor {
            monitor,
            counter: PhantomData,
        }
    }

    /// The state that follows state `q` after the joint letter of a code, counted. In constant time.
    #[inline(always)]
    pub(crate) fn step(&self, q: u32, joint: u32, steps: &mut Steps<L>) -> u32
        requires state { q < states_of (machine_on self.now) }
        requires code { joint < codes (machine_on self.now) }
        ensures next { result ≡ next_state (machine_on self.now) q joint }
        ensures within { result < states_of (machine_on self.now) }
        ensures counted { steps.new ≡ steps.old + 1 }
    {
        self.monitor.step(q, joint, steps)
    }

    /// The state before all letters.
    pub(crate) fn start(&self) -> u32
        ensures start { result ≡ 0 }
        ensures within { result < states_of (machine_on self.now) }
    {
        self.monitor.start()
    }

    /// Whether state `q` accepts.
    pub(crate) fn accepts(&self, q: u32) -> bool
        requires { q < states_of (machine_on self.now) }
        ensures accepting { result ≡ is_accepting (machine_on self.now) q }
    {
        self.monitor.accepts(q)
    }

    /// Whether the state is the one from which nothing is rejected.
    #[inline(always)]
    pub(crate) fn is_settled(&self, q: u32) -> bool
        ensures { result ≡ nat_eq q (settled_state (machine_on self.now)) }
    {
        self.monitor.is_settled(q)
    }

    /// How many variables it is for: at most 4.
    pub(crate) fn vars(&self) -> u8
        ensures vars { result ≡ (machine_on self.now).variables }
        ensures few { result ≤ 4 }
    {
        self.monitor.vars()
    }

    /// The part of the code of a joint letter that comes from the letter of one variable.
    #[inline(always)]
    pub(crate) fn part(&self, var: u8, letter: LetterMask) -> u32
        ensures part { result ≡ part_of (machine_on self.now).atoms var letter }
        ensures within { result < codes (machine_on self.now) }
    {
        self.monitor.part(var, letter)
    }

    /// What letters of a variable give of codes, lent for a loop over letters: `of` each is `part`.
    #[inline(always)]
    pub(crate) fn parts_of(&self, var: u8) -> &VariableParts
        requires { var < (machine_on self.now).variables }
        ensures { ArePartsOf result.now (machine_on self.now).atoms var }
    {
        self.monitor.parts_of(var)
    }
}
