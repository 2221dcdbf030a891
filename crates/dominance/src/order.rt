//! Which of two traces dominates the other.

ghost use Rattle.std.specs.Prelude.{◌≡◌, ◌↔◌, ◌<◌, ◌≤◌, length, IfOk, IsTrue};
ghost use Rattle.hy_finite.specs.declared.lengths.Lengths.{Lengths as Rule};
ghost use Rattle.fin_monitor.specs.Seen.{machine_of};
ghost use Rattle.dominance.specs.Answers.{IsOrder, IsOrderAt};
ghost use Rattle.dominance.specs.Telling.{AreTelling};

use crate::column::column;
use crate::compare::satisfies;
use crate::pairing::Pairing;
use crate::rows::{row_codes, rows};
use crate::telling::are_apart;
use fin_monitor::Monitor;
use hy_base::{M, Steps};
use hy_bits::LetterMask;
use hy_finite::{Lengths, Trace};
use std::alloc::Global;
use std::marker::Brand;
use std::sync::ledger::{Blank, Ledger};

/// Which of two traces dominates the other.
#[derive(Clone, Copy, Debug, PartialEq, Eq)]
pub struct Order {
    /// The first one dominates the second one.
    pub over: bool,
    /// The second one dominates the first one.
    pub under: bool,
}

/// Which of `t` and `u` dominates the other for the body of a monitor, where tuples are judged by
/// this rule. Of the names, which `telling_names` gives, it is known that they tell traces apart.
///
/// Where the traces differ in one of them, in time linear in the positions up to there. Else as
/// `dominates` says, by one walk for both, which ends where neither does.
pub fn order_of(
    alloc: Global,
    m: &Monitor,
    telling: &[usize],
    t: &Trace,
    u: &Trace,
    lengths: Lengths,
) -> M<Order>
    requires { AreTelling (machine_of m.now).variables (machine_of m.now).body telling.now }
    ensures { IfOk result (IsOrder lengths (machine_of m.now).variables
        (machine_of m.now).body t.now u.now) }
{
    prove!(t.len() > 0 && u.len() > 0);
    let compared = Compared {
        monitor: m,
        lengths,
        first: t.as_slice(),
        second: u.as_slice(),
    };
    if are_apart(m, telling, compared.first, compared.second) {
        return Ok(Order {
            over: false,
            under: false,
        });
    }
    compared.order::<Brand>(alloc, Blank::new(1))
}

/// Two traces that are compared.
#[derive(Clone, Copy)]
struct Compared<'a> {
    monitor: &'a Monitor,
    lengths: Lengths,
    first: &'a [LetterMask],
    second: &'a [LetterMask],
}

impl Compared<'_> {
    /// Which of the traces dominates the other. The ledger is for the steps of the monitor, which
    /// are not asked for.
    fn order<L: Ledger>(&self, alloc: Global, blank: Blank) -> M<Order>
        requires name { blank.name ≡ L.name }
        requires parts { blank.parts ≡ L.parts }
        requires some { 0 < blank.parts }
        requires some_first { 1 ≤ length self.now.first.now }
        requires some_second { 1 ≤ length self.now.second.now }
        ensures { IfOk result (IsOrder self.now.lengths (machine_of self.now.monitor.now).variables
            (machine_of self.now.monitor.now).body self.now.first.now self.now.second.now) }
    {
        let mut steps = Steps::<L>::new(blank);
        if self.monitor.vars() == 1 {
            return Ok(self.alone(&mut steps));
        }
        let mut order = Order {
            over: true,
            under: true,
        };
        for place in 0..self.monitor.vars() {
            order = self.order_at(alloc, place, order, &mut steps)?;
        }
        Ok(order)
    }

    /// What is left at a place of the claims that either trace dominates the other.
    fn order_at<L: Ledger>(
        &self,
        alloc: Global,
        place: u8,
        claimed: Order,
        steps: &mut Steps<L>,
    ) -> M<Order>
        requires some_first { 1 ≤ length self.now.first.now }
        requires some_second { 1 ≤ length self.now.second.now }
        requires two { 2 ≤ (machine_of self.now.monitor.now).variables }
        requires place { place < (machine_of self.now.monitor.now).variables }
        ensures { IfOk result (IsOrderAt self.now.lengths
            (machine_of self.now.monitor.now).variables (machine_of self.now.monitor.now).body
            place self.now.first.now self.now.second.now claimed) }
    {
        let m = self.monitor;
        let rows = rows(alloc, m, place)?;
        let codes = row_codes(alloc, m, rows.as_slice())?;
        let upper = column(alloc, m, place, self.first)?;
        let lower = column(alloc, m, place, self.second)?;
        let pairing = Pairing {
            monitor: m,
            lengths: self.lengths,
            upper: upper.as_slice(),
            lower: lower.as_slice(),
            upper_codes: codes.as_slice(),
            lower_codes: codes.as_slice(),
        };
        pairing.order(alloc, claimed, steps)
    }

    /// As `order`, for one variable.
    fn alone<L: Ledger>(&self, steps: &mut Steps<L>) -> Order
        requires one { (machine_of self.now.monitor.now).variables ≡ 1 }
        requires some_first { 1 ≤ length self.now.first.now }
        requires some_second { 1 ≤ length self.now.second.now }
        ensures { (rule : Rule) → IsOrder rule 1 (machine_of self.now.monitor.now).body
            self.now.first.now self.now.second.now result }
    {
        let first = satisfies(self.monitor, self.first, steps);
        let second = satisfies(self.monitor, self.second, steps);
        Order {
            over: implies(first, second),
            under: implies(second, first),
        }
    }
}

/// Whether the one holds only where the other does.
pub(crate) fn implies(one: bool, other: bool) -> bool
    ensures { IsTrue result ↔ (IsTrue one → IsTrue other) }
{
    !one || other
}
