//! What a spec is watched by.

ghost use Rattle.std.specs.Prelude.{◌≡◌, ◌↔◌, ◌+◌, ◌<◌, ◌≤◌, ◌∷◌, [], ℕ, true, nat_eq, length, IfOk, IfSome, IfNone, IsTrue};
ghost use Rattle.std.specs.Coded.{→_prop};
ghost use Rattle.hy_formula.specs.Quantifiers.{Each};
ghost use Rattle.trace_trie.specs.Numbered.{Numbered};
ghost use Rattle.std.specs.List.{Contains};
ghost use Rattle.hy_finite.specs.declared.lengths.Lengths.{Lengths as Rule};
ghost use Rattle.fin_monitor.specs.Seen.{machine_of};
ghost use Rattle.dominance.specs.Answers.{IsOrder};
ghost use Rattle.dominance.specs.Telling.{AreTelling, AreTelling-prop};
ghost use Rattle.tuple_walk.specs.Finds.{AreViolating, AllMeet, traces_of};
ghost use Rattle.rv_core.specs.Masks.{AreNamesOf, AreNamesOf-prop};
ghost use Rattle.rv_core.specs.Watched.{MayTurn, MayTurn-prop, IsExact, IsExact-prop};
ghost use Rattle.rv_core.specs.Arrivals.{IsNext};
ghost use Rattle.rv_core.specs.StepBounds.{IsBound};

use crate::names::Names;
use dominance::{Order, order_of, symmetric, telling_names};
use fin_monitor::Monitor;
use hy_base::{List, M, Steps};
use hy_bits::LetterMask;
use hy_finite::{Lengths, Trace};
use std::alloc::Global;
use std::sync::ledger::Ledger;
use trace_trie::Version;
use tuple_walk::{CountedMonitor, Tuple, find, find_alone, find_first};

/// The monitor of a spec's body.
#[derive(Drop)]
pub(crate) struct Watch {
    pub(crate) monitor: Monitor,
    /// The names that stand in the body.
    pub(crate) names: Names,
    /// Exchanging two traces never changes the verdict.
    symmetric: bool,
    /// Names that tell traces apart, where dominated ones are dropped.
    telling: List<usize>,
    ghost some: { 1 ≤ (machine_of monitor).variables },
    ghost named: { AreNamesOf names (machine_of monitor).body } by { AreNamesOf-prop names (machine_of monitor).body },
    ghost turns: { IsTrue symmetric → MayTurn (machine_of monitor) } by { →_prop (MayTurn-prop (machine_of monitor)) },
    ghost exact: { IsExact symmetric (machine_of monitor) } by { IsExact-prop symmetric (machine_of monitor) },
    ghost tell: { AreTelling (machine_of monitor).variables (machine_of monitor).body telling } by { AreTelling-prop (machine_of monitor).variables (machine_of monitor).body telling },
}

impl Watch {
    ghost use Rattle.rv_core.specs.Seen.{watched};

    /// A watch by the monitor of a body that has these names, for traces of which dominated ones
    /// may be dropped. In time as `symmetric`, and as `telling_names` where they are.
    pub(crate) fn new(alloc: Global, names: Names, monitor: Monitor, drops: bool) -> M<Watch>
        requires some { 1 ≤ (machine_of monitor).variables }
        requires named { AreNamesOf names (machine_of monitor).body }
        ensures { IfOk result (λ made. watched made ≡ machine_of monitor) }
    {
        let symmetric = symmetric(alloc, &monitor)?;
        let telling = telling(alloc, &monitor, drops)?;
        Ok(Watch {
            monitor,
            names,
            symmetric,
            telling,
        })
    }

    /// A tuple of traces of the version that violates the body, where the trace with this number is
    /// the newest one; `None` exactly where no tuple with it does. Takes no memory.
    ///
    /// Where the order of two traces does not matter the newest one is tried first alone.
    pub(crate) fn find<L: Ledger>(
        &self,
        alloc: Global,
        rule: Lengths,
        kept: &Version,
        number: u32,
        trace: &[LetterMask],
        steps: &mut Steps<L>,
    ) -> Option<Tuple>
        requires { Contains kept.now (number, trace.now) }
        ensures found { IfSome result (AreViolating (watched self.now) rule kept.now) }
        ensures none { IfNone result
            (AllMeet (watched self.now) rule (traces_of kept.now) trace.now) }
        ensures counted { steps.old ≤ steps.new }
        ensures bounded { (bound : ℕ) → IsBound rule (watched self.now) (traces_of kept.now)
            trace.now bound → steps.new ≤ steps.old + bound }
    {
        kept.numbers_ascend();
        let monitor = CountedMonitor::new(&self.monitor);
        if self.symmetric {
            find_first(alloc, kept, monitor, number, trace, rule, steps)
        } else {
            find(alloc, kept, monitor, number, trace, rule, steps)
        }
    }

    /// Whether the body has one variable.
    pub(crate) fn has_one_variable(&self) -> bool
        ensures { result ≡ nat_eq (watched self.now).variables 1 }
    {
        self.monitor.vars() == 1
    }

    /// The tuple of the trace alone, by this number, where it violates the body, which has one
    /// variable. Takes no memory.
    pub(crate) fn find_alone<L: Ledger>(
        &self,
        alloc: Global,
        rule: Lengths,
        number: u32,
        trace: &[LetterMask],
        steps: &mut Steps<L>,
    ) -> Option<Tuple>
        requires some { 1 ≤ length trace.now }
        requires short { length trace.now ≤ 1024 }
        requires one { (watched self.now).variables ≡ 1 }
        ensures found { IfSome result
            (AreViolating (watched self.now) rule ((number, trace.now) ∷ [])) }
        ensures none { IfNone result
            (AllMeet (watched self.now) rule (trace.now ∷ []) trace.now) }
        ensures counted { steps.old ≤ steps.new }
        ensures bounded { (bound : ℕ) → IsBound rule (watched self.now) (trace.now ∷ []) trace.now
            bound → steps.new ≤ steps.old + bound }
    {
        let monitor = CountedMonitor::new(&self.monitor);
        find_alone(alloc, monitor, number, trace, rule, steps)
    }

    /// What is kept with a new trace, where dominated ones are dropped: what was kept, if one of
    /// these dominates the new one; else those of them that it does not dominate, and the new one.
    ///
    /// The new trace is compared with each kept one.
    pub(crate) fn leaders(
        &self,
        alloc: Global,
        rule: Lengths,
        kept: &Version,
        number: u32,
        trace: &Trace,
    ) -> M<Version>
        requires { Each (λ (p : Numbered). p.0 < number) kept.now }
        ensures { IfOk result (IsNext rule true (watched self.now) trace.now number kept.now) }
    {
        kept.numbers_ascend();
        let mut left = kept.share()?;
        let mut from = 0;
        while let Some((other, held)) = kept.next(from) {
            let order = self.order(alloc, rule, held, trace)?;
            if order.over {
                return kept.share();
            }
            if order.under {
                left = left.without(other)?;
            }
            from = other + 1;
        }
        left.insert(number, trace)
    }

    /// Which of a kept trace and a new one dominates the other.
    fn order(&self, alloc: Global, rule: Lengths, held: &Trace, trace: &Trace) -> M<Order>
        ensures { IfOk result (IsOrder rule (watched self.now).variables (watched self.now).body
            held.now trace.now) }
    {
        order_of(
            alloc,
            &self.monitor,
            self.telling.as_slice(),
            held,
            trace,
            rule,
        )
    }
}

/// Names that tell traces of a monitor's body apart; none where no traces are dropped.
fn telling(alloc: Global, monitor: &Monitor, drops: bool) -> M<List<usize>>
    ensures { IfOk result (AreTelling (machine_of monitor.now).variables
        (machine_of monitor.now).body) }
{
    if drops {
        telling_names(alloc, monitor)
    } else {
        Ok(List::new(alloc))
    }
}
