//! Duties: members of a closure that are to hold at the next position.

ghost use Rattle.std.specs.Prelude.{◌≡◌, ◌≤◌, ◌<◌, ◌*◌, ◌||◌};
ghost use Rattle.std.specs.FinSet.{contains};
ghost use Rattle.fin_monitor.specs.Duties.{no_duty, strongly, weakly, both, within};
ghost use Rattle.fin_monitor.specs.Lefts.{precedes};

use ltl_closure::Obl;
use std::cmp::Ordering;
use std::marker::Model;

/// Members that are to hold at the next position.
#[derive(Clone, Copy, Debug, PartialEq, Eq, Hash)]
pub struct Duty<const W: usize> {
    /// These, and the position is to be there.
    pub strong: Obl<W>,
    /// These, if the position is there.
    pub weak: Obl<W>,
}

impl<const W: usize> Model for Duty<W> {
    ghost use Rattle.fin_monitor.specs.Duties.{Duty, duty_code};

    ghost Value = { Duty };

    ghost coded = { duty_code };

    ghost view = { λ d. record { strong = d.strong; weak = d.weak } };

    ghost inverse = { λ d. record { strong = d.strong; weak = d.weak } };
}

impl<const W: usize> Duty<W> {
    /// No obligation.
    pub fn none() -> Duty<W>
        requires { W ≤ 16 }
        ensures { result ≡ no_duty }
    {
        Duty {
            strong: Obl::empty(),
            weak: Obl::empty(),
        }
    }

    /// Member `k`, at a position that is to be there.
    pub fn strongly(k: usize) -> Duty<W>
        requires width { W ≤ 16 }
        requires within { k < 64 * W }
        ensures { result ≡ strongly k }
    {
        Duty {
            strong: Obl::empty().with(k),
            weak: Obl::empty(),
        }
    }

    /// Member `k`, if the position is there.
    pub fn weakly(k: usize) -> Duty<W>
        requires width { W ≤ 16 }
        requires within { k < 64 * W }
        ensures { result ≡ weakly k }
    {
        Duty {
            strong: Obl::empty(),
            weak: Obl::empty().with(k),
        }
    }

    /// Whether member `k` is an obligation.
    pub fn has(&self, k: usize) -> bool
        requires width { W ≤ 16 }
        requires within { k < 64 * W }
        ensures { result ≡ (contains self.now.strong k || contains self.now.weak k) }
    {
        self.strong.has(k) || self.weak.has(k)
    }

    /// The obligations of both.
    pub fn both(&self, other: &Self) -> Duty<W>
        requires { W ≤ 16 }
        ensures { result ≡ both self.now other.now }
    {
        Duty {
            strong: self.strong.union(&other.strong),
            weak: self.weak.union(&other.weak),
        }
    }

    /// Whether each obligation is one of the other.
    pub fn within(&self, other: &Self) -> bool
        requires { W ≤ 16 }
        ensures { result ≡ within self.now other.now }
    {
        self.strong.is_subset(&other.strong) && self.weak.is_subset(&other.weak)
    }

    /// Whether it stands before the other in lists of duties.
    pub fn precedes(&self, other: &Self) -> bool
        ensures { result ≡ precedes self.now other.now }
    {
        match self.strong.cmp(&other.strong) {
            Ordering::Less => true,
            Ordering::Equal => self.weak < other.weak,
            Ordering::Greater => false,
        }
    }
}
