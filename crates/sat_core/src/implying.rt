//! Which literals of a conflict others imply, by one reason or by many. No proof rests on the answers.

ghost use Rattle.std.specs.Prelude.{◌≤◌, length};
ghost use Rattle.sat_core.specs.Solvers.{IsReady};

use crate::marks::Marks;
use crate::solver::Solver;
use chain_check::Literal;
use hy_base::M;
use std::alloc::Global;

/// At most as many reasons are followed one behind the other.
const DEPTH: usize = 1000;

/// A place on the way down, and how many literals of its reason are passed.
#[derive(Clone, Copy)]
struct Step {
    place: usize,
    passed: usize,
}

/// Of which places it is known in this conflict that what is seen implies them, or that it does not.
#[derive(Drop)]
pub struct Implied {
    /// By place: the stamp of an answer of this conflict, or an older one.
    stamps: Vec<u32>,
    no: u32,
    yes: u32,
    /// The places whose reasons are looked at, each by a literal of the one before it.
    path: Vec<Step>,
}

impl Implied {
    /// Of no place yet.
    pub fn new(alloc: Global) -> Implied {
        Implied {
            stamps: Vec::new(alloc),
            no: 1,
            yes: 2,
            path: Vec::new(alloc),
        }
    }

    /// Forgets all, and makes room for `count` places; mostly in constant time.
    pub fn clear(&mut self, count: usize) -> M<()> {
        self.forget();
        for _place in self.stamps.len()..count {
            self.stamps.push(0)?;
        }
        Ok(())
    }

    /// Forgets all.
    fn forget(&mut self) {
        if u32::MAX - 2 <= self.yes {
            self.stamps.clear();
            self.no = 1;
            self.yes = 2;
            return;
        }
        self.no = self.yes + 1;
        self.yes += 2;
    }

    /// Whether what is seen implies the place, where that is known.
    fn get(&self, place: usize) -> Option<bool> {
        let stamp = *self.stamps.get(place)?;
        if stamp == self.yes {
            return Some(true);
        }
        if stamp == self.no {
            return Some(false);
        }
        None
    }

    /// Notes the answer for the place.
    fn set(&mut self, place: usize, answer: bool) {
        if place < self.stamps.len() {
            self.stamps[place] = if answer { self.yes } else { self.no };
        }
    }

    /// Nothing on the path is implied.
    fn give_up(&mut self) {
        for step in &self.path {
            if let Some(stamp) = self.stamps.get_mut(step.place) {
                *stamp = self.no;
            }
        }
        self.path.clear();
    }
}

impl Solver {
    /// Whether what is seen below `p`, and what is true without decisions, implies the literal at `p`,
    /// which has a reason. What was found once in a conflict is found no more.
    pub(crate) fn is_implied(&self, implied: &mut Implied, seen: &Marks, p: usize) -> M<bool>
        requires ready { IsReady self.now }
        requires long { p ≤ length seen.now }
    {
        let first = self.first_limit();
        if p < first {
            return Ok(true);
        }
        if let Some(answer) = implied.get(p) {
            return Ok(answer);
        }
        implied.path.clear();
        implied.path.push(Step {
            place: p,
            passed: 0,
        })?;
        for _turn in 0..u32::MAX {
            let Some(step) = implied.path.pop() else {
                return Ok(true);
            };
            let Some(next) = self.next_open(implied, seen, step, first, p) else {
                implied.set(step.place, true);
                continue;
            };
            implied.path.push(Step {
                place: step.place,
                passed: next.passed,
            })?;
            if !self.may_follow(implied, next.place) {
                implied.give_up();
                return Ok(false);
            }
            implied.path.push(Step {
                place: next.place,
                passed: 0,
            })?;
        }
        Ok(false)
    }

    /// Of the reason of a place the next false literal that is neither seen nor known to be implied.
    fn next_open(
        &self,
        implied: &Implied,
        seen: &Marks,
        step: Step,
        first: usize,
        p: usize,
    ) -> Option<Step>
        requires { p ≤ length seen.now }
    {
        let reason = self.reason_at(step.place)?;
        for i in step.passed..reason.len() {
            let place = *self.places.get(reason[i].variable())? as usize;
            let passes = place < first || step.place <= place || p <= place;
            if !passes && !seen.is_marked(place) && implied.get(place) != Some(true) {
                return Some(Step { place, passed: i });
            }
        }
        None
    }

    /// Whether it is not known yet if the place is implied, and the path may go on by its reason.
    fn may_follow(&self, implied: &Implied, place: usize) -> bool {
        implied.path.len() < DEPTH
            && implied.get(place).is_none()
            && self.reason_at(place).is_some()
    }

    /// The clause by which the literal at the place became true; none for a decision.
    fn reason_at(&self, place: usize) -> Option<&[Literal]> {
        let number = *self.reasons.get(place)? as usize;
        if number == 0 || self.clauses.len() < number {
            return None;
        }
        Some(self.clauses.clause(number - 1))
    }
}
