//! What runs come to that go on by their column alone, kept so that it is found once for each state
//! at a position.

ghost use Rattle.std.specs.Prelude.{◌≡◌, ◌≤◌, ℕ, length, IfOk, IfSome, List as Sequence};
ghost use Rattle.fin_monitor.specs.Machines.{Machine, states_of};
ghost use Rattle.dominance.specs.LoneEnds.{AreLoneEnds, IsLoneEnd};

use hy_base::{List, M};
use std::alloc::Global;

/// The position at which a run was last asked for in a state, and the state that it came to.
#[derive(Clone, Copy)]
pub(crate) struct LoneEnd {
    pub at: usize,
    pub end: u32,
}

/// For each of the first states what its run came to, at the position where it was last asked for.
#[derive(Drop)]
pub(crate) struct LoneEnds {
    pub ends: List<LoneEnd>,
}

impl LoneEnds {
    /// For each of so many states what it comes to at the end of a column of so many positions, which
    /// is itself.
    pub(crate) fn new(alloc: Global, states: u32, positions: usize) -> M<LoneEnds>
        ensures { IfOk result (λ made. (m : Machine) (column : Sequence ℕ) → states ≤ states_of m
            → length column ≡ positions → AreLoneEnds m column made.ends) }
    {
        let mut ends = List::new(alloc);
        for q in 0..states {
            ends.push(LoneEnd {
                at: positions,
                end: q,
            })?;
        }
        Ok(LoneEnds { ends })
    }

    /// What is kept for state `q` at position `at`, if it is.
    pub(crate) fn known(&self, at: usize, q: u32) -> Option<u32>
        ensures { IfSome result (λ end. (m : Machine) (column : Sequence ℕ)
            → AreLoneEnds m column self.now.ends → IsLoneEnd m column at q end) }
    {
        let place = q as usize;
        if place >= self.ends.len() {
            return None;
        }
        let known = *self.ends.at(place);
        if known.at != at {
            return None;
        }
        Some(known.end)
    }

    /// Keeps what state `q` comes to from position `at`, if there is a place for it.
    pub(crate) fn keep(&mut self, at: usize, q: u32, end: u32)
        ensures { (m : Machine) (column : Sequence ℕ) → AreLoneEnds m column self.old.ends
            → IsLoneEnd m column at q end → AreLoneEnds m column self.new.ends }
    {
        let place = q as usize;
        if place >= self.ends.len() {
            return;
        }
        self.ends.set(place, LoneEnd { at, end });
    }
}
