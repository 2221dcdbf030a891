//! Rows of the table that are the same, found by reduced residuals.

ghost use Rattle.std.specs.Prelude.{◌≡◌, ◌≤◌, [], length, IfOk};
ghost use Rattle.fin_monitor.specs.Lefts.{kept_lists};
ghost use Rattle.fin_monitor.specs.Reductions.{IsFirstRow};

use crate::duty::Duty;
use crate::explore::put;
use crate::families::Family;
use hy_base::{M, NumList};
use indexmap::IndexSet;
use std::alloc::Global;

/// The reduced residuals so far, each with the first row that is its.
#[derive(Drop)]
pub struct Repeats<const W: usize> {
    pub reduced: IndexSet<Family<W>>,
    pub firsts: NumList,
}

impl<const W: usize> Repeats<W> {
    /// None.
    pub fn new(alloc: Global) -> Repeats<W>
        requires { W ≤ 16 }
        ensures reduced { kept_lists result.reduced.keys ≡ [] }
        ensures firsts { result.firsts ≡ [] }
    {
        Repeats {
            reduced: IndexSet::new(alloc),
            firsts: NumList::new(alloc),
        }
    }

    /// The first row of a reduced residual; where there is none it becomes `row`.
    pub fn first_row(&mut self, alloc: Global, residual: &[Duty<W>], row: u32) -> M<Option<u32>>
        requires { length self.old.firsts ≡ length self.old.reduced.keys }
        ensures { IfOk result (λ first. IsFirstRow (kept_lists self.old.reduced.keys)
            self.old.firsts residual.now row (kept_lists self.new.reduced.keys)
            self.new.firsts first) }
    {
        let place = put(&mut self.reduced, Vec::from_slice(alloc, residual)?)?;
        if place < self.firsts.len() {
            return Ok(Some(*self.firsts.at(place)));
        }
        self.firsts.push(row)?;
        Ok(None)
    }
}
