//! What members leave after several joint letters, kept so that residuals share it.

ghost use Rattle.std.specs.Prelude.{◌≡◌, ◌≤◌, ◌<◌, ◌*◌, length, map, IfOk, OnOk};
ghost use Rattle.hy_formula.specs.Quantifiers.{Each};
ghost use Rattle.hy_formula.specs.Atoms.{plain_atom};
ghost use Rattle.fin_monitor.specs.Codes.{letter_of};
ghost use Rattle.fin_monitor.specs.Duties.{residual_step, Same};
ghost use Rattle.fin_monitor.specs.Lefts.{kept_lists, IsFamily, AreMasks};
ghost use Rattle.fin_monitor.specs.Tables.{AreAllLefts};

use crate::duty::Duty;
use crate::families::Family;
use crate::lefts::{Judge, Lefts};
use hy_base::{M, NumList};
use std::alloc::Global;

/// The most families that are kept at once, where those of all joint letters are.
const MOST_FAMILIES: usize = 65_536;

/// What the members leave after some joint letters, as many as are kept at once.
#[derive(Drop)]
pub struct LeftsByCode<const W: usize> {
    /// A code has the place that remains of it; another code may be there, and is turned to it.
    pub kept: Vec<Lefts<W>>,
}

impl<const W: usize> LeftsByCode<W> {
    /// All places, each with the joint letter without a name.
    pub fn new(alloc: Global, judge: &Judge) -> M<LeftsByCode<W>>
        requires width { W ≤ 16 }
        requires members { length judge.now.closure.now.nodes ≤ 64 * W }
        requires few { length judge.now.atoms.now ≤ 16 }
        ensures some { IfOk result (λ l. 0 < length l.kept.items) }
        ensures kept { IfOk result (λ l. Each (λ k. AreAllLefts judge.now.closure.now.nodes
            (map plain_atom judge.now.atoms.now) k.code (kept_lists k.lists)) l.kept.items) }
    {
        let mut kept = Vec::new(alloc);
        kept.push(Lefts::new(alloc, judge)?)?;
        if judge.closure.len() <= MOST_FAMILIES >> judge.atoms.len() {
            for _code in 1..1 << judge.atoms.len() {
                kept.push(Lefts::new(alloc, judge)?)?;
            }
        }
        Ok(LeftsByCode { kept })
    }

    /// What is left of a residual after the joint letter of a code.
    pub fn step(
        &mut self,
        alloc: Global,
        judge: &Judge,
        masks: &NumList,
        code: u32,
        residual: &[Duty<W>],
    ) -> M<Family<W>>
        requires width { W ≤ 16 }
        requires members { length judge.now.closure.now.nodes ≤ 64 * W }
        requires few { length judge.now.atoms.now ≤ 16 }
        requires masks { AreMasks judge.now.closure.now.nodes
            (map plain_atom judge.now.atoms.now) masks.now }
        requires some { 0 < length self.old.kept.items }
        requires kept { Each (λ k. AreAllLefts judge.now.closure.now.nodes
            (map plain_atom judge.now.atoms.now) k.code (kept_lists k.lists)) self.old.kept.items }
        ensures some { OnOk result (0 < length self.new.kept.items) }
        ensures kept { OnOk result (Each (λ k. AreAllLefts judge.now.closure.now.nodes
            (map plain_atom judge.now.atoms.now) k.code (kept_lists k.lists)) self.new.kept.items) }
        ensures family { IfOk result (λ next. IsFamily next.items) }
        ensures same { IfOk result (λ next. Same next.items (residual_step
            judge.now.closure.now.nodes (letter_of (map plain_atom judge.now.atoms.now) code)
            residual.now)) }
    {
        let place = code as usize % self.kept.len();
        self.kept[place].turn(alloc, judge, masks, code)?;
        self.kept[place].step(alloc, residual)
    }
}
