//! What a formula says of a list of lassos.

ghost use Rattle.std.specs.Prelude.{◌≡◌, ◌<◌, ◌≤◌, ◌↔◌, ◌⊎◌, ◌^◌, length, drop, IfOk, IfErr, OnOk, IsTrue, All};
ghost use Rattle.hy_formula.specs.Trees.{tree_of, vars_below};
ghost use Rattle.hy_formula.specs.declared.prefix.Quant.TheVariants.{Exists};
ghost use Rattle.hy_formula.specs.Classes.{is_same};
ghost use Rattle.hy_lasso.specs.declared.error.HoldsError.TheVariants.{Memory as OfMemory, Limit as OfLimit};
ghost use Rattle.hy_lasso.specs.Limits.{joint_limit};
ghost use Rattle.hy_lasso.specs.Words.{picked, Satisfies, Remains};
ghost use Rattle.hy_lasso.specs.Joint.{IsJudged};

use crate::error::HoldsError;
use crate::lasso::LassoList;
use crate::meaning::holds_body;
use crate::period::are_judged;
use hy_base::{List, NumList};
use hy_formula::{Formula, Quant};
use std::alloc::Global;

/// Whether the list satisfies the formula. Each quantifier stops at its first witness.
///
/// In time at most the number of lassos to the power of the quantifiers, times that of
/// `holds_body`.
/// Limit comes exactly where the longest stem and the least common multiple of the cycles of all
/// lassos of the list have together more than 4,194,304 positions.
pub fn holds(alloc: Global, f: &Formula, list: &LassoList) -> Result<bool, HoldsError>
    requires some { 0 < length list.now }
    requires countable { length list.now < 2 ^ 32 }
    ensures meaning { IfOk result
        (λ holds. IsTrue holds ↔ Satisfies list.now f.now.prefix (tree_of f.now.body)) }
    ensures judged { IfOk result (λ _. IsJudged list.now) }
    ensures limit { IfErr result (λ e. e ≡ OfLimit joint_limit → ¬ IsJudged list.now) }
    ensures causes { IfErr result (λ e. (e ≡ OfLimit joint_limit) ⊎ (e ≡ OfMemory)) }
{
    if !are_judged(list) {
        return Err(HoldsError::joint());
    }
    let choices = Choices { formula: f, list };
    choices.remain(alloc, &mut List::new(alloc))
}

/// The choices of a formula among the lassos of a list that is judged.
#[derive(Clone, Copy)]
struct Choices<'a> {
    formula: &'a Formula,
    list: &'a LassoList,
    ghost countable: { length list.now < 2 ^ 32 },
}

impl Choices<'_> {
    /// Whether the quantifiers that are left hold, where `tuple` was chosen for the first ones.
    fn remain(&self, alloc: Global, tuple: &mut NumList) -> Result<bool, HoldsError>
        requires judged { IsJudged self.now.list.now }
        requires members { All (λ k. k < length self.now.list.now) tuple.old }
        requires short { length tuple.old ≤ length self.now.formula.now.prefix }
        ensures meaning { let list = self.now.list.now in
            let formula = self.now.formula.now in
            let chosen = picked list tuple.old in
            let left = drop (length tuple.old) formula.prefix in
            IfOk result (λ holds. IsTrue holds ↔ Remains list (tree_of formula.body) chosen left) }
        ensures kept { OnOk result (tuple.new ≡ tuple.old) }
        ensures causes { IfErr result (λ e. e ≡ OfMemory) }
    {
        let chosen = tuple.len();
        let prefix = &self.formula.prefix;
        if chosen == prefix.len() {
            return holds_body(alloc, &self.formula.body, self.list, tuple.as_slice());
        }
        let wanted = stops_at(prefix.at(chosen));
        for k in 0..self.list.len() as u32 {
            tuple.push(k)?;
            let holds = self.remain(alloc, tuple)?;
            tuple.truncate(chosen);
            if holds == wanted {
                return Ok(wanted);
            }
        }
        Ok(!wanted)
    }
}

/// The truth value of a member after which the quantifier needs no other.
fn stops_at(quant: Quant) -> bool
    ensures { result ≡ is_same quant Exists }
{
    quant == Quant::Exists
}
