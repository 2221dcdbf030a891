//! What a body says of a tuple of lassos.

ghost use Rattle.std.specs.Prelude.{◌≡◌, ◌+◌, ◌<◌, ◌↔◌, ◌-◌, ◌⊎◌, length, IfOk, IfErr, IsTrue, All};
ghost use Rattle.hy_lasso.specs.declared.error.HoldsError.TheVariants.{Memory as OfMemory, Limit as OfLimit};
ghost use Rattle.hy_lasso.specs.Limits.{joint_limit};
ghost use Rattle.hy_formula.specs.Trees.{tree_of, vars_below, atom};
ghost use Rattle.hy_formula.specs.Temporal.{Repeats};
ghost use Rattle.hy_lasso.specs.Words.{picked, lasso_words, Meets};
ghost use Rattle.hy_lasso.specs.Joint.{IsJudged};
ghost use Rattle.hy_lasso.specs.Rows.{IsRowOf};

use crate::error::HoldsError;
use crate::lasso::LassoList;
use crate::period::Period;
use crate::row::{
    Row, and, constant, finally, globally, iff, negate, next, or, release, until, weak,
};
use hy_base::{List, M};
use hy_formula::{Atom, Body};
use std::alloc::Global;

/// Whether the body holds of the picked lassos, at their first position. `pick` has for each
/// variable of the body the number of a lasso of the list.
///
/// In time the size of the body times the positions of the joint period, which are those of the
/// longest stem and of the least common multiple of the cycles; in memory its height times these
/// positions. Limit comes exactly where they are more than 4,194,304.
pub fn holds_body(
    alloc: Global,
    body: &Body,
    list: &LassoList,
    pick: &[u32],
) -> Result<bool, HoldsError>
    requires members { All (λ k. k < length list.now) pick.now }
    requires bound { IsTrue (vars_below (length pick.now) (tree_of body.now)) }
    ensures meaning { IfOk result
        (λ holds. IsTrue holds ↔ Meets (tree_of body.now) (picked list.now pick.now)) }
    ensures judged { IfOk result (λ _. IsJudged (picked list.now pick.now)) }
    ensures limit { IfErr result
        (λ e. e ≡ OfLimit joint_limit → ¬ IsJudged (picked list.now pick.now)) }
    ensures causes { IfErr result (λ e. (e ≡ OfLimit joint_limit) ⊎ (e ≡ OfMemory)) }
{
    let Some(period) = Period::of_picked(list, pick) else {
        return Err(HoldsError::joint());
    };
    let tuple = Picked {
        list,
        pick,
        stem: period.stem,
        places: period.stem + period.cycle,
    };
    let row = tuple.row_of(alloc, body)?;
    Ok(*row.at(0))
}

/// A tuple of lassos, and how they repeat together: from the place `stem` on the places are gone
/// round.
#[derive(Clone, Copy)]
struct Picked<'a> {
    list: &'a LassoList,
    pick: &'a [u32],
    stem: usize,
    places: usize,
    ghost members: { All (λ k. k < length list.now) pick.now },
    ghost some: { stem < places },
    ghost repeats: { Repeats (lasso_words (picked list.now pick.now)) stem (places - stem) },
}

impl Picked<'_> {
    /// Whether the body holds at each position, from its parts upwards.
    #[tactic(auto, using(crate::proofs::Bodies::rows))]
    fn row_of(&self, alloc: Global, body: &Body) -> M<Row>
        requires { IsTrue (vars_below (length self.now.pick.now) (tree_of body.now)) }
        ensures { let words = lasso_words (picked self.now.list.now self.now.pick.now) in
            IfOk result
            (λ row. IsRowOf (tree_of body.now) words self.now.stem self.now.places row) }
    {
        match body {
            Body::True => constant(alloc, true, self.places),
            Body::False => constant(alloc, false, self.places),
            Body::Atom(a) => self.atom_row(alloc, *a),
            Body::Not(f) => Ok(negate(self.row_of(alloc, f)?)),
            Body::Next(f) => Ok(next(self.row_of(alloc, f)?, self.stem)),
            Body::Finally(f) => Ok(finally(self.row_of(alloc, f)?, self.stem)),
            Body::Globally(f) => Ok(globally(self.row_of(alloc, f)?, self.stem)),
            Body::And(f, g) => Ok(and(self.row_of(alloc, f)?, &self.row_of(alloc, g)?)),
            Body::Or(f, g) => Ok(or(self.row_of(alloc, f)?, &self.row_of(alloc, g)?)),
            Body::Implies(f, g) => {
                Ok(or(negate(self.row_of(alloc, f)?), &self.row_of(alloc, g)?))
            }
            Body::Iff(f, g) => Ok(iff(self.row_of(alloc, f)?, &self.row_of(alloc, g)?)),
            Body::Until(f, g) => {
                Ok(until(&self.row_of(alloc, f)?, self.row_of(alloc, g)?, self.stem))
            }
            Body::Release(f, g) => {
                Ok(release(self.row_of(alloc, f)?, self.row_of(alloc, g)?, self.stem))
            }
            Body::Weak(f, g) => Ok(weak(self.row_of(alloc, f)?, self.row_of(alloc, g)?, self.stem)),
        }
    }

    /// Whether the atom holds at each position.
    fn atom_row(&self, alloc: Global, a: Atom) -> M<Row>
        requires { a.var < length self.now.pick.now }
        ensures { let words = lasso_words (picked self.now.list.now self.now.pick.now) in
            IfOk result
            (λ row. IsRowOf (atom a.name a.var) words self.now.stem self.now.places row) }
    {
        let lasso = self.list.at(self.pick[a.var as usize] as usize);
        let mut row = List::new(alloc);
        for i in 0..self.places {
            row.push(lasso.at(i as u64).has(a.name as usize))?;
        }
        Ok(row)
    }
}
