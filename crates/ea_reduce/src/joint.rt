//! From letters side by side to a list of lassos.

ghost use Rattle.std.specs.Prelude.{◌≡◌, ◌<◌, length, All, IfOk};
ghost use Rattle.ea_reduce.specs.Joints.{column, lassos_from, IsJoint, AreShortened};

use crate::plan::Plan;
use hy_base::{List, M};
use hy_bits::Letters;
use hy_lasso::{Lasso, LassoList};
use std::alloc::Global;

/// Words of letters side by side.
pub type WordList = List<Letters>;

/// Lassos side by side: each position has a letter for each of them, and the cycle is not empty.
#[derive(Drop)]
pub struct Joint {
    pub stem: WordList,
    pub cycle: WordList,
}

/// The lassos of a joint one, each in its normal form. In time linear in its letters, times the
/// divisors of the length of its cycle.
pub fn back(alloc: Global, joint: &Joint, plan: &Plan) -> M<LassoList>
    requires { IsJoint plan.now.vars joint.now }
    ensures { IfOk result (AreShortened (lassos_from joint.now 0 plan.now.vars)) }
{
    let mut list = LassoList::new(alloc);
    for v in 0..plan.vars {
        let stem = column(alloc, &joint.stem, v)?;
        let cycle = column(alloc, &joint.cycle, v)?;
        let Some(lasso) = Lasso::new(stem, cycle) else {
            unreachable!()
        };
        let lasso = lasso.shorten();
        prove!(!lasso.cycle().is_empty());
        list.push(lasso)?;
    }
    Ok(list)
}

/// The letters of variable `v`.
fn column(alloc: Global, rows: &WordList, v: u8) -> M<Letters>
    requires { All (λ row. v < length row) rows.now }
    ensures { IfOk result (λ letters. letters ≡ column v rows.now) }
{
    let mut letters = Letters::new(alloc);
    for row in rows.as_slice() {
        letters.push(*row.at(usize::from(v)))?;
    }
    Ok(letters)
}
