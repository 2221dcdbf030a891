//! Copies of formulas.

ghost use Rattle.std.specs.Prelude.{◌≡◌, IfOk};
ghost use Rattle.hy_formula.specs.Formulas.{plain_formula, plain_formulas};

use crate::formula::Formula;
use hy_base::{List, M, Remake};
use std::alloc::Global;

impl Formula {
    /// An equal formula, in time linear in its size.
    pub fn copy(&self, alloc: Global) -> M<Formula>
        ensures { IfOk result (λ made. plain_formula made ≡ plain_formula self.now) }
    {
        Ok(Formula {
            prefix: self.prefix.remake(alloc)?,
            body: self.body.copy(alloc)?,
        })
    }
}

/// Equal formulas in the same order, in time linear in their size.
pub fn copy_formulas(alloc: Global, formulas: &[Formula]) -> M<List<Formula>>
    ensures { IfOk result (λ made. plain_formulas made ≡ plain_formulas formulas.now) }
{
    let mut made = List::new(alloc);
    for formula in formulas {
        made.push(formula.copy(alloc)?)?;
    }
    Ok(made)
}
