//! Whether the lassos of a file satisfy a formula.

ghost use Rattle.std.specs.Prelude.{◌≡◌, ◌<◌, ◌^◌, ◌∷◌, [], length};
ghost use Rattle.hy_base.specs.Shelf.{KeepsShelf};
ghost use Rattle.hy_formula.specs.Trees.{tree_of};
ghost use Rattle.hy_run.specs.Runs.{Follows};
ghost use Rattle.ea_tool.specs.Judging.{IsJudgement};
ghost use Rattle.ea_tool.specs.Rules.{ea_rules};

use crate::deciding::MOST_QUANTIFIERS;
use crate::lassos::lassos_in;
use crate::verdict::{EaFault, EaVerdict, Question};
use hy_base::Shelf;
use hy_files::formula_in;
use hy_formula::{Formula, NameTable};
use hy_lasso::{HoldsError, LassoList, holds};
use hy_run::{Refusal, file_refusal};
use std::alloc::Global;

/// Whether the lassos of a file satisfy a formula, whose names are added to the empty table.
pub fn judge<S: Shelf>(
    alloc: Global,
    shelf: &mut S,
    formula: &str,
    lassos: &str,
    names: &mut NameTable,
) -> Result<EaVerdict, Refusal<EaFault>>
    requires { names.old ≡ [] }
    ensures keeps { KeepsShelf S.Shelf shelf.old shelf.new }
    ensures follows { Follows ea_rules S.Shelf shelf.old shelf.new Question.Judge
        (formula.now ∷ lassos.now ∷ []) names.new result }
{
    let formula = match formula_in(alloc, shelf, formula, MOST_QUANTIFIERS, names) {
        Ok(formula) => formula,
        Err(fault) => return Err(file_refusal(0, fault)),
    };
    match lassos_in(alloc, shelf, lassos, names) {
        Ok(list) => judge_list(alloc, &formula, &list),
        Err(fault) => Err(file_refusal(1, fault)),
    }
}

/// Whether the lassos satisfy the formula.
fn judge_list(
    alloc: Global,
    formula: &Formula,
    list: &LassoList,
) -> Result<EaVerdict, Refusal<EaFault>>
    requires some { 0 < length list.now }
    requires countable { length list.now < 2 ^ 32 }
    ensures { IsJudgement formula.now.prefix (tree_of formula.now.body) list.now result }
{
    match holds(alloc, formula, list) {
        Ok(true) => Ok(EaVerdict::OnTrue),
        Ok(false) => Ok(EaVerdict::OnFalse),
        Err(HoldsError::Limit(limit)) => Err(Refusal::Limit {
            kind: limit.kind,
            limit: limit.limit,
        }),
        Err(HoldsError::Memory) => Err(Refusal::Memory),
    }
}
