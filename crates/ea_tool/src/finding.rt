//! Lists of lassos within a bound that satisfy a formula.

ghost use Rattle.std.specs.Prelude.{◌≡◌, ◌<◌, ◌^◌, ◌∷◌, []};
ghost use Rattle.hy_base.specs.Shelf.{KeepsShelf};
ghost use Rattle.hy_formula.specs.Formulas.{plain_formula};
ghost use Rattle.bound_search.specs.Bounds.{IsBound};
ghost use Rattle.hy_run.specs.Runs.{Follows};
ghost use Rattle.ea_tool.specs.Finding.{IsSearch, search_refusal};
ghost use Rattle.ea_tool.specs.Rules.{ea_rules};

use crate::deciding::MOST_QUANTIFIERS;
use crate::verdict::{EaFault, EaVerdict, Question};
use bound_search::{Bound, BoundAnswer, BoundError, search_bound};
use hy_base::Shelf;
use hy_files::formula_in;
use hy_formula::{Formula, NameTable};
use hy_run::{Refusal, file_refusal};
use std::alloc::Global;

/// Finds a list of lassos within a bound that satisfies a formula, by a query of at most `conflicts`
/// conflicts. Its names are added to the empty table.
pub fn find<S: Shelf>(
    alloc: Global,
    shelf: &mut S,
    formula: &str,
    bound: Bound,
    conflicts: u32,
    names: &mut NameTable,
) -> Result<EaVerdict, Refusal<EaFault>>
    requires empty { names.old ≡ [] }
    requires bound { IsBound bound }
    requires few { conflicts < 2 ^ 31 }
    ensures keeps { KeepsShelf S.Shelf shelf.old shelf.new }
    ensures follows { Follows ea_rules S.Shelf shelf.old shelf.new
        (Question.Find bound conflicts) (formula.now ∷ []) names.new result }
{
    match formula_in(alloc, shelf, formula, MOST_QUANTIFIERS, names) {
        Ok(formula) => find_list(alloc, &formula, &bound, conflicts),
        Err(fault) => Err(file_refusal(0, fault)),
    }
}

/// What the search for a list within the bound comes to.
fn find_list(
    alloc: Global,
    formula: &Formula,
    bound: &Bound,
    conflicts: u32,
) -> Result<EaVerdict, Refusal<EaFault>>
    requires bound { IsBound bound.now }
    requires few { conflicts < 2 ^ 31 }
    ensures { IsSearch bound.now conflicts (plain_formula formula.now) result }
{
    match search_bound(alloc, formula, bound, conflicts) {
        Ok(BoundAnswer::Found(list)) => Ok(EaVerdict::Sat { list }),
        Ok(BoundAnswer::NoneWithin(log)) => Ok(EaVerdict::NoneWithin { log }),
        Ok(BoundAnswer::Spent(log)) => Ok(EaVerdict::Spent { conflicts, log }),
        Err(error) => Err(search_refusal(error)),
    }
}

/// How an error of a search within a bound is answered.
fn search_refusal(error: BoundError) -> Refusal<EaFault>
    ensures { result ≡ search_refusal error }
{
    match error {
        BoundError::Limit(limit) => Refusal::Limit {
            kind: limit.kind,
            limit: limit.limit,
        },
        BoundError::Memory => Refusal::Memory,
    }
}
