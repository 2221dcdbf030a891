//! Whether two formulas stand in a relation.

ghost use Rattle.std.specs.Prelude.{◌≡◌, ◌<◌, ◌-◌, ◌^◌, ◌∷◌, [], Bool};
ghost use Rattle.hy_base.specs.Shelf.{KeepsShelf};
ghost use Rattle.hy_formula.specs.Formulas.{plain_formula};
ghost use Rattle.hy_run.specs.Runs.{Follows};
ghost use Rattle.ea_tool.specs.Deciding.{IsRelated};
ghost use Rattle.ea_tool.specs.Rules.{ea_rules};
ghost use Rattle.ea_tool.specs.Words.{IsInRange};

use crate::circuits::{compare_by_circuit, imply_by_circuit};
use crate::deciding::{MOST_QUANTIFIERS, decision_refusal};
use crate::verdict::{EaFault, EaVerdict, Engine, Question, Relation};
use ea_core::{Both, Decision, equivalent, implies};
use hy_base::Shelf;
use hy_files::formula_in;
use hy_formula::{Formula, NameTable};
use hy_run::{Refusal, file_refusal};
use std::alloc::Global;

/// Whether the formulas of two files stand in a relation, by an engine. Their names are added to the
/// empty table.
pub fn relate<S: Shelf>(
    alloc: Global,
    shelf: &mut S,
    relation: Relation,
    files: (&str, &str),
    engine: Engine,
    names: &mut NameTable,
) -> Result<EaVerdict, Refusal<EaFault>>
    requires empty { names.old ≡ [] }
    requires range { IsInRange engine }
    ensures keeps { KeepsShelf S.Shelf shelf.old shelf.new }
    ensures follows { (proof : Bool) → Follows ea_rules S.Shelf shelf.old shelf.new
        (Question.Relate relation engine proof) (files.entry.0.now ∷ files.entry.1.now ∷ [])
        names.new result }
{
    let first = match formula_in(alloc, shelf, files.0, MOST_QUANTIFIERS, names) {
        Ok(formula) => formula,
        Err(fault) => return Err(file_refusal(0, fault)),
    };
    match formula_in(alloc, shelf, files.1, MOST_QUANTIFIERS, names) {
        Ok(second) => related(alloc, relation, &first, &second, engine),
        Err(fault) => Err(file_refusal(1, fault)),
    }
}

/// Whether the formulas stand in the relation.
fn related(
    alloc: Global,
    relation: Relation,
    first: &Formula,
    second: &Formula,
    engine: Engine,
) -> Result<EaVerdict, Refusal<EaFault>>
    requires { IsInRange engine }
    ensures { IsRelated relation (plain_formula first.now) (plain_formula second.now) engine result }
{
    match (relation, engine) {
        (Relation::Implication, Engine::Branches { states }) => imply(alloc, first, second, states),
        (Relation::Equivalence, Engine::Branches { states }) => compare(
            alloc, first, second, states,
        ),
        (Relation::Implication, Engine::Circuit { ask }) => {
            imply_by_circuit(alloc, first, second, &ask)
        }
        (Relation::Equivalence, Engine::Circuit { ask }) => {
            compare_by_circuit(alloc, first, second, &ask)
        }
    }
}

/// Whether the first formula implies the second.
fn imply(
    alloc: Global,
    first: &Formula,
    second: &Formula,
    states: u32,
) -> Result<EaVerdict, Refusal<EaFault>>
    requires { states < 2 ^ 32 - 1 }
    ensures { IsRelated Relation.Implication (plain_formula first.now) (plain_formula second.now)
        (Engine.Branches states) result }
{
    match implies(alloc, first, second, states) {
        Ok(Decision::Sat(list)) => Ok(EaVerdict::NotImplied { list }),
        Ok(Decision::Unsat(proof)) => Ok(EaVerdict::Implied { proof }),
        Err(error) => Err(decision_refusal(error, states)),
    }
}

/// Whether the formulas are equivalent.
fn compare(
    alloc: Global,
    first: &Formula,
    second: &Formula,
    states: u32,
) -> Result<EaVerdict, Refusal<EaFault>>
    requires { states < 2 ^ 32 - 1 }
    ensures { IsRelated Relation.Equivalence (plain_formula first.now) (plain_formula second.now)
        (Engine.Branches states) result }
{
    match equivalent(alloc, first, second, states) {
        Ok(Both::Same(first, second)) => Ok(EaVerdict::Equivalent { first, second }),
        Ok(Both::First(list)) => Ok(EaVerdict::NotEquivalent { side: 0, list }),
        Ok(Both::Second(list)) => Ok(EaVerdict::NotEquivalent { side: 1, list }),
        Err(error) => Err(decision_refusal(error, states)),
    }
}
