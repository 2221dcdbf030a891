//! Whether a formula is satisfiable, and what is answered for an error of a decision.

ghost use Rattle.std.specs.Prelude.{◌≡◌, ◌<◌, ◌-◌, ◌^◌, ◌∷◌, [], Bool};
ghost use Rattle.hy_base.specs.Shelf.{KeepsShelf};
ghost use Rattle.hy_formula.specs.Formulas.{plain_formula};
ghost use Rattle.hy_run.specs.Runs.{Follows};
ghost use Rattle.ea_tool.specs.Deciding.{IsDecision, decision_refusal};
ghost use Rattle.ea_tool.specs.Rules.{ea_rules};
ghost use Rattle.ea_tool.specs.Words.{IsInRange};

use crate::circuits::decide_by_circuit;
use crate::verdict::{EaFault, EaVerdict, Engine, Question};
use ea_core::{Decision, EaError};
use hy_base::Shelf;
use hy_files::formula_in;
use hy_formula::{Formula, NameTable};
use hy_run::{Refusal, file_refusal};
use std::alloc::Global;

/// Most quantifiers of a formula.
pub const MOST_QUANTIFIERS: u8 = 8;

/// Whether a formula is satisfiable, by an engine. Its names are added to the empty table.
pub fn decide<S: Shelf>(
    alloc: Global,
    shelf: &mut S,
    formula: &str,
    engine: Engine,
    names: &mut NameTable,
) -> Result<EaVerdict, Refusal<EaFault>>
    requires empty { names.old ≡ [] }
    requires range { IsInRange engine }
    ensures keeps { KeepsShelf S.Shelf shelf.old shelf.new }
    ensures follows { (proof : Bool) → Follows ea_rules S.Shelf shelf.old shelf.new
        (Question.Decide engine proof) (formula.now ∷ []) names.new result }
{
    match formula_in(alloc, shelf, formula, MOST_QUANTIFIERS, names) {
        Ok(formula) => decide_formula(alloc, &formula, engine),
        Err(fault) => Err(file_refusal(0, fault)),
    }
}

/// Whether the formula is satisfiable.
fn decide_formula(
    alloc: Global,
    formula: &Formula,
    engine: Engine,
) -> Result<EaVerdict, Refusal<EaFault>>
    requires { IsInRange engine }
    ensures { IsDecision (plain_formula formula.now) engine result }
{
    match engine {
        Engine::Branches { states } => decide_by_branches(alloc, formula, states),
        Engine::Circuit { ask } => decide_by_circuit(alloc, formula, &ask),
    }
}

/// Whether the formula is satisfiable, by at most `states` branches.
fn decide_by_branches(
    alloc: Global,
    formula: &Formula,
    states: u32,
) -> Result<EaVerdict, Refusal<EaFault>>
    requires { states < 2 ^ 32 - 1 }
    ensures { IsDecision (plain_formula formula.now) (Engine.Branches states) result }
{
    match ea_core::decide(alloc, formula, states) {
        Ok(Decision::Sat(list)) => Ok(EaVerdict::Sat { list }),
        Ok(Decision::Unsat(proof)) => Ok(EaVerdict::Unsat { proof }),
        Err(error) => Err(decision_refusal(error, states)),
    }
}

/// How an error of a decision by at most `states` branches is answered.
pub fn decision_refusal(error: EaError, states: u32) -> Refusal<EaFault>
    ensures { result ≡ decision_refusal states error }
{
    match error {
        EaError::Prefix { second, class } => Refusal::Prefix {
            file: u8::from(second),
            class,
        },
        EaError::Limit(limit) => Refusal::Limit {
            kind: limit.kind,
            limit: limit.limit,
        },
        EaError::States => Refusal::Own(EaFault::States { n: states }),
        EaError::Memory => Refusal::Memory,
    }
}
