//! What paths of a free circuit decide.

ghost use Rattle.std.specs.Prelude.{◌≡◌, ◌<◌, ◌^◌};
ghost use Rattle.hy_formula.specs.Formulas.{plain_formula};
ghost use Rattle.ea_tool.specs.Deciding.{IsDecision, IsRelated, circuit_refusal, compared_verdict, implied_verdict, open_verdict, settled_verdict};

use crate::verdict::{CircuitVerdict, EaFault, EaVerdict, Engine, Relation};
use ea_circuit::{CircuitError, Found, FoundBoth, Unknown, decide, equivalent, implies};
use hy_formula::Formula;
use hy_run::Refusal;
use mc_core::Ask;
use std::alloc::Global;

/// Whether the formula is satisfiable.
pub fn decide_by_circuit(
    alloc: Global,
    formula: &Formula,
    ask: &Ask,
) -> Result<EaVerdict, Refusal<EaFault>>
    requires { ask.now.conflicts < 2 ^ 31 }
    ensures { IsDecision (plain_formula formula.now) (Engine.Circuit ask.now) result }
{
    match decide(alloc, formula, ask) {
        Ok(found) => Ok(settled_verdict(ask, found)),
        Err(error) => Err(circuit_refusal(error)),
    }
}

/// Whether the first formula implies the second.
pub fn imply_by_circuit(
    alloc: Global,
    first: &Formula,
    second: &Formula,
    ask: &Ask,
) -> Result<EaVerdict, Refusal<EaFault>>
    requires { ask.now.conflicts < 2 ^ 31 }
    ensures { IsRelated Relation.Implication (plain_formula first.now) (plain_formula second.now)
        (Engine.Circuit ask.now) result }
{
    match implies(alloc, first, second, ask) {
        Ok(found) => Ok(implied_verdict(ask, found)),
        Err(error) => Err(circuit_refusal(error)),
    }
}

/// Whether the formulas are equivalent.
pub fn compare_by_circuit(
    alloc: Global,
    first: &Formula,
    second: &Formula,
    ask: &Ask,
) -> Result<EaVerdict, Refusal<EaFault>>
    requires { ask.now.conflicts < 2 ^ 31 }
    ensures { IsRelated Relation.Equivalence (plain_formula first.now) (plain_formula second.now)
        (Engine.Circuit ask.now) result }
{
    match equivalent(alloc, first, second, ask) {
        Ok(found) => Ok(compared_verdict(ask, found)),
        Err(error) => Err(circuit_refusal(error)),
    }
}

/// What is answered with what is found of a formula.
fn settled_verdict(ask: &Ask, found: Found) -> EaVerdict
    ensures { result ≡ settled_verdict ask.now found }
{
    match found {
        Found::Sat(list) => EaVerdict::Sat { list },
        Found::Unsat(proof) => EaVerdict::ByCircuit(CircuitVerdict::Unsat { proof }),
        Found::Unknown(unknown) => open_verdict(ask, unknown),
    }
}

/// What is answered with what is found of an implication.
fn implied_verdict(ask: &Ask, found: Found) -> EaVerdict
    ensures { result ≡ implied_verdict ask.now found }
{
    match found {
        Found::Sat(list) => EaVerdict::NotImplied { list },
        Found::Unsat(proof) => EaVerdict::ByCircuit(CircuitVerdict::Implied { proof }),
        Found::Unknown(unknown) => open_verdict(ask, unknown),
    }
}

/// What is answered with what is found of an equivalence.
fn compared_verdict(ask: &Ask, found: FoundBoth) -> EaVerdict
    ensures { result ≡ compared_verdict ask.now found }
{
    match found {
        FoundBoth::Same(first, second) => {
            EaVerdict::ByCircuit(CircuitVerdict::Equivalent { first, second })
        }
        FoundBoth::First(list) => EaVerdict::NotEquivalent { side: 0, list },
        FoundBoth::Second(list) => EaVerdict::NotEquivalent { side: 1, list },
        FoundBoth::Unknown(unknown) => open_verdict(ask, unknown),
    }
}

/// How a plan that is left open is answered.
fn open_verdict(ask: &Ask, unknown: Unknown) -> EaVerdict
    ensures { result ≡ open_verdict ask.now unknown }
{
    EaVerdict::ByCircuit(match unknown {
        Unknown::Depth { .. } => CircuitVerdict::UnknownDepth { depth: ask.depth },
        Unknown::Spent { .. } => CircuitVerdict::UnknownConflicts {
            conflicts: ask.conflicts,
        },
    })
}

/// How an error of such a decision is answered.
fn circuit_refusal(error: CircuitError) -> Refusal<EaFault>
    ensures { result ≡ circuit_refusal error }
{
    match error {
        CircuitError::Prefix { second, class } => Refusal::Prefix {
            file: u8::from(second),
            class,
        },
        CircuitError::Limit(limit) | CircuitError::Query { limit, .. } => Refusal::Limit {
            kind: limit.kind,
            limit: limit.limit,
        },
        CircuitError::Memory => Refusal::Memory,
    }
}
