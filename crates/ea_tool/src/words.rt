//! Which words ask which question.

ghost use Rattle.std.specs.Prelude.{◌≡◌, ◌∷◌, [], IfOk, IfSome, IfNone, codes};
ghost use Rattle.bound_search.specs.Bounds.{IsBound};
ghost use Rattle.hy_words.specs.Found.{found_files, found_value};
ghost use Rattle.hy_run.specs.Names.{names_in, texts};
ghost use Rattle.hy_run.specs.Runs.{HasNoCommand};
ghost use Rattle.ea_tool.specs.Rules.{ea_rules};
ghost use Rattle.ea_tool.specs.Words.{AsksFor, TellsNothing, TellsOrder, bound_text};

use crate::bounds::bound_in;
use crate::engines::engine_in;
use crate::verdict::{Engine, Question, Relation};
use bound_search::Bound;
use hy_base::M;
use hy_run::{FileNames, Order};
use hy_words::{Found, Syntax, found_in, number_or};
use std::alloc::Global;

/// The command that the words are, if any. In time linear in the words.
///
/// ```text
/// eahyper    [--on FILE | --implies FILE | --equivalent FILE] [--proof] [--states N] FORMULA
/// eahyper    --ic3 CALLS [--depth K] [--conflicts N] [--implies FILE | --equivalent FILE] [--proof] FORMULA
/// eahyper    --bound T,S,L [--conflicts N] FORMULA
/// ```
/// The numbers are in the ranges that `Engine` and `Question` give, those of states and of conflicts
/// 100,000 and that of steps 10 where they are not given; beside `--on` neither `--states` nor
/// `--proof` changes anything. A bound is the most lassos, from 1 to 4, letters of a stem, from 0 to 8,
/// and letters of a cycle, from 1 to 4.
///
/// `Memory` where memory ran out.
pub fn order_of<'a>(alloc: Global, words: &'a [String]) -> M<Option<Order<'a, Question>>>
    ensures some { IfOk result (λ found. IfSome found (λ order.
        AsksFor (texts words.entry.now) order.question (names_in order.files))) }
    ensures none { IfOk result (λ found. IfNone found
        (HasNoCommand ea_rules (texts words.entry.now))) }
{
    let syntax = Syntax {
        flags: &["proof"],
        options: &[
            "on",
            "implies",
            "equivalent",
            "states",
            "bound",
            "conflicts",
            "ic3",
            "depth",
        ],
    };
    match found_in(alloc, syntax, words)? {
        Some(found) => Ok(ordered(&found)),
        None => Ok(None),
    }
}

/// The command that was found in words, if any.
fn ordered<'a>(found: &Found<'a>) -> Option<Order<'a, Question>>
    ensures some { IfSome result (λ order.
        TellsOrder found.now order.question (names_in order.files)) }
    ensures none { IfNone result (TellsNothing found.now) }
{
    let Some(&[formula]) = found.files() else {
        return None;
    };
    match found.value("bound") {
        None => asking(formula, found),
        Some(bound) => finding(formula, bound_in(bound)?, found),
    }
}

/// The question about a formula that the words ask, where they give no bound.
fn asking<'a>(formula: &'a str, found: &Found<'a>) -> Option<Order<'a, Question>>
    requires file { found_files found.now ≡ formula.now ∷ [] }
    requires unbounded { found_value found.now (codes "bound") ≡ [] }
    ensures some { IfSome result (λ order.
        TellsOrder found.now order.question (names_in order.files)) }
    ensures none { IfNone result (TellsNothing found.now) }
{
    let engine = engine_in(found)?;
    let proof = found.has("proof");
    let on = found.value("on");
    let implies = found.value("implies");
    let equivalent = found.value("equivalent");
    match (on, implies, equivalent, engine) {
        (None, None, None, _) => Some(Order {
            question: Question::Decide { engine, proof },
            files: FileNames::one(formula),
        }),
        (Some(lassos), None, None, Engine::Branches { .. }) => Some(Order {
            question: Question::Judge,
            files: FileNames::two(formula, lassos),
        }),
        (None, Some(second), None, _) => Some(Order {
            question: Question::Relate {
                relation: Relation::Implication,
                engine,
                proof,
            },
            files: FileNames::two(formula, second),
        }),
        (None, None, Some(second), _) => Some(Order {
            question: Question::Relate {
                relation: Relation::Equivalence,
                engine,
                proof,
            },
            files: FileNames::two(formula, second),
        }),
        _ => None,
    }
}

/// The search for lassos within the bound that the words ask for.
fn finding<'a>(formula: &'a str, bound: Bound, found: &Found<'a>) -> Option<Order<'a, Question>>
    requires file { found_files found.now ≡ formula.now ∷ [] }
    requires bounded { found_value found.now (codes "bound") ≡ bound_text bound ∷ [] }
    requires range { IsBound bound }
    ensures some { IfSome result (λ order.
        TellsOrder found.now order.question (names_in order.files)) }
    ensures none { IfNone result (TellsNothing found.now) }
{
    let conflicts = number_or(100_000, found.value("conflicts"), 0, 1_000_000_000)?;
    let on = found.value("on");
    let implies = found.value("implies");
    let equivalent = found.value("equivalent");
    let states = found.value("states");
    let ic3 = found.value("ic3");
    let depth = found.value("depth");
    let proof = found.has("proof");
    match (on, implies, equivalent, states, ic3, depth, proof) {
        (None, None, None, None, None, None, false) => Some(Order {
            question: Question::Find { bound, conflicts },
            files: FileNames::one(formula),
        }),
        _ => None,
    }
}
