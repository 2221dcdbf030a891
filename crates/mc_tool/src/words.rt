//! Which words ask which question.

ghost use Rattle.std.specs.Prelude.{◌≡◌, List, IfOk, IfSome, IfNone, map};
ghost use Rattle.hy_run.specs.Names.{Text, names_in, texts};
ghost use Rattle.hy_words.specs.Found.{Tells, found_files};
ghost use Rattle.hy_words.specs.Words.{Item};
ghost use Rattle.mc_tool.specs.Words.{Asks, IsAsk, Orders, mc_syntax, usual_depth};

use crate::verdict::Question;
use hy_base::M;
use hy_run::{FileNames, Order};
use hy_words::{Found, Syntax, found_in, number_or};
use mc_core::Ask;
use std::alloc::Global;

/// The command that the words are, if any. In time linear in the words.
///
/// ```text
/// mchyper    [--depth K] [--conflicts N] [--plain | --ic3 N] [--proof] CIRCUIT FORMULA
/// mchyper    [--depth K] [--conflicts N] [--plain | --ic3 N] --strategy FILE CIRCUIT FORMULA
/// ```
/// The numbers of steps, of conflicts and of calls are in the ranges that `Question` gives, and 64,
/// 100,000 and 0 where they are not given, but 10 steps beside `--ic3`. Beside `--strategy` there is
/// no `--proof`, and beside `--ic3` no `--plain`.
pub fn order_of<'a>(alloc: Global, words: &'a [String]) -> M<Option<Order<'a, Question>>>
    ensures some { IfOk result (λ found. IfSome found (λ order.
        Asks (texts words.entry.now) order.question (names_in order.files))) }
    ensures none { IfOk result (λ found. IfNone found ((question : Question) (files : List Text)
        → ¬ Asks (texts words.entry.now) question files)) }
{
    let syntax = Syntax {
        flags: &["plain", "proof"],
        options: &["depth", "conflicts", "ic3", "strategy"],
    };
    match found_in(alloc, syntax, words)? {
        Some(found) => Ok(ordered(found.files().unwrap_or(&[]), &found)),
        None => Ok(None),
    }
}

/// The command that was found in words, of files of these names, if any.
fn ordered<'a>(files: &[&'a str], found: &Found<'a>) -> Option<Order<'a, Question>>
    requires { map (λ name. name.now) files.now ≡ found_files found.now }
    ensures some { IfSome result (λ order. (items : List Item) → Tells mc_syntax items found.now
        → Orders items order.question (names_in order.files)) }
    ensures none { IfNone result ((items : List Item) (question : Question) (names : List Text)
        → Tells mc_syntax items found.now → ¬ Orders items question names) }
{
    let &[circuit, formula] = files else {
        return None;
    };
    let ask = ask_in(found)?;
    let strategy = found.value("strategy");
    let proof = found.has("proof");
    match (strategy, proof) {
        (None, _) => Some(Order {
            question: Question::Check { ask, proof },
            files: FileNames::two(circuit, formula),
        }),
        (Some(strategy), false) => Some(Order {
            question: Question::CheckByStrategy { ask },
            files: FileNames::three(circuit, formula, strategy),
        }),
        (Some(_), true) => None,
    }
}

/// How much is to be tried, if what was found says it.
fn ask_in(found: &Found<'_>) -> Option<Ask>
    ensures some { IfSome result (λ ask. (items : List Item) → Tells mc_syntax items found.now
        → IsAsk items ask) }
    ensures none { IfNone result ((items : List Item) (ask : Ask) → Tells mc_syntax items found.now
        → ¬ IsAsk items ask) }
{
    let calls = number_or(0, found.value("ic3"), 1, 1_000_000)?;
    let depth = number_or(usual_depth(calls), found.value("depth"), 0, 100_000)?;
    let conflicts = number_or(100_000, found.value("conflicts"), 0, 1_000_000_000)?;
    let plain = found.has("plain");
    if plain && calls > 0 {
        return None;
    }
    Some(Ask {
        depth,
        conflicts,
        plain,
        calls,
    })
}

/// The depth where none is given, beside so many calls of the solver in a search for clauses.
fn usual_depth(calls: u32) -> u32
    ensures { result ≡ usual_depth calls }
{
    if calls == 0 { 64 } else { 10 }
}
