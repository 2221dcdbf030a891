//! Which words ask which question.

ghost use Rattle.std.specs.Prelude.{◌≡◌, List, IfOk, IfSome, IfNone, map};
ghost use Rattle.hy_words.specs.Found.{Tells, found_files, listed_slice};
ghost use Rattle.hy_words.specs.Words.{Item};
ghost use Rattle.hy_run.specs.Names.{Text, names_in, texts};
ghost use Rattle.rv_tool.specs.Words.{IsRule, Orders, asks, rv_syntax};

use crate::verdict::Question;
use hy_base::M;
use hy_finite::Lengths;
use hy_run::{FileNames, Order};
use hy_words::{Found, Syntax, found_in, number_in};
use std::alloc::Global;

/// The command that the words are, if any. In time linear in the words.
///
/// ```text
/// rvhyper    [--drop] [--lengths min|pad] SPECS TRACES
/// rvhyper    [--drop] [--lengths min|pad] --make N SPECS
/// ```
/// N is from 1 to 1,000,000. Without a rule of lengths tuples are judged on the least length.
pub fn order_of<'a>(alloc: Global, words: &'a [String]) -> M<Option<Order<'a, Question>>>
    ensures some { IfOk result (λ found. IfSome found (λ order.
        asks (texts words.entry.now) order.question (names_in order.files))) }
    ensures none { IfOk result (λ found. IfNone found ((question : Question) (files : List Text)
        → ¬ asks (texts words.entry.now) question files)) }
{
    let syntax = Syntax {
        flags: &["drop"],
        options: &["lengths", "make"],
    };
    match found_in(alloc, syntax, words)? {
        Some(found) => Ok(ordered(found.files().unwrap_or(&[]), &found)),
        None => Ok(None),
    }
}

/// The command that was found in words, of files of these names, if any.
fn ordered<'a>(files: &[&'a str], found: &Found<'a>) -> Option<Order<'a, Question>>
    requires { map (λ name. name.now) files.now ≡ found_files found.now }
    ensures some { IfSome result (λ order. (items : List Item) → Tells rv_syntax items found.now
        → Orders items order.question (names_in order.files)) }
    ensures none { IfNone result ((items : List Item) (question : Question) (names : List Text)
        → Tells rv_syntax items found.now → ¬ Orders items question names) }
{
    let lengths = rule_of(found.value("lengths"))?;
    let drop = found.has("drop");
    match (files, found.value("make")) {
        (&[specs, traces], None) => Some(Order {
            question: Question::Monitor { lengths, drop },
            files: FileNames::two(specs, traces),
        }),
        (&[specs], Some(given)) => {
            let count = number_in(given, 1, 1_000_000)?;
            Some(Order {
                question: Question::MonitorMade {
                    count,
                    lengths,
                    drop,
                },
                files: FileNames::one(specs),
            })
        }
        _ => None,
    }
}

/// The rule of lengths that a text names; that of the least length for no text.
pub fn rule_of(text: Option<&str>) -> Option<Lengths>
    ensures some { IfSome result (IsRule (listed_slice text.entry)) }
    ensures none { IfNone result ((rule : Lengths) → ¬ IsRule (listed_slice text.entry) rule) }
{
    match text {
        None | Some("min") => Some(Lengths::Min),
        Some("pad") => Some(Lengths::Pad),
        Some(_) => None,
    }
}
