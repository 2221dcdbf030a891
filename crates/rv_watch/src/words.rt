//! Which words ask which question.

ghost use Rattle.std.specs.Prelude.{◌≡◌, ℕ, List, Option, IfOk, IfSome, IfNone, map};
ghost use Rattle.hy_words.specs.Found.{Tells, found_files, listed_slice};
ghost use Rattle.hy_words.specs.Words.{Item};
ghost use Rattle.hy_run.specs.Names.{Text, texts};
ghost use Rattle.rv_watch.specs.Runs.{HasNoCommand};
ghost use Rattle.rv_watch.specs.Words.{IsEvery, Orders, asks, watch_syntax};
ghost use Rattle.rv_watch.specs.declared.verdict.Question.{Question as Asked};

use crate::verdict::Question;
use hy_base::M;
use hy_words::{Found, Syntax, found_in, number_in};
use rv_tool::rule_of;
use std::alloc::Global;

/// A command: what is asked, and the name of the file of formulas.
#[derive(Clone, Copy)]
pub struct Order<'a> {
    pub question: Question,
    pub file: &'a str,
}

/// The command that the words are, if any. In time linear in the words.
///
/// ```text
/// rvwatch    [--drop] [--lengths min|pad] [--count N] SPECS
/// ```
/// SPECS is not `-`, and N is from 1 to 1,000,000,000. Without a rule of lengths tuples are judged on
/// the least length.
pub fn order_of<'a>(alloc: Global, words: &'a [String]) -> M<Option<Order<'a>>>
    ensures some { IfOk result (λ found. IfSome found (λ order.
        asks (texts words.entry.now) order.question order.file.now)) }
    ensures none { IfOk result (λ found. IfNone found (HasNoCommand (texts words.entry.now))) }
{
    let syntax = Syntax {
        flags: &["drop"],
        options: &["lengths", "count"],
    };
    match found_in(alloc, syntax, words)? {
        Some(found) => Ok(ordered(found.files().unwrap_or(&[]), &found)),
        None => Ok(None),
    }
}

/// The command that was found in words, of files of these names, if any.
fn ordered<'a>(files: &[&'a str], found: &Found<'a>) -> Option<Order<'a>>
    requires { map (λ name. name.now) files.now ≡ found_files found.now }
    ensures some { IfSome result (λ order. (items : List Item) → Tells watch_syntax items found.now
        → Orders items order.question order.file.now) }
    ensures none { IfNone result ((items : List Item) (question : Asked) (file : Text)
        → Tells watch_syntax items found.now → ¬ Orders items question file) }
{
    let lengths = rule_of(found.value("lengths"))?;
    let drop = found.has("drop");
    let every = every_of(found.value("count"))?;
    let &[file] = files else {
        return None;
    };
    if file == "-" {
        return None;
    }
    let question = Question {
        lengths,
        drop,
        every,
    };
    Some(Order { question, file })
}

/// How many arrivals stand between two lines of counts, as a text says; there are none for no text.
fn every_of(text: Option<&str>) -> Option<Option<u32>>
    ensures some { IfSome result (IsEvery (listed_slice text.entry)) }
    ensures none { IfNone result ((every : Option ℕ) → ¬ IsEvery (listed_slice text.entry) every) }
{
    match text {
        None => Some(None),
        Some(text) => Some(Some(number_in(text, 1, 1_000_000_000)?)),
    }
}
