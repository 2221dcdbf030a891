//! A run of a tool by its name: from words and files to an answer, a text and a status.

ghost use Rattle.std.specs.Prelude.{◌≡◌, List, ℕ};
ghost use Rattle.hy_base.specs.Shelf.{KeepsShelf};
ghost use Rattle.hy_base.specs.Sink.{KeepsSink};
ghost use Rattle.hy_files.specs.ErrorLines.{Received};
ghost use Rattle.hy_run.specs.Names.{Text, texts};
ghost use Rattle.hy_run.specs.Runs.{Comes, IsWritten, Names, error_line, status_of};
ghost use Rattle.hy_top.specs.Tools.{Said, Says, rules_of};

use crate::answer::Answer;
use crate::shown::{ea_answer, mc_answer, rv_answer};
use crate::tool::Tool;
use ea_tool::EaHyper;
use hy_base::{Shelf, Sink};
use mc_tool::McHyper;
use rv_tool::RvHyper;
use std::alloc::Global;

/// The end of a run: its exit status, and what it answered.
#[derive(Drop)]
pub struct Done {
    pub status: u8,
    pub answer: Answer,
}

/// Runs a tool: reads the files that `words` name on the shelf, answers, writes the text of the
/// answer to `out` or its error line to `err`, and gives the exit status with the answer.
///
/// Nothing is written before the answer is known, and a failing `err` changes no answer. What is right
/// for which words and files, and how it is written, stands in the rules of the tool.
pub fn run<S: Shelf, O: Sink, E: Sink>(
    alloc: Global,
    tool: Tool,
    words: &[String],
    shelf: &mut S,
    out: &mut O,
    err: &mut E,
) -> Done
    ensures right { Says tool result.answer (λ said. (due : Said tool) × (text : List ℕ)
        × Comes (rules_of tool) S.Shelf (texts words.now) shelf.old shelf.new due text
        × IsWritten O.Sink out.old out.new due text said) }
    ensures status { Says tool result.answer (λ said.
        result.status ≡ status_of (rules_of tool) said) }
    ensures err { Says tool result.answer (λ said. (names : List Text)
        × Names (rules_of tool) (texts words.now) said names
        × Received E.Sink err.old err.new (error_line (rules_of tool) names said)) }
    ensures keeps_shelf { KeepsShelf S.Shelf shelf.old shelf.new }
    ensures keeps_out { KeepsSink O.Sink out.old out.new }
    ensures keeps_err { KeepsSink E.Sink err.old err.new }
{
    match tool {
        Tool::EaHyper => {
            let done = hy_run::run(alloc, &EaHyper, words, shelf, out, err);
            Done {
                status: done.status,
                answer: ea_answer(alloc, done.answer),
            }
        }
        Tool::RvHyper => {
            let done = hy_run::run(alloc, &RvHyper, words, shelf, out, err);
            Done {
                status: done.status,
                answer: rv_answer(done.answer),
            }
        }
        Tool::McHyper => {
            let done = hy_run::run(alloc, &McHyper, words, shelf, out, err);
            Done {
                status: done.status,
                answer: mc_answer(done.answer),
            }
        }
    }
}
