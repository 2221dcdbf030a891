//! A run: from words, a file and standard input to an answer, a text and a status.

ghost use Rattle.std.specs.Prelude.{◌≡◌, ◌⊎◌, [], ◌∷◌, ◌++◌, List, ℕ, IfOk, IfErr};
ghost use Rattle.hy_base.specs.Shelf.{KeepsShelf};
ghost use Rattle.hy_base.specs.Sink.{KeepsSink};
ghost use Rattle.hy_files.specs.ErrorLines.{Received, plain};
ghost use Rattle.hy_run.specs.Names.{texts};
ghost use Rattle.hy_run.specs.Runs.{IsWritten};
ghost use Rattle.rv_watch.specs.Courses.{WatchAnswer as Due};
ghost use Rattle.rv_watch.specs.Runs.{Comes, HasNoCommand, Names, ReceivesAll, error_line, out_text, status_of};
ghost use Rattle.rv_watch.specs.Words.{asks};

use crate::monitoring::monitor;
use crate::texts::{status_of, write_refusal};
use crate::verdict::{Question, WatchAnswer, WatchFault};
use crate::words::{Order, order_of};
use hy_base::{Memory, Shelf, Sink, SinkFailed, write_all};
use hy_formula::NameTable;
use hy_run::{Refusal, Tool};
use rv_tool::RvHyper;
use std::alloc::Global;

/// The end of a run: its exit status, and what it answered.
#[derive(Drop)]
pub struct Done {
    pub status: u8,
    pub answer: WatchAnswer,
}

/// Runs a watch: reads the file of formulas that `words` name, and then watches standard input, which
/// the shelf has under the name `-`. Writes lines of counts to `err` on the way, where the words ask
/// for them; then the text of the answer to `out`, or its error line to `err`; and gives the exit
/// status with the answer.
///
/// Each line of standard input that ended in a piece is taken before the next piece is read, and the
/// first that is refused or brings a violation ends the run. A failing `err` changes no answer.
pub fn watch<S: Shelf, O: Sink, E: Sink>(
    alloc: Global,
    words: &[String],
    shelf: &mut S,
    out: &mut O,
    err: &mut E,
) -> Done
    ensures right { (due : Due) × (text : List ℕ) × (said names : List (List ℕ))
        × Comes S.Shelf (texts words.now) shelf.old shelf.new due text said
        × IsWritten O.Sink out.old out.new due text result.answer
        × Names (texts words.now) result.answer names
        × ReceivesAll E.Sink err.old err.new (said ++ error_line names result.answer ∷ []) }
    ensures status { result.status ≡ status_of result.answer }
    ensures keeps_shelf { KeepsShelf S.Shelf shelf.old shelf.new }
    ensures keeps_out { KeepsSink O.Sink out.old out.new }
    ensures keeps_err { KeepsSink E.Sink err.old err.new }
{
    let Ok(mut names) = NameTable::new(alloc) else {
        unreachable!()
    };
    match order_in(alloc, words) {
        Ok(order) => {
            let due = monitor(alloc, shelf, &order, &mut names, err);
            let answer = write_answer(alloc, order.question, &names, due, out);
            finish(answer, &[order.file, "-"], err)
        }
        Err(refusal) => finish(Err(refusal), &[], err),
    }
}

/// The command of the words, or why there is none.
fn order_in<'a>(alloc: Global, words: &'a [String]) -> Result<Order<'a>, Refusal<WatchFault>>
    ensures some { IfOk result (λ order.
        asks (texts words.entry.now) order.question order.file.now) }
    ensures none { IfErr result (λ refusal. ((refusal ≡ Refusal.Words)
        × HasNoCommand (texts words.entry.now)) ⊎ (refusal ≡ Refusal.Memory)) }
{
    match order_of(alloc, words) {
        Ok(Some(order)) => Ok(order),
        Ok(None) => Err(Refusal::Words),
        Err(Memory) => Err(Refusal::Memory),
    }
}

/// Writes the text of an answer to `out`, and gives the answer that then stands.
fn write_answer<O: Sink>(
    alloc: Global,
    question: Question,
    names: &NameTable,
    due: WatchAnswer,
    out: &mut O,
) -> WatchAnswer
    ensures keeps { KeepsSink O.Sink out.old out.new }
    ensures written { IsWritten O.Sink out.old out.new due (out_text question due) result }
{
    let verdict = match due {
        Ok(verdict) => verdict,
        Err(refusal) => return Err(refusal),
    };
    let shown = rv_tool::Question::Monitor {
        lengths: question.lengths,
        drop: question.drop,
    };
    let text = match RvHyper.text(alloc, shown, names, &verdict) {
        Ok(text) => text,
        Err(Memory) => return Err(Refusal::Memory),
    };
    match write_all(out, text.as_slice()) {
        Ok(()) => Ok(verdict),
        Err(SinkFailed) => Err(Refusal::Write),
    }
}

/// Ends a run whose command has files of these names: writes the error line of its answer, and gives
/// its status. That a put fails changes nothing but the sink.
fn finish<E: Sink>(answer: WatchAnswer, files: &[&str], err: &mut E) -> Done
    ensures answer { result.answer ≡ answer }
    ensures status { result.status ≡ status_of answer }
    ensures err { Received E.Sink err.old err.new (error_line (plain files.now) answer) }
    ensures keeps { KeepsSink E.Sink err.old err.new }
{
    let status = match &answer {
        Ok(verdict) => RvHyper.status(verdict),
        Err(refusal) => {
            let _ = write_refusal(refusal, files, err);
            status_of(refusal)
        }
    };
    Done { status, answer }
}
