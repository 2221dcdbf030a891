//! A run of the checker, in its own terms.

ghost use Rattle.std.specs.Prelude.{◌≡◌, List, ℕ};
ghost use Rattle.hy_base.specs.Shelf.{KeepsShelf};
ghost use Rattle.hy_base.specs.Sink.{KeepsSink};
ghost use Rattle.hy_files.specs.ErrorLines.{Received};
ghost use Rattle.hy_run.specs.Names.{texts};
ghost use Rattle.hy_run.specs.Runs.{Answer, Comes, IsWritten, Names, error_line, status_of};
ghost use Rattle.hy_check.specs.Answers.{said_by};
ghost use Rattle.hy_check.specs.Rules.{check_rules};

use crate::answer::{CertFault, CheckAnswer, CheckFault, CheckVerdict};
use crate::tool::HyCheck;
use hy_base::{Shelf, Sink};
use hy_run::{Done, run};
use std::alloc::Global;

/// The end of a run: its exit status, and what it answered.
#[derive(Drop)]
pub struct CheckDone {
    pub status: u8,
    pub answer: CheckAnswer,
}

/// Checks a certificate: reads the files that `words` name on the shelf, the certificate last, says
/// whether it is good for the claim that the others make, writes that to `out` or the error line of
/// another answer to `err`, and gives the exit status with the answer.
///
/// Nothing is written before the answer is known, and a failing `err` changes no answer. Beside the
/// reading of the files it takes the time and the memory of `certify`.
pub fn run_check<S: Shelf, O: Sink, E: Sink>(
    alloc: Global,
    words: &[String],
    shelf: &mut S,
    out: &mut O,
    err: &mut E,
) -> CheckDone
    ensures right { (due : Answer CheckVerdict CertFault) × (text : List ℕ)
        × Comes check_rules S.Shelf (texts words.now) shelf.old shelf.new due text
        × IsWritten O.Sink out.old out.new due text (said_by result.answer) }
    ensures status { result.status ≡ status_of check_rules (said_by result.answer) }
    ensures err { (names : List (List ℕ))
        × Names check_rules (texts words.now) (said_by result.answer) names
        × Received E.Sink err.old err.new (error_line check_rules names (said_by result.answer)) }
    ensures keeps_shelf { KeepsShelf S.Shelf shelf.old shelf.new }
    ensures keeps_out { KeepsSink O.Sink out.old out.new }
    ensures keeps_err { KeepsSink E.Sink err.old err.new }
{
    let Done { status, answer } = run(alloc, &HyCheck, words, shelf, out, err);
    CheckDone {
        status,
        answer: answer_of(answer),
    }
}

/// What a run answers that says this.
fn answer_of(said: Result<CheckVerdict, CheckFault>) -> CheckAnswer
    ensures { said_by result ≡ said }
{
    match said {
        Ok(CheckVerdict::Accepted) => CheckAnswer::Accepted,
        Ok(CheckVerdict::Rejected) => CheckAnswer::Rejected,
        Err(fault) => CheckAnswer::Refused(fault),
    }
}
