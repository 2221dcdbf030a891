//! Laws of what is answered to certificates. The functions are empty but for calls: their contracts
//! are the laws.

ghost use Rattle.std.specs.Prelude.{◌≡◌, ◌⊎◌, [], ℕ, List, Ok, Err, length};
ghost use Rattle.hy_base.specs.Shelf.{Read};
ghost use Rattle.cert_text.specs.Certificates.{Certificate};
ghost use Rattle.cert_text.specs.declared.question.Question.{Question};
ghost use Rattle.claim_check.specs.Claims.{Claim};
ghost use Rattle.hy_run.specs.Laws.{AgreeOrShort, AreSettled, AreTexts};
ghost use Rattle.hy_run.specs.Names.{Text};
ghost use Rattle.hy_run.specs.Reads.{GaveOnly, HaveBytes};
ghost use Rattle.hy_run.specs.Runs.{Answer, Comes, Decides, Follows, out_text};
ghost use Rattle.hy_check.specs.Ready.{IsDue, IsReady};
ghost use Rattle.hy_check.specs.Rules.{ComesTo, check_rules};
ghost use Rattle.hy_check.specs.Shown.{IsAccepted, IsRejected};
ghost use Rattle.hy_check.specs.Words.{IsCommand};

use crate::answer::{CertFault, CheckVerdict};
use crate::tool::HyCheck;
use aiger_read::laws::text_is_net;
use cert_text::laws::{one_certificate, one_fault};
use circuit_files::laws::one_circuit;
use claim_check::laws::{one_verdict, truth_of_circuits, truth_of_formulas};
use hy_base::Shelf;
use hy_files::laws::one_text;
use hy_read::formulas_are_over_names;
use hy_run::Refusal;

/// Words are one command.
pub fn one_command()
    ensures { (words files others : List Text) (question other : Question)
        → IsCommand words question files → IsCommand words other others
        → (question ≡ other) × (files ≡ others) }
{}

/// The rules are settled, by the laws of formulas, of circuits and of certificates.
fn settled()
    ensures { AreSettled check_rules }
{
    one_command();
    one_text();
    one_circuit();
    one_verdict();
}

/// Nothing stands before the judgement of a certificate where the files are ready for it: then whether
/// it is good answers, or a limit that is passed, or memory ran out.
fn due()
    ensures { (question : Question) (files : List (List ℕ)) (table : List Text) (claim : Claim)
        (c : Certificate) (answer : Answer CheckVerdict CertFault)
        → IsReady question files table claim c → ComesTo question files table answer
        → IsDue table claim c answer }
{
    one_text();
    one_circuit();
    one_certificate();
    one_fault();
}

/// What the reads gave has one answer, and so have the same bytes of files; but for want of memory and
/// for queries that are past a limit.
pub fn one_answer()
    ensures reads { (question : Question) (files : List Text) (given : List Read)
        (names others : List Text) (a b : Answer CheckVerdict CertFault)
        → Decides check_rules question files given names a
        → Decides check_rules question files given others b → AgreeOrShort check_rules a b }
    ensures bytes { (question : Question) (files : List Text) (contents : List (List ℕ))
        (given other : List Read) (names others : List Text) (a b : Answer CheckVerdict CertFault)
        → GaveOnly given contents → GaveOnly other contents
        → Decides check_rules question files given names a
        → Decides check_rules question files other others b → AgreeOrShort check_rules a b }
{
    settled();
    hy_run::laws::one_answer::<HyCheck>();
}

/// Where the reads gave nothing but the bytes of files that are texts, the answer is what the question
/// comes to by them; and where these make a claim whose classes are taken and whose names are found,
/// and the last is a certificate text, it is whether that is good, or a limit that is passed; or memory
/// ran out.
pub fn complete()
    ensures files { (question : Question) (files : List Text) (contents : List (List ℕ))
        (given : List Read) (names others : List Text) (answer : Answer CheckVerdict CertFault)
        → length files ≡ length contents → GaveOnly given contents
        → AreTexts check_rules question contents names
        → Decides check_rules question files given others answer
        → (answer ≡ Err Refusal.Memory) ⊎ ComesTo question contents names answer }
    ensures certificate { (question : Question) (files : List Text) (contents : List (List ℕ))
        (table others : List Text) (claim : Claim) (c : Certificate) (given : List Read)
        (answer : Answer CheckVerdict CertFault) → IsReady question contents table claim c
        → length files ≡ length contents → GaveOnly given contents
        → Decides check_rules question files given others answer → IsDue table claim c answer }
{
    settled();
    due();
    hy_run::laws::complete::<HyCheck>();
}

/// A run whose words are a command follows it, or memory ran out over the words. Where its shelf is
/// sound, tells its files and has those of the command, where these are texts, the classes are taken
/// and the names are found, it gives a verdict; or a limit is passed, or memory ran out.
pub fn verdict<S: Shelf>()
    ensures follows { (words files : List Text) (question : Question) (old new : S)
        (answer : Answer CheckVerdict CertFault) (text : List ℕ) → IsCommand words question files
        → Comes check_rules S.Shelf words old new answer text
        → ((answer ≡ Err Refusal.Memory) × (text ≡ []) × (old ≡ new)) ⊎ ((names : List Text)
        × Follows check_rules S.Shelf old new question files names answer
        × (text ≡ out_text check_rules question names answer)) }
    ensures sound { (words files : List Text) (question : Question) (contents : List (List ℕ))
        (table : List Text) (claim : Claim) (c : Certificate) (old new : S)
        (answer : Answer CheckVerdict CertFault) (text : List ℕ) → IsCommand words question files
        → S.tells old → S.is_sound old → HaveBytes (S.file old) files contents
        → IsReady question contents table claim c
        → Comes check_rules S.Shelf words old new answer text → IsDue table claim c answer }
{
    settled();
    due();
    hy_run::laws::verdict::<HyCheck, S>();
}

/// What an answer shows: that the certificate which was read is good and what it says is so, or that
/// it is not good.
pub fn what_is_shown<S: Shelf>()
    ensures accepted { (words : List Text) (old new : S) (text : List ℕ)
        → Comes check_rules S.Shelf words old new (Ok CheckVerdict.Accepted) text
        → IsAccepted S.Shelf words old new }
    ensures rejected { (words : List Text) (old new : S) (text : List ℕ)
        → Comes check_rules S.Shelf words old new (Ok CheckVerdict.Rejected) text
        → IsRejected S.Shelf words old new }
{
    text_is_net();
    formulas_are_over_names();
    truth_of_formulas();
    truth_of_circuits();
}
