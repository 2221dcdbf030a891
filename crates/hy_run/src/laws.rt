//! Laws of runs, for any tool whose rules are settled, and of what reads give. The functions are empty:
//! their contracts are the laws.

ghost use Rattle.std.specs.Prelude.{◌≡◌, ◌≢◌, ◌⊎◌, [], ℕ, Err, List, length};
ghost use Rattle.hy_base.specs.Counts.{last_count};
ghost use Rattle.hy_base.specs.Shelf.{Read, ReadsFiles};
ghost use Rattle.hy_formula.specs.Quantifiers.{Each};
ghost use Rattle.hy_run.specs.Laws.{AgreeOrShort, AreSettled, AreTexts};
ghost use Rattle.hy_run.specs.Names.{Text};
ghost use Rattle.hy_run.specs.Reads.{GaveOnly, HasNoFault, HaveBytes};
ghost use Rattle.hy_run.specs.Runs.{Answer, Comes, Decides, Follows, out_text};

use crate::refusal::Refusal;
use crate::tool::Tool;
use hy_base::Shelf;

/// What the reads gave has one answer, and so have the same bytes of files; but for want of memory.
pub fn one_answer<T: Tool>()
    ensures reads { AreSettled T.rules → (question : T.Question) (files : List Text)
        (given : List Read) (names others : List Text) (a b : Answer T.Verdict T.Fault)
        → Decides T.rules question files given names a
        → Decides T.rules question files given others b → AgreeOrShort T.rules a b }
    ensures bytes { AreSettled T.rules → (question : T.Question) (files : List Text)
        (contents : List (List ℕ)) (given other : List Read) (names others : List Text)
        (a b : Answer T.Verdict T.Fault) → GaveOnly given contents → GaveOnly other contents
        → Decides T.rules question files given names a
        → Decides T.rules question files other others b → AgreeOrShort T.rules a b }
{}

/// Where the reads gave nothing but the bytes of files that are texts, the answer is what the question
/// comes to by them; or memory ran out.
pub fn complete<T: Tool>()
    ensures { AreSettled T.rules → (question : T.Question) (files : List Text)
        (contents : List (List ℕ)) (given : List Read) (names others : List Text)
        (answer : Answer T.Verdict T.Fault) → length files ≡ length contents
        → GaveOnly given contents → AreTexts T.rules question contents names
        → Decides T.rules question files given others answer
        → (answer ≡ Err Refusal.Memory) ⊎ T.rules.comes question contents names answer }
{}

/// What reads give: the files' bytes on a sound shelf that tells them, or memory runs out; and where
/// no fault was counted none came.
pub fn what_reads_give<S: Shelf>()
    ensures sound { (names files : List (List ℕ)) (old new : S) (given : List Read) → S.tells old
        → S.is_sound old → HaveBytes (S.file old) names files
        → ReadsFiles S.Shelf old new names given → GaveOnly given files }
    ensures quiet { (names : List (List ℕ)) (old new : S) (given : List Read)
        → ReadsFiles S.Shelf old new names given
        → S.open_faults new ≡ S.open_faults old → S.open_faults new ≢ last_count
        → S.read_faults new ≡ S.read_faults old → S.read_faults new ≢ last_count
        → Each HasNoFault given }
{}

/// A run whose words are a command follows it, or memory ran out over the words. Where its shelf is
/// sound, tells its files and has those of the command, and these are texts, the answer is what the
/// question comes to by them; or memory ran out.
pub fn verdict<T: Tool, S: Shelf>()
    ensures follows { AreSettled T.rules → (words files : List Text) (question : T.Question)
        (old new : S) (answer : Answer T.Verdict T.Fault) (text : List ℕ)
        → T.rules.asks words question files → Comes T.rules S.Shelf words old new answer text
        → ((answer ≡ Err Refusal.Memory) × (text ≡ []) × (old ≡ new)) ⊎ ((names : List Text)
        × Follows T.rules S.Shelf old new question files names answer
        × (text ≡ out_text T.rules question names answer)) }
    ensures sound { AreSettled T.rules → (words files : List Text) (question : T.Question)
        (contents : List (List ℕ)) (names : List Text) (old new : S)
        (answer : Answer T.Verdict T.Fault) (text : List ℕ) → T.rules.asks words question files
        → S.tells old → S.is_sound old → HaveBytes (S.file old) files contents
        → AreTexts T.rules question contents names
        → Comes T.rules S.Shelf words old new answer text
        → (answer ≡ Err Refusal.Memory) ⊎ T.rules.comes question contents names answer }
{}
