//! Laws of what `rvhyper` answers. The functions are empty: their contracts are the laws.

ghost use Rattle.std.specs.Prelude.{◌≡◌, ◌⊎◌, ◌∷◌, [], ℕ, Bool, List, Err, length};
ghost use Rattle.hy_base.specs.Shelf.{Read};
ghost use Rattle.hy_finite.specs.declared.event.Placed.{Placed};
ghost use Rattle.hy_finite.specs.declared.lengths.Lengths.{Lengths};
ghost use Rattle.hy_formula.specs.Formulas.{Plain};
ghost use Rattle.fin_monitor.specs.Limits.{IsTaken};
ghost use Rattle.rv_core.specs.Endings.{Spec};
ghost use Rattle.hy_files.specs.Contents.{AreSpecs};
ghost use Rattle.hy_run.specs.Laws.{AgreeOrShort, AreSettled, AreTexts};
ghost use Rattle.hy_run.specs.Names.{Text};
ghost use Rattle.hy_run.specs.Reads.{GaveOnly, HaveBytes};
ghost use Rattle.hy_run.specs.Runs.{Comes, Decides, Follows, out_text};
ghost use Rattle.rv_tool.specs.Agreeing.{AgreeUncounted};
ghost use Rattle.rv_tool.specs.Monitoring.{AreUniversal, EachPlain, EventsCome, RvAnswer, specs_of};
ghost use Rattle.rv_tool.specs.Monitoring.{ComesTo as EventsComeTo};
ghost use Rattle.rv_tool.specs.Rules.{AreEvents, ComesTo, lengths_of, rv_rules};
ghost use Rattle.rv_tool.specs.Texts.{drops};
ghost use Rattle.rv_tool.specs.Words.{asks};

use crate::tool::RvHyper;
use crate::verdict::Question;
use hy_base::Shelf;
use hy_run::Refusal;

/// What the reads gave has one answer, and so have the same bytes of files; save that violations may
/// name different tuples, and but for want of memory.
pub fn one_answer()
    ensures reads { (question : Question) (files : List Text) (given : List Read)
        (names others : List Text) (a b : RvAnswer)
        → Decides rv_rules question files given names a
        → Decides rv_rules question files given others b → AgreeOrShort rv_rules a b }
    ensures bytes { (question : Question) (files : List Text) (contents : List (List ℕ))
        (given other : List Read) (names others : List Text) (a b : RvAnswer)
        → GaveOnly given contents → GaveOnly other contents
        → Decides rv_rules question files given names a
        → Decides rv_rules question files other others b → AgreeOrShort rv_rules a b }
{
    settled();
    hy_run::laws::one_answer::<RvHyper>();
}

/// Where the reads gave nothing but the bytes of files that are texts, the answer is what the question
/// comes to by them; and where the formulas are universal and none is too large, that is what the
/// events come to. Or memory ran out.
pub fn complete()
    ensures texts { (question : Question) (files : List Text) (contents : List (List ℕ))
        (given : List Read) (names others : List Text) (answer : RvAnswer)
        → length files ≡ length contents → GaveOnly given contents
        → AreTexts rv_rules question contents names
        → Decides rv_rules question files given others answer
        → (answer ≡ Err Refusal.Memory) ⊎ ComesTo question contents names answer }
    ensures events { (question : Question) (specs : List ℕ) (others : List (List ℕ))
        (names : List Text) (formulas : List Plain) (answer : RvAnswer)
        → AreSpecs 4 [] specs formulas names → AreUniversal formulas → EachPlain IsTaken formulas
        → ComesTo question (specs ∷ others) names answer → (answer ≡ Err Refusal.Memory)
        ⊎ EventsCome (lengths_of question) (drops question) (specs_of formulas)
        (AreEvents question others names) answer }
{
    settled();
    hy_run::laws::complete::<RvHyper>();
}

/// A run whose words are a command follows it, or memory ran out over the words. Where its shelf is
/// sound, tells its files and has those of the command, and these are texts, the answer is what the
/// question comes to by them; or memory ran out.
pub fn verdict<S: Shelf>()
    ensures follows { (words files : List Text) (question : Question) (old new : S)
        (answer : RvAnswer) (text : List ℕ) → asks words question files
        → Comes rv_rules S.Shelf words old new answer text
        → ((answer ≡ Err Refusal.Memory) × (text ≡ []) × (old ≡ new)) ⊎ ((names : List Text)
        × Follows rv_rules S.Shelf old new question files names answer
        × (text ≡ out_text rv_rules question names answer)) }
    ensures sound { (words files : List Text) (question : Question) (contents : List (List ℕ))
        (names : List Text) (old new : S) (answer : RvAnswer) (text : List ℕ)
        → asks words question files → S.tells old → S.is_sound old
        → HaveBytes (S.file old) files contents → AreTexts rv_rules question contents names
        → Comes rv_rules S.Shelf words old new answer text
        → (answer ≡ Err Refusal.Memory) ⊎ ComesTo question contents names answer }
{
    settled();
    hy_run::laws::verdict::<RvHyper, S>();
}

/// What events come to where dominated traces are dropped, and what they come to where none are, are
/// the same answers but for how many traces are kept.
pub fn dropping()
    ensures { (rule : Lengths) (drop other : Bool) (specs : List Spec) (events : List Placed)
        (a b : RvAnswer) → EventsComeTo rule drop specs events a
        → EventsComeTo rule other specs events b → AgreeUncounted a b }
{}

/// The rules are settled: words are one command, a file one text or refused by one fault, and a
/// question comes to one answer.
fn settled()
    ensures { AreSettled rv_rules }
{}
