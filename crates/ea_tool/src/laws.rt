//! Laws of what `eahyper` answers. The functions are empty but for calls of laws below: their contracts
//! are the laws.

ghost use Rattle.std.specs.Prelude.{◌≡◌, ◌⊎◌, ◌∷◌, [], ℕ, Ok, Err, List, length};
ghost use Rattle.hy_base.specs.Shelf.{Read};
ghost use Rattle.hy_bits.specs.Letter.{Letter};
ghost use Rattle.hy_formula.specs.Formulas.{Plain};
ghost use Rattle.hy_formula.specs.Lassos.{Lasso};
ghost use Rattle.hy_formula.specs.Quantifiers.{Each};
ghost use Rattle.hy_formula.specs.Trees.{Tree};
ghost use Rattle.hy_formula.specs.declared.prefix.Quant.{Quant};
ghost use Rattle.hy_lasso.specs.Joint.{IsJudged};
ghost use Rattle.hy_lasso.specs.Words.{Satisfies};
ghost use Rattle.ea_core.specs.Undecided.{IsCounted};
ghost use Rattle.hy_run.specs.Classes.{AreTaken, by_class, is_decided, is_of_one_kind};
ghost use Rattle.hy_run.specs.Laws.{AgreeOrShort, AreSettled, AreTexts};
ghost use Rattle.hy_run.specs.Names.{Text};
ghost use Rattle.hy_run.specs.Reads.{GaveOnly, HaveBytes};
ghost use Rattle.hy_run.specs.Runs.{Answer, Comes, Decides, Follows, out_text};
ghost use Rattle.hy_run.specs.declared.refusal.Refusal.TheVariants.{Memory};
ghost use Rattle.ea_tool.specs.Deciding.{DecidesBy, IsDecision, IsRelated, Relates, plan_of, plans_between};
ghost use Rattle.ea_tool.specs.Judging.{IsJudgement};
ghost use Rattle.ea_tool.specs.Rules.{ComesTo, ea_rules};
ghost use Rattle.ea_tool.specs.Words.{AsksFor};

use crate::tool::EaHyper;
use crate::verdict::{EaFault, EaVerdict, Engine, Question, Relation};
use hy_base::Shelf;
use hy_files::laws::one_text;
use hy_words::laws::one_reading;

/// What the reads gave has one answer, and so have the same bytes of files; but for want of memory.
/// Lassos and proofs that show it may be others, and a search within a bound may give up where another
/// goes on, but no two deny each other.
pub fn one_answer()
    ensures reads { (question : Question) (files : List Text) (given : List Read)
        (names others : List Text) (a b : Answer EaVerdict EaFault)
        → Decides ea_rules question files given names a
        → Decides ea_rules question files given others b → AgreeOrShort ea_rules a b }
    ensures bytes { (question : Question) (files : List Text) (contents : List (List ℕ))
        (given other : List Read) (names others : List Text) (a b : Answer EaVerdict EaFault)
        → GaveOnly given contents → GaveOnly other contents
        → Decides ea_rules question files given names a
        → Decides ea_rules question files other others b → AgreeOrShort ea_rules a b }
{
    settled();
    hy_run::laws::one_answer::<EaHyper>();
}

/// Where the reads gave nothing but the bytes of files that are texts, the answer is what the question
/// comes to by them. Where the classes of formulas are taken and their plans within the counts, that
/// is what is decided; where the lassos of a list repeat together soon enough, it is judged; and
/// before a search within a bound nothing stands but its own limits. Or memory ran out.
pub fn complete()
    ensures texts { (question : Question) (files : List Text) (contents : List (List ℕ))
        (given : List Read) (names others : List Text) (answer : Answer EaVerdict EaFault)
        → length files ≡ length contents → GaveOnly given contents
        → AreTexts ea_rules question contents names
        → Decides ea_rules question files given others answer
        → (answer ≡ Err Memory) ⊎ ComesTo question contents names answer }
    ensures decided { (f : Plain) (engine : Engine) (answer : Answer EaVerdict EaFault)
        → AreTaken (by_class is_decided) (f ∷ []) → IsCounted (plan_of f)
        → IsDecision f engine answer → (answer ≡ Err Memory) ⊎ DecidesBy f engine answer }
    ensures related { (relation : Relation) (f g : Plain) (engine : Engine)
        (answer : Answer EaVerdict EaFault) → AreTaken (by_class is_of_one_kind) (f ∷ g ∷ [])
        → Each IsCounted (plans_between relation f g) → IsRelated relation f g engine answer
        → (answer ≡ Err Memory) ⊎ Relates relation f g engine answer }
    ensures judged { (prefix : List Quant) (body : Tree) (list : List (Lasso Letter))
        (answer : Answer EaVerdict EaFault) → IsJudged list → IsJudgement prefix body list answer
        → (answer ≡ Err Memory) ⊎ ((answer ≡ Ok EaVerdict.OnTrue) × Satisfies list prefix body)
        ⊎ ((answer ≡ Ok EaVerdict.OnFalse) × (¬ Satisfies list prefix body)) }
{
    settled();
    hy_run::laws::complete::<EaHyper>();
}

/// A run whose words are a command follows it, or memory ran out over the words. Where its shelf is
/// sound, tells its files and has those of the command, and these are texts, the answer is what the
/// question comes to by them; or memory ran out.
pub fn verdict<S: Shelf>()
    ensures follows { (words files : List Text) (question : Question) (old new : S)
        (answer : Answer EaVerdict EaFault) (text : List ℕ) → AsksFor words question files
        → Comes ea_rules S.Shelf words old new answer text
        → ((answer ≡ Err Memory) × (text ≡ []) × (old ≡ new)) ⊎ ((names : List Text)
        × Follows ea_rules S.Shelf old new question files names answer
        × (text ≡ out_text ea_rules question names answer)) }
    ensures sound { (words files : List Text) (question : Question) (contents : List (List ℕ))
        (names : List Text) (old new : S) (answer : Answer EaVerdict EaFault) (text : List ℕ)
        → AsksFor words question files → S.tells old → S.is_sound old
        → HaveBytes (S.file old) files contents → AreTexts ea_rules question contents names
        → Comes ea_rules S.Shelf words old new answer text
        → (answer ≡ Err Memory) ⊎ ComesTo question contents names answer }
{
    settled();
    hy_run::laws::verdict::<EaHyper, S>();
}

/// The rules are settled, by the laws of words, of formulas and of lassos.
fn settled()
    ensures { AreSettled ea_rules }
{
    one_reading();
    one_text();
    hy_lasso::laws::one_answer();
}
