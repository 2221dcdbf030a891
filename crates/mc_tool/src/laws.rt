//! Laws of what `mchyper` answers. The functions are empty but for calls: their contracts are the laws.

ghost use Rattle.std.specs.Prelude.{◌≡◌, ◌⊎◌, [], ℕ, Err, List, length};
ghost use Rattle.hy_base.specs.Shelf.{Read};
ghost use Rattle.hy_formula.specs.Formulas.{Plain};
ghost use Rattle.aig_net.specs.Nets.{Net};
ghost use Rattle.mc_core.specs.declared.ask.Ask.{Ask};
ghost use Rattle.hy_run.specs.Laws.{AgreeOrShort, AreSettled, AreTexts};
ghost use Rattle.hy_run.specs.Names.{Text};
ghost use Rattle.hy_run.specs.Reads.{GaveOnly, HaveBytes};
ghost use Rattle.hy_run.specs.Runs.{Answer, Comes, Decides, Follows, out_text};
ghost use Rattle.mc_tool.specs.Checking.{IsCheck, IsCheckable, IsWork};
ghost use Rattle.mc_tool.specs.Driving.{IsDrivable, IsDrive, IsDriveWork};
ghost use Rattle.mc_tool.specs.Rules.{ComesTo, mc_rules};
ghost use Rattle.mc_tool.specs.Words.{Asks};

use crate::tool::McHyper;
use crate::verdict::{McFault, McVerdict, Question};
use circuit_files::laws::one_circuit;
use hy_base::Shelf;
use hy_files::laws::one_text;
use hy_run::Refusal;
use hy_words::laws::one_reading;

/// The rules are settled, by the laws of words, of formulas and of circuits.
fn settled()
    ensures { AreSettled mc_rules }
{
    one_reading();
    one_text();
    one_circuit();
}

/// What the reads gave has one answer, and so have the same bytes of files; but for want of memory. A
/// check may give up where another goes on, but no two deny each other.
pub fn one_answer()
    ensures reads { (question : Question) (files : List Text) (given : List Read)
        (names others : List Text) (a b : Answer McVerdict McFault)
        → Decides mc_rules question files given names a
        → Decides mc_rules question files given others b → AgreeOrShort mc_rules a b }
    ensures bytes { (question : Question) (files : List Text) (contents : List (List ℕ))
        (given other : List Read) (names others : List Text) (a b : Answer McVerdict McFault)
        → GaveOnly given contents → GaveOnly other contents
        → Decides mc_rules question files given names a
        → Decides mc_rules question files other others b → AgreeOrShort mc_rules a b }
{
    settled();
    hy_run::laws::one_answer::<McHyper>();
}

/// Where the reads gave nothing but the bytes of files that are texts, the answer is what the question
/// comes to by them; and where the formula is of a class that is taken, the counts are within their
/// limits, names stand for one literal each, and a strategy has its shape, that is what the work comes
/// to; or memory ran out.
pub fn complete()
    ensures files { (question : Question) (files : List Text) (contents : List (List ℕ))
        (given : List Read) (names others : List Text) (answer : Answer McVerdict McFault)
        → length files ≡ length contents → GaveOnly given contents
        → AreTexts mc_rules question contents names → Decides mc_rules question files given others answer
        → (answer ≡ Err Refusal.Memory) ⊎ ComesTo question contents names answer }
    ensures check { (net : Net) (names : List Text) (f : Plain) (ask : Ask)
        (answer : Answer McVerdict McFault) → IsCheckable net names f
        → IsCheck net names f ask answer
        → (answer ≡ Err Refusal.Memory) ⊎ IsWork net names f ask answer }
    ensures strategy { (net strategy : Net) (names : List Text) (f : Plain) (ask : Ask)
        (answer : Answer McVerdict McFault) → IsDrivable net strategy names f
        → IsDrive net strategy names f ask answer
        → (answer ≡ Err Refusal.Memory) ⊎ IsDriveWork net strategy names f ask answer }
{
    settled();
    hy_run::laws::complete::<McHyper>();
}

/// A run whose words are a command follows it, or memory ran out over the words. Where its shelf is
/// sound, tells its files and has those of the command, and these are texts, the answer is what the
/// question comes to by them; or memory ran out.
pub fn verdict<S: Shelf>()
    ensures follows { (words files : List Text) (question : Question) (old new : S)
        (answer : Answer McVerdict McFault) (text : List ℕ) → Asks words question files
        → Comes mc_rules S.Shelf words old new answer text
        → ((answer ≡ Err Refusal.Memory) × (text ≡ []) × (old ≡ new)) ⊎ ((names : List Text)
        × Follows mc_rules S.Shelf old new question files names answer
        × (text ≡ out_text mc_rules question names answer)) }
    ensures sound { (words files : List Text) (question : Question) (contents : List (List ℕ))
        (names : List Text) (old new : S) (answer : Answer McVerdict McFault) (text : List ℕ)
        → Asks words question files → S.tells old → S.is_sound old
        → HaveBytes (S.file old) files contents → AreTexts mc_rules question contents names
        → Comes mc_rules S.Shelf words old new answer text
        → (answer ≡ Err Refusal.Memory) ⊎ ComesTo question contents names answer }
{
    settled();
    hy_run::laws::verdict::<McHyper, S>();
}
