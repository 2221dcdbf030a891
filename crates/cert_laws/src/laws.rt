//! What the tools print of a verdict, with its evidence, is a good certificate of what was claimed, and
//! `hycheck` accepts it.

ghost use Rattle.std.specs.Prelude.{◌≡◌, ◌≤◌, ◌∷◌, ◌++◌, [], ℕ, true, List, Ok, Option};
ghost use Rattle.hy_bits.specs.Letter.{Letter};
ghost use Rattle.hy_formula.specs.Formulas.{Plain};
ghost use Rattle.hy_formula.specs.Lassos.{Lasso};
ghost use Rattle.hy_lasso.specs.Joint.{IsJudged};
ghost use Rattle.rank_proofs.specs.Counts.{HasFewMembers};
ghost use Rattle.rank_proofs.specs.declared.rank_proof.RankProof.{RankProof};
ghost use Rattle.ea_core.specs.Decided.{Decides, DecidesEquivalence, DecidesImplication};
ghost use Rattle.aig_net.specs.Nets.{Net};
ghost use Rattle.aig_net.specs.declared.run.Run.{Run};
ghost use Rattle.aig_net.specs.declared.signals.Signal.{Signal};
ghost use Rattle.net_names.specs.Names.{AreSignals};
ghost use Rattle.cnf_frames.specs.declared.inductions.InductionProof.{InductionProof};
ghost use Rattle.mc_core.specs.Answers.{IsChecked};
ghost use Rattle.mc_core.specs.declared.ask.Ask.{Ask};
ghost use Rattle.cert_text.specs.declared.question.Question.{Question};
ghost use Rattle.induction_judge.specs.Good.{most_depth};
ghost use Rattle.claim_check.specs.Claims.{Claim, circuit, equivalence, formula, implication};
ghost use Rattle.claim_check.specs.Good.{plan_against, reduction};
ghost use Rattle.hy_run.specs.Names.{Text};
ghost use Rattle.hy_run.specs.Runs.{Comes};
ghost use Rattle.ea_tool.specs.Rules.{ComesTo as EaComesTo, ea_rules};
ghost use Rattle.ea_tool.specs.Texts.{shows_proof as ea_shows_proof, text_of as ea_text_of, verdict_text};
ghost use Rattle.ea_tool.specs.Words.{AsksFor};
ghost use Rattle.ea_tool.specs.declared.verdict.Question.{Question as EaQuestion};
ghost use Rattle.mc_tool.specs.Rules.{ComesTo as McComesTo, mc_rules};
ghost use Rattle.mc_tool.specs.Texts.{checked_text, shows_proof as mc_shows_proof, text_of as mc_text_of};
ghost use Rattle.mc_tool.specs.Words.{Asks};
ghost use Rattle.mc_tool.specs.declared.verdict.Question.{Question as McQuestion};
ghost use Rattle.hy_check.specs.Contents.{MakeClaim};
ghost use Rattle.cert_laws.specs.Claimed.{AsksLow, CertifiesEa, CertifiesMc, IsFound, IsKnown, models_of, traces_in};
ghost use Rattle.cert_laws.specs.GoodTexts.{IsFormulaOver, IsGoodText, IsShort, IsTable};
ghost use Rattle.cert_laws.specs.Written.{IsWrittenAccepted, IsWrittenGood};

use circuit_files::laws::one_circuit;
use claim_check::laws::one_verdict;
use ea_core::{Both, Decision};
use ea_tool::EaVerdict;
use hy_base::Shelf;
use hy_files::laws::one_text;
use mc_core::Checked;
use mc_tool::McVerdict;

/// What is printed of a decision on a formula that is over the names of a reader is good.
pub fn decided_formulas()
    ensures sat { (names : List (List ℕ)) (f : Plain) (list : List (Lasso Letter))
        → IsTable names → IsFormulaOver names f → Decides f.prefix f.body (Decision.Sat list)
        → IsGoodText names (formula f) (verdict_text true names (EaVerdict.Sat list)) }
    ensures unsat { (names : List (List ℕ)) (f : Plain) (proof : RankProof)
        → HasFewMembers (reduction f) → Decides f.prefix f.body (Decision.Unsat proof)
        → IsShort (verdict_text true names (EaVerdict.Unsat proof))
        → IsGoodText names (formula f) (verdict_text true names (EaVerdict.Unsat proof)) }
{}

/// What is printed of a decision on whether a formula implies another is good.
pub fn decided_implications()
    ensures implied { (names : List (List ℕ)) (f g : Plain) (proof : RankProof)
        → HasFewMembers (plan_against f g)
        → DecidesImplication f.prefix f.body g.prefix g.body (Decision.Unsat proof)
        → IsShort (verdict_text true names (EaVerdict.Implied proof))
        → IsGoodText names (implication f g) (verdict_text true names (EaVerdict.Implied proof)) }
    ensures not_implied { (names : List (List ℕ)) (f g : Plain) (list : List (Lasso Letter))
        → IsTable names → IsFormulaOver names f → IsFormulaOver names g
        → DecidesImplication f.prefix f.body g.prefix g.body (Decision.Sat list)
        → IsGoodText names (implication f g) (verdict_text true names (EaVerdict.NotImplied list)) }
{}

/// What is printed of a decision on whether two formulas are equivalent is good.
pub fn decided_equivalences()
    ensures equivalent { (names : List (List ℕ)) (f g : Plain) (one two : RankProof)
        → HasFewMembers (plan_against f g) → HasFewMembers (plan_against g f)
        → DecidesEquivalence f.prefix f.body g.prefix g.body (Both.Same one two)
        → IsShort (verdict_text true names (EaVerdict.Equivalent one two))
        → IsGoodText names (equivalence f g)
        (verdict_text true names (EaVerdict.Equivalent one two)) }
    ensures first { (names : List (List ℕ)) (f g : Plain) (list : List (Lasso Letter))
        → IsTable names → IsFormulaOver names f → IsFormulaOver names g
        → DecidesEquivalence f.prefix f.body g.prefix g.body (Both.First list)
        → IsGoodText names (equivalence f g)
        (verdict_text true names (EaVerdict.NotEquivalent 0 list)) }
    ensures second { (names : List (List ℕ)) (f g : Plain) (list : List (Lasso Letter))
        → IsTable names → IsFormulaOver names f → IsFormulaOver names g
        → DecidesEquivalence f.prefix f.body g.prefix g.body (Both.Second list)
        → IsGoodText names (equivalence f g)
        (verdict_text true names (EaVerdict.NotEquivalent 1 list)) }
{}

/// What is printed of a check that found whether a circuit satisfies a formula is good, by a proof by
/// induction and by runs.
pub fn checked_circuits()
    ensures holds { (names : List (List ℕ)) (net : Net) (signals : List Signal) (f : Plain)
        (ask : Ask) (traces : List (Lasso Letter)) (tuple : List Run)
        (proof : Option InductionProof) → IsTable names → IsFormulaOver names f
        → AreSignals net names f.body signals → ask.depth ≤ most_depth
        → IsChecked net signals f.prefix f.body ask (Checked.Holds traces tuple proof)
        → IsShort (checked_text true names (Checked.Holds traces tuple proof))
        → IsGoodText names (circuit net f)
        (checked_text true names (Checked.Holds traces tuple proof)) }
    ensures violated { (names : List (List ℕ)) (net : Net) (signals : List Signal) (f : Plain)
        (ask : Ask) (traces : List (Lasso Letter)) (tuple : List Run)
        (proof : Option InductionProof) → IsTable names → IsFormulaOver names f
        → AreSignals net names f.body signals → ask.depth ≤ most_depth
        → IsChecked net signals f.prefix f.body ask (Checked.Violated traces tuple proof)
        → IsShort (checked_text true names (Checked.Violated traces tuple proof))
        → IsGoodText names (circuit net f)
        (checked_text true names (Checked.Violated traces tuple proof)) }
{}

/// What is printed, with proofs, of a verdict to which a question comes is good for the claim that its
/// files make, where the text is no longer than a file may be; of formulas where a free circuit is asked
/// for no more steps than a certificate has and leaves nothing open, and of a check where it found
/// evidence, and where some words ask for it.
pub fn commands_print_good()
    ensures formulas { (question : EaQuestion) (asked : Question) (files : List (List ℕ))
        (names : List Text) (verdict : EaVerdict) (claim : Claim) → AsksLow question
        → CertifiesEa question asked → IsKnown verdict
        → EaComesTo question files names (Ok verdict) → IsShort (ea_text_of question names verdict)
        → MakeClaim asked (files ++ ea_text_of question names verdict ∷ []) claim names
        → IsGoodText names claim (ea_text_of question names verdict) }
    ensures circuits { (words given : List Text) (question : McQuestion) (asked : Question)
        (files : List (List ℕ)) (names : List Text) (verdict : McVerdict) (claim : Claim)
        → Asks words question given → CertifiesMc question asked → IsFound verdict
        → McComesTo question files names (Ok verdict) → IsShort (mc_text_of question names verdict)
        → MakeClaim asked (files ++ mc_text_of question names verdict ∷ []) claim names
        → IsGoodText names claim (mc_text_of question names verdict) }
{
    one_text();
    one_circuit();
}

/// What a run has to write of a verdict is good for what its words claim of the files that it read,
/// where they ask for proofs, nothing is left open and the text is no longer than a file may be.
pub fn runs_write_good<S: Shelf>()
    ensures formulas { (words : List Text) (old new : S) (verdict : EaVerdict) (text : List ℕ)
        → Comes ea_rules S.Shelf words old new (Ok verdict) text → IsKnown verdict → IsShort text
        → (question : EaQuestion) × (files : List Text) × AsksFor words question files
        × (ea_shows_proof question ≡ true → (asked : Question) × CertifiesEa question asked
        × IsWrittenGood S.Shelf old new files asked text) }
    ensures circuits { (words : List Text) (old new : S) (verdict : McVerdict) (text : List ℕ)
        → Comes mc_rules S.Shelf words old new (Ok verdict) text → IsFound verdict → IsShort text
        → (question : McQuestion) × (files : List Text) × Asks words question files
        × (mc_shows_proof question ≡ true → (asked : Question) × CertifiesMc question asked
        × IsWrittenGood S.Shelf old new files asked text) }
{}

/// `hycheck` accepts what a run has to write of a verdict, with the files that the run read, where its
/// words ask for proofs, the text is no longer than a file may be, and its lassos repeat together
/// within the limit; or memory runs out.
pub fn runs_are_accepted<S: Shelf, R: Shelf>()
    ensures formulas { (words : List Text) (old new : S) (verdict : EaVerdict) (text : List ℕ)
        → Comes ea_rules S.Shelf words old new (Ok verdict) text → IsKnown verdict → IsShort text
        → IsJudged (models_of verdict) → (question : EaQuestion) × (files : List Text)
        × AsksFor words question files × (ea_shows_proof question ≡ true → (asked : Question)
        × CertifiesEa question asked × IsWrittenAccepted S.Shelf R.Shelf old new files asked text) }
    ensures circuits { (words : List Text) (old new : S) (verdict : McVerdict) (text : List ℕ)
        → Comes mc_rules S.Shelf words old new (Ok verdict) text → IsFound verdict → IsShort text
        → IsJudged (traces_in verdict) → (question : McQuestion) × (files : List Text)
        × Asks words question files × (mc_shows_proof question ≡ true → (asked : Question)
        × CertifiesMc question asked × IsWrittenAccepted S.Shelf R.Shelf old new files asked text) }
{
    one_verdict();
    hy_check::laws::verdict::<R>();
}
