//! Laws of claims and their certificates.

ghost use Rattle.std.specs.Prelude.{◌≡◌, ◌≢◌, ◌<◌, ℕ, Bool, List, Result, length};
ghost use Rattle.hy_formula.specs.Classes.{class_of};
ghost use Rattle.hy_formula.specs.Formulas.{Plain};
ghost use Rattle.hy_formula.specs.declared.classes.Class.TheVariants.{Other};
ghost use Rattle.ea_reduce.specs.Fulfilled.{IsOfOneKind};
ghost use Rattle.aig_net.specs.Nets.{IsNet, Net};
ghost use Rattle.cert_text.specs.Certificates.{Certificate};
ghost use Rattle.claim_check.specs.declared.error.CertError.{CertError};
ghost use Rattle.claim_check.specs.Claims.{Claim, circuit, equivalence, formula, implication};
ghost use Rattle.claim_check.specs.Good.{IsGood};
ghost use Rattle.claim_check.specs.Truths.{IsBound, IsFree, IsSaid};
ghost use Rattle.claim_check.specs.Verdicts.{IsVerdict};

use cert_text::laws::{one_certificate, one_fault};
use cnf_frames::induction_proof;
use ea_reduce::laws::{implying, reducing};
use formula_nets::{paths_decide, same_signals, signals_are_own, witnesses_decide};
use free_net::laws::{formulas_are_reduced, paths_fulfil};
use hy_lasso::laws::negating;
use live_safe::paths_are_lassos;
use rank_proofs::laws::refuting;

/// What a good certificate says of formulas is so.
pub fn truth_of_formulas()
    ensures formula { (names : List (List ℕ)) (f : Plain) (c : Certificate)
        → IsBound f → class_of f.prefix ≢ Other
        → IsGood names (formula f) c → IsSaid names (formula f) c }
    ensures implication { (names : List (List ℕ)) (f g : Plain) (c : Certificate)
        → IsBound f → IsBound g → IsOfOneKind f.prefix → IsOfOneKind g.prefix
        → IsGood names (implication f g) c → IsSaid names (implication f g) c }
    ensures equivalence { (names : List (List ℕ)) (f g : Plain) (c : Certificate)
        → IsBound f → IsBound g → IsOfOneKind f.prefix → IsOfOneKind g.prefix
        → IsGood names (equivalence f g) c → IsSaid names (equivalence f g) c }
{
    negating();
    reducing();
    implying();
    refuting();
    formulas_are_reduced();
    paths_fulfil();
    paths_are_lassos();
    induction_proof();
}

/// What a good certificate says of a circuit is so.
pub fn truth_of_circuits()
    ensures { (names : List (List ℕ)) (net : Net) (f : Plain) (c : Certificate)
        → IsNet net → 0 < length f.prefix → IsBound f → IsOfOneKind f.prefix
        → IsGood names (circuit net f) c → IsSaid names (circuit net f) c }
{
    same_signals();
    signals_are_own();
    paths_are_lassos();
    induction_proof();
    paths_decide();
    witnesses_decide();
}

/// Bytes have one answer, but for want of memory and for queries that are past a limit.
pub fn one_verdict()
    ensures { (names : List (List ℕ)) (claim : Claim) (bytes : List ℕ)
        (a b : Result Bool CertError) → ¬ IsFree a → ¬ IsFree b
        → IsVerdict names claim bytes a → IsVerdict names claim bytes b → a ≡ b }
{
    one_certificate();
    one_fault();
}
