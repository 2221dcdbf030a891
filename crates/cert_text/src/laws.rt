//! Laws of certificate texts.

ghost use Rattle.std.specs.Prelude.{◌≡◌, ◌<◌, ◌≤◌, ◌++◌, ℕ, Bool, List, length, map, All, codes};
ghost use Rattle.hy_base.specs.declared.reading.TheConstants.{BYTES_LIMIT};
ghost use Rattle.hy_bits.specs.Letter.{Letter};
ghost use Rattle.hy_formula.specs.Lassos.{Lasso};
ghost use Rattle.hy_text.specs.Names.{AreNames};
ghost use Rattle.hy_lasso.specs.Printed.{printed_lassos, spelled_of};
ghost use Rattle.hy_lasso.specs.Words.{AreLassos};
ghost use Rattle.ltl_closure.specs.Nodes.{Node};
ghost use Rattle.ltl_tableau.specs.Branches.{Members};
ghost use Rattle.ltl_tableau.specs.Ranks.{IsRankProof};
ghost use Rattle.rank_proofs.specs.Counts.{most_members};
ghost use Rattle.rank_proofs.specs.Proofs.{plain_proof, IsAscending};
ghost use Rattle.rank_proofs.specs.ProofTexts.{proof_text};
ghost use Rattle.rank_proofs.specs.declared.rank_proof.RankProof.{RankProof};
ghost use Rattle.aig_net.specs.RunTexts.{runs_text};
ghost use Rattle.aig_net.specs.declared.run.Run.{Run};
ghost use Rattle.live_safe.specs.declared.safe_net.SafeNet.{SafeNet};
ghost use Rattle.cnf_frames.specs.Proofs.{IsInductionProof, AreQueriesWithin};
ghost use Rattle.cnf_frames.specs.ProofTexts.{proof_text as induction_text, worded_text};
ghost use Rattle.cnf_frames.specs.declared.inductions.InductionProof.{InductionProof};
ghost use Rattle.cert_text.specs.declared.question.Question.{Question};
ghost use Rattle.cert_text.specs.Certificates.{Certificate, Refutation, Side, first, model, refuted, both, induction, runs, holds_line, side_line};
ghost use Rattle.cert_text.specs.Printed.{IsPrintable, IsPrintableInduction, IsPrintableRefutation, IsPrintableRun, ArePrintableRuns};
ghost use Rattle.cert_text.specs.ProofTexts.{refutation_text};
ghost use Rattle.cert_text.specs.Texts.{IsText, IsFaultAt};

/// A text spells one certificate.
pub fn one_certificate()
    ensures { (question : Question) (bytes : List ℕ) (c d : Certificate)
        → IsText question bytes c → IsText question bytes d → c ≡ d }
{}

/// Bytes go wrong at one line at most, and a certificate text at none.
pub fn one_fault()
    ensures one { (question : Question) (bytes : List ℕ) (k m : ℕ)
        → IsFaultAt question bytes k → IsFaultAt question bytes m → k ≡ m }
    ensures none { (question : Question) (bytes : List ℕ) (k : ℕ) (certificate : Certificate)
        → IsFaultAt question bytes k → ¬ IsText question bytes certificate }
{}

/// What is printed of an answer with proofs about formulas is a text.
pub fn printed_refutations()
    ensures unsat { (proof : Refutation) → IsPrintableRefutation proof
        → IsText Question.Formula (codes "unsat\n" ++ refutation_text proof) (refuted proof) }
    ensures implied { (proof : Refutation) → IsPrintableRefutation proof
        → IsText Question.Implication (codes "implied\n" ++ refutation_text proof) (refuted proof) }
    ensures equivalent { (one two : Refutation) → IsPrintableRefutation one
        → IsPrintableRefutation two → IsText Question.Equivalence
        (codes "equivalent\n" ++ refutation_text one ++ refutation_text two) (both one two) }
{}

/// What is printed of an answer about a circuit with a proof by induction is a text.
pub fn printed_inductions()
    ensures { (holds : Bool) (proof : InductionProof) → IsPrintableInduction proof
        → IsText Question.Circuit (holds_line holds ++ codes "\n" ++ induction_text proof)
        (induction holds proof) }
{}

/// What is printed of an answer about a circuit with lassos and runs is a text, over names that a
/// reader may give.
pub fn printed_runs()
    ensures { (table : List (List ℕ)) (holds : Bool) (list : List (Lasso Letter))
        (tuple : List Run) → AreNames table → 0 < length list → AreLassos list
        → ArePrintableRuns tuple
        → IsText Question.Circuit
        (holds_line holds ++ codes "\n" ++ printed_lassos table list ++ runs_text tuple)
        (runs holds (map (spelled_of table) list) tuple) }
{}

/// What is printed of an answer with lassos alone is a text, over names that a reader may give.
pub fn printed_models()
    ensures sat { (table : List (List ℕ)) (list : List (Lasso Letter)) → AreNames table
        → 0 < length list → AreLassos list
        → IsText Question.Formula (codes "sat\n" ++ printed_lassos table list)
        (model first (map (spelled_of table) list)) }
    ensures not_implied { (table : List (List ℕ)) (list : List (Lasso Letter)) → AreNames table
        → 0 < length list → AreLassos list
        → IsText Question.Implication (codes "not implied\n" ++ printed_lassos table list)
        (model first (map (spelled_of table) list)) }
    ensures not_equivalent { (table : List (List ℕ)) (side : Side) (list : List (Lasso Letter))
        → AreNames table → 0 < length list → AreLassos list
        → IsText Question.Equivalence (side_line side ++ codes "\n" ++ printed_lassos table list)
        (model side (map (spelled_of table) list)) }
{}

/// A rank proof over a closure within its limit can be printed, where its text is no longer than a
/// file may be.
pub fn printable_rank_proofs()
    ensures { (nodes : List Node) (roots : Members) (proof : RankProof)
        → IsRankProof nodes roots (plain_proof proof) → All IsAscending proof.branches
        → length nodes ≤ most_members → length (proof_text proof) ≤ BYTES_LIMIT
        → IsPrintable proof }
{}

/// A proof by induction whose queries are within their limits, of a net that has a latch, can be
/// printed, where its text, with whatever word in its first line, is no longer than a file may be.
pub fn printable_inductions()
    ensures { (word : List ℕ) (safe : SafeNet) (proof : InductionProof)
        → IsInductionProof safe proof → AreQueriesWithin safe proof
        → 0 < length safe.net.latches → length (worded_text word proof) ≤ BYTES_LIMIT
        → IsPrintableInduction proof }
{}

/// Runs with a step in each cycle can be printed, where their text is no longer than a file may be.
pub fn printable_runs()
    ensures { (tuple : List Run) → All IsPrintableRun tuple
        → length (runs_text tuple) ≤ BYTES_LIMIT → ArePrintableRuns tuple }
{}
