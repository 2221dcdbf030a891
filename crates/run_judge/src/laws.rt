//! Laws of the lassos in a certificate text.

ghost use Rattle.std.specs.Prelude.{ℕ, Bool, List, []};
ghost use Rattle.hy_lasso.specs.LassoLines.{Spelled, SaysLasso};
ghost use Rattle.cert_text.specs.InductionLines.{SaysFreeHead, SaysInductionHead};
ghost use Rattle.cert_text.specs.Lines.{Line};
ghost use Rattle.cert_text.specs.RankLines.{SaysRankHead};
ghost use Rattle.cert_text.specs.RunLines.{SaysRunsHead};

/// What stands behind the lassos of a certificate, or in their place, says no lasso: the heads of
/// proofs and of runs, and the empty line at the end.
pub fn lassos_end()
    ensures ranks { (line : Line) (b r : ℕ) (said : Spelled) → SaysRankHead line b r
        → ¬ SaysLasso line said }
    ensures induction { (clauses : Bool) (line : Line) (k f : ℕ) (said : Spelled)
        → SaysInductionHead clauses line k f → ¬ SaysLasso line said }
    ensures free { (line : Line) (k f : ℕ) (said : Spelled) → SaysFreeHead line k f
        → ¬ SaysLasso line said }
    ensures runs { (line : Line) (n : ℕ) (said : Spelled) → SaysRunsHead line n
        → ¬ SaysLasso line said }
    ensures empty { (said : Spelled) → ¬ SaysLasso [] said }
{}
