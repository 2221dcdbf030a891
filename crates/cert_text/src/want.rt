//! What is still wanted of a certificate text.

ghost use Rattle.std.specs.Prelude.{◌↔◌, IsTrue, []};
ghost use Rattle.cert_text.specs.Wants.{Fills};

use crate::question::Question;

/// What is wanted behind some first lines of a certificate text. Counts are those that the text
/// claims; what is claimed need not be there.
#[derive(Clone, Copy)]
pub enum Want {
    /// The answer to what was asked.
    Verdict(Question),
    /// Lassos, one at least.
    FirstLasso,
    /// Lassos, maybe none.
    Lassos,
    /// A proof by induction; or lassos, one at least, and runs.
    Evidence,
    /// Lassos, maybe none, and runs.
    MoreEvidence,
    /// So many proofs about formulas, each by ranks or over a free net.
    Proofs(u64),
    /// So many branches, then so many reasons, then so many proofs about formulas.
    Branches(u64, u64, u64),
    /// So many reasons, then so many proofs about formulas.
    Reasons(u64, u64),
    /// So many facts, which may be clauses or not, then so many logs, then so many proofs about
    /// formulas.
    Facts(bool, u64, u64, u64),
    /// So many logs, then so many proofs about formulas.
    Logs(u64, u64),
    /// So many learned clauses, then so many logs, then so many proofs about formulas.
    LearnedClauses(u64, u64, u64),
    /// So many runs.
    Runs(u64),
}

impl Want {
    /// Whether no line is wanted.
    pub fn is_over(self) -> bool
        ensures { IsTrue result ↔ Fills self [] }
    {
        match self {
            Want::Lassos => true,
            Want::Proofs(proofs) => proofs == 0,
            Want::Branches(branches, reasons, proofs) => {
                branches == 0 && reasons == 0 && proofs == 0
            }
            Want::Reasons(reasons, proofs) => reasons == 0 && proofs == 0,
            Want::Facts(_, facts, logs, proofs) => facts == 0 && logs == 0 && proofs == 0,
            Want::Logs(logs, proofs) => logs == 0 && proofs == 0,
            Want::LearnedClauses(clauses, logs, proofs) => {
                clauses == 0 && logs == 0 && proofs == 0
            }
            Want::Runs(runs) => runs == 0,
            _ => false,
        }
    }
}
