//! What comes of a question.

use hy_lasso::LassoList;
use rank_proofs::RankProof;

/// Lassos that satisfy what was asked, or a proof that none do.
#[derive(Drop)]
pub enum Decision {
    Sat(LassoList),
    Unsat(RankProof),
}

/// Whether two formulas are equivalent.
#[derive(Drop)]
pub enum Both {
    /// They are: the first implies the second, and the second the first.
    Same(RankProof, RankProof),
    /// The lassos satisfy the first formula alone.
    First(LassoList),
    /// The lassos satisfy the second formula alone.
    Second(LassoList),
}
