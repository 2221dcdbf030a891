//! What `eahyper` is asked, what it says, and what it alone refuses.

use bound_search::Bound;
use chain_check::Log;
use cnf_frames::InductionProof;
use hy_lasso::LassoList;
use mc_core::Ask;
use rank_proofs::RankProof;

/// What is asked of two formulas.
#[derive(Clone, Copy)]
pub enum Relation {
    /// Whether the first implies the second.
    Implication,
    /// Whether each implies the other.
    Equivalence,
}

/// By what a question about formulas is decided.
#[derive(Clone, Copy)]
pub enum Engine {
    /// By the branches of a tableau, at most `states` of them, from 1 to 4,194,304.
    Branches { states: u32 },
    /// By paths of a free circuit of at most `ask.depth` steps, up to 100,000, queries of at most
    /// `ask.conflicts` conflicts, up to 1,000,000,000, and searches for clauses of at most `ask.calls`
    /// calls of the solver, from 1 to 1,000,000. There `ask.plain` is false.
    Circuit { ask: Ask },
}

/// What is asked of the files of a command. `proof` asks for a proof beside the verdict.
#[derive(Clone, Copy)]
pub enum Question {
    /// Whether the lassos of the second file satisfy the formula of the first.
    Judge,
    /// Whether the formula is satisfiable.
    Decide {
        engine: Engine,
        proof: bool,
    },
    /// Whether the formulas of the two files stand in a relation.
    Relate {
        relation: Relation,
        engine: Engine,
        proof: bool,
    },
    /// Which list of lassos within a bound satisfies the formula, by a query of at most `conflicts`
    /// conflicts, up to 1,000,000,000.
    Find {
        bound: Bound,
        conflicts: u32,
    },
}

/// What a free circuit says, but for lassos.
#[derive(Drop)]
pub enum CircuitVerdict {
    /// No list of lassos satisfies the formula, by this proof about its free net.
    Unsat {
        proof: InductionProof,
    },
    /// The first formula implies the second.
    Implied {
        proof: InductionProof,
    },
    /// The formulas are equivalent: the first implies the second, and the second the first.
    Equivalent {
        first: InductionProof,
        second: InductionProof,
    },
    /// Paths of so many steps leave it open.
    UnknownDepth {
        depth: u32,
    },
    /// A query learned as many clauses as it may.
    UnknownConflicts {
        conflicts: u32,
    },
}

/// What is said where nothing is refused.
#[derive(Drop)]
pub enum EaVerdict {
    /// The formula is satisfiable: these lassos satisfy it.
    Sat { list: LassoList },
    /// No list of lassos satisfies the formula.
    Unsat { proof: RankProof },
    /// No list of lassos within the bound satisfies the formula. The log's last clause is empty.
    NoneWithin { log: Log },
    /// A search within a bound learned as many clauses as it may: those of the log.
    Spent { conflicts: u32, log: Log },
    /// The first formula implies the second: no list satisfies the first and not the second.
    Implied { proof: RankProof },
    /// The first formula does not imply the second: these lassos satisfy the first alone.
    NotImplied { list: LassoList },
    /// The formulas are equivalent: the first implies the second, and the second the first.
    Equivalent { first: RankProof, second: RankProof },
    /// The formulas are not equivalent: these lassos satisfy one alone, the first for side 0, the
    /// second for side 1.
    NotEquivalent { side: u8, list: LassoList },
    /// What a free circuit says else.
    ByCircuit(CircuitVerdict),
    /// The given lassos satisfy the formula.
    OnTrue,
    /// The given lassos do not satisfy the formula.
    OnFalse,
}

/// What no other tool refuses.
#[derive(Drop)]
pub enum EaFault {
    /// More than `n` branches are reachable.
    States { n: u32 },
}
