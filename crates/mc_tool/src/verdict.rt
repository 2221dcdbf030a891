//! What `mchyper` is asked, what it says, and what it alone refuses.

use aig_net::RunList;
use hy_base::{Kind, Text};
use hy_lasso::LassoList;
use invar_find::Kept;
use mc_core::{Ask, Checked};

/// What is asked of the files of a command, by paths of at most `depth` steps, up to 100,000, and
/// queries of at most `conflicts` conflicts, up to 1,000,000,000; without facts where `plain`. Where
/// `calls` is not 0, a search for clauses over latches may make so many calls of the solver, up to
/// 1,000,000; there `plain` is false.
#[derive(Clone, Copy)]
pub enum Question {
    /// Whether the circuit of the first file satisfies the formula of the second. `proof` asks for a
    /// proof beside the verdict.
    Check { ask: Ask, proof: bool },
    /// Whether it does by the strategy of the third file, which is a circuit, too.
    CheckByStrategy { ask: Ask },
}

/// What is said where nothing is refused.
#[derive(Drop)]
pub enum McVerdict {
    /// What checking a circuit against a formula comes to.
    Checked(Checked),
    /// Whatever executions of the circuit stand for the universal quantifiers, the strategy makes
    /// executions for the existential ones with which they satisfy the formula.
    StrategyHolds,
    /// With these runs of the circuit, one for each universal quantifier, the strategy does not: what
    /// it makes breaks a constraint, is not fair, or fails the formula. `traces` are what is visible
    /// of them. Nothing is said of other strategies.
    StrategyFails { traces: LassoList, runs: RunList },
}

/// What no other tool refuses.
#[derive(Drop)]
pub enum McFault {
    /// A name of the formula stands for nothing in the circuit, or `twice` for different literals.
    Name { name: Text, twice: bool },
    /// A strategy has not so many inputs and outputs, or has a constraint, a fairness literal or an
    /// uninitialised latch.
    Strategy { inputs: u32, outputs: u32 },
    /// A query about paths of a circuit is past a limit; these facts were kept.
    CnfLimit { kind: Kind, limit: u64, kept: Kept },
}
