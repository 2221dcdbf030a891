//! The answers of all tools.

use aig_kind::AigKind;
use aig_net::RunList;
use chain_check::Log;
use ea_tool::CircuitVerdict;
use hy_base::{Kind, NumList, Text};
use hy_formula::Class;
use hy_lasso::LassoList;
use invar_find::Kept;
use mc_core::Checked;
use rank_proofs::RankProof;
use tuple_walk::Tuple;

/// What a run answers. `file` is 0 for the first file of the command, 1 for the second, and 2 for the
/// third.
#[derive(Drop)]
pub enum Answer {
    /// The formula is satisfiable: these lassos satisfy it.
    Sat {
        list: LassoList,
    },
    /// No list of lassos satisfies the formula.
    Unsat {
        proof: RankProof,
    },
    /// No list of lassos within the bound satisfies the formula. The log's last clause is empty.
    NoneWithin {
        log: Log,
    },
    /// The first formula implies the second: no list satisfies the first and not the second.
    Implied {
        proof: RankProof,
    },
    /// The first formula does not imply the second: these lassos satisfy the first alone.
    NotImplied {
        list: LassoList,
    },
    /// The formulas are equivalent: the first implies the second, and the second the first.
    Equivalent {
        first: RankProof,
        second: RankProof,
    },
    /// The formulas are not equivalent: these lassos satisfy one alone, the first for side 0, the
    /// second for side 1.
    NotEquivalent {
        side: u8,
        list: LassoList,
    },
    /// What a free circuit says of formulas, but for lassos.
    ByCircuit(CircuitVerdict),
    /// The given lassos satisfy the formula.
    OnTrue,
    /// The given lassos do not satisfy the formula.
    OnFalse,
    /// No tuple of the traces violates a formula. `kept` has the number of kept traces for each formula,
    /// and `live` is the number of sessions that are open.
    NoViolation {
        traces: u32,
        kept: NumList,
        live: u32,
    },
    /// Trace `trace` is the first after which some tuple of traces violates formula `spec`: this one.
    Violation {
        spec: u32,
        trace: u32,
        tuple: Tuple,
    },
    /// What checking a circuit against a formula comes to. Where a search within a bound learned as
    /// many clauses as it may, this is `UnknownConflicts` with its log, for 0 steps and no facts.
    Checked(Checked),
    /// Whatever executions of the circuit stand for the universal quantifiers, the strategy makes
    /// executions for the existential ones with which they satisfy the formula.
    StrategyHolds,
    /// With these runs of the circuit, one for each universal quantifier, the strategy does not: what
    /// it makes breaks a constraint, is not fair, or fails the formula. `traces` are what is visible
    /// of them. Nothing is said of other strategies.
    StrategyFails {
        traces: LassoList,
        runs: RunList,
    },
    /// The words are no command.
    Words,
    /// A formula text is none: the number of tokens before the fault, and its byte.
    Syntax {
        file: u8,
        token: u32,
        byte: u32,
    },
    /// An atom of a formula text has a variable without a quantifier: its first byte.
    Unbound {
        file: u8,
        byte: u32,
    },
    /// A formula is of a class that the command does not take.
    Prefix {
        file: u8,
        class: Class,
    },
    /// A line of a file, counted from 1, is no text; line 0 where a file of lassos has none.
    Line {
        file: u8,
        line: u32,
    },
    /// The event of a line is refused: it ends a session that is not open, or goes back without a save.
    Session {
        line: u32,
    },
    /// A file is no circuit: what is wrong, and at which byte.
    Circuit {
        file: u8,
        kind: AigKind,
        byte: u32,
    },
    /// A strategy has not so many inputs and outputs, or has a constraint, a fairness literal or an
    /// uninitialised latch.
    Strategy {
        inputs: u32,
        outputs: u32,
    },
    /// A name of the formula stands for nothing in the circuit, or `twice` for different literals.
    Name {
        name: Text,
        twice: bool,
    },
    /// A file did not open.
    OpenFault {
        file: u8,
    },
    /// A file could not be read.
    ReadFault {
        file: u8,
    },
    /// The output could not be written.
    WriteFault,
    /// A count is past its limit.
    Limit {
        kind: Kind,
        limit: u64,
    },
    /// A query about paths of a circuit is past a limit; these facts were kept.
    CnfLimit {
        kind: Kind,
        limit: u64,
        kept: Kept,
    },
    /// More than `n` branches are reachable.
    States {
        n: u32,
    },
    /// Memory ran out.
    Memory,
}
