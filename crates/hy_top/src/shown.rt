//! What each tool says, as one of the answers of all tools.

ghost use Rattle.std.specs.Prelude.{◌≡◌, IfOk, IfErr};
ghost use Rattle.hy_top.specs.Answers.{ea_answer, fault_answer, given_up, mc_answer, refusal_answer, rv_answer};

use crate::answer::Answer;
use chain_check::Log;
use cnf_frames::{Inv, LogList};
use ea_tool::{EaFault, EaVerdict};
use hy_base::{BYTES_LIMIT, Kind};
use hy_files::FileFault;
use hy_run::Refusal;
use invar_find::{Kept, SpentList};
use mc_core::Checked;
use mc_tool::{McFault, McVerdict};
use rv_tool::{RvFault, RvVerdict};
use std::alloc::Global;

/// The answer of what `eahyper` says.
pub fn ea_answer(alloc: Global, said: Result<EaVerdict, Refusal<EaFault>>) -> Answer
    ensures { result ≡ ea_answer said }
{
    match said {
        Ok(EaVerdict::Sat { list }) => Answer::Sat { list },
        Ok(EaVerdict::Unsat { proof }) => Answer::Unsat { proof },
        Ok(EaVerdict::NoneWithin { log }) => Answer::NoneWithin { log },
        Ok(EaVerdict::Spent { conflicts, log }) => given_up(alloc, conflicts, log),
        Ok(EaVerdict::Implied { proof }) => Answer::Implied { proof },
        Ok(EaVerdict::NotImplied { list }) => Answer::NotImplied { list },
        Ok(EaVerdict::Equivalent { first, second }) => Answer::Equivalent { first, second },
        Ok(EaVerdict::NotEquivalent { side, list }) => Answer::NotEquivalent { side, list },
        Ok(EaVerdict::ByCircuit(verdict)) => Answer::ByCircuit(verdict),
        Ok(EaVerdict::OnTrue) => Answer::OnTrue,
        Ok(EaVerdict::OnFalse) => Answer::OnFalse,
        Err(refusal) => match refusal_answer(refusal) {
            Ok(answer) => answer,
            Err(EaFault::States { n }) => Answer::States { n },
        },
    }
}

/// The answer of a search within a bound that learned as many clauses as it may: these.
fn given_up(alloc: Global, conflicts: u32, log: Log) -> Answer
    ensures { result ≡ given_up conflicts log }
{
    let kept = Kept {
        inv: Inv::new(alloc),
        logs: LogList::new(alloc),
        spent: SpentList::new(alloc),
    };
    Answer::Checked(Checked::UnknownConflicts {
        conflicts,
        k: 0,
        step: false,
        kept,
        log,
    })
}

/// The answer of what `rvhyper` says.
pub fn rv_answer(said: Result<RvVerdict, Refusal<RvFault>>) -> Answer
    ensures { result ≡ rv_answer said }
{
    match said {
        Ok(RvVerdict::NoViolation { traces, kept, live }) => Answer::NoViolation {
            traces,
            kept,
            live,
        },
        Ok(RvVerdict::Violation { spec, trace, tuple }) => Answer::Violation { spec, trace, tuple },
        Err(refusal) => match refusal_answer(refusal) {
            Ok(answer) => answer,
            Err(RvFault::Session { line }) => Answer::Session { line },
        },
    }
}

/// The answer of what `mchyper` says.
pub fn mc_answer(said: Result<McVerdict, Refusal<McFault>>) -> Answer
    ensures { result ≡ mc_answer said }
{
    match said {
        Ok(McVerdict::Checked(checked)) => Answer::Checked(checked),
        Ok(McVerdict::StrategyHolds) => Answer::StrategyHolds,
        Ok(McVerdict::StrategyFails { traces, runs }) => Answer::StrategyFails { traces, runs },
        Err(refusal) => match refusal_answer(refusal) {
            Ok(answer) => answer,
            Err(McFault::Name { name, twice }) => Answer::Name { name, twice },
            Err(McFault::Strategy { inputs, outputs }) => Answer::Strategy { inputs, outputs },
            Err(McFault::CnfLimit { kind, limit, kept }) => Answer::CnfLimit { kind, limit, kept },
        },
    }
}

/// The answer of a refusal that all tools share; else what one of them alone refuses.
fn refusal_answer<F: Drop>(refusal: Refusal<F>) -> Result<Answer, F>
    ensures shared { IfOk result (λ answer. (own : F → Answer)
        → answer ≡ refusal_answer own refusal) }
    ensures own { IfErr result (λ fault. refusal ≡ Refusal.Own fault) }
{
    match refusal {
        Refusal::Words => Ok(Answer::Words),
        Refusal::File { file, fault } => Ok(fault_answer(file, fault)),
        Refusal::Prefix { file, class } => Ok(Answer::Prefix { file, class }),
        Refusal::Limit { kind, limit } => Ok(Answer::Limit { kind, limit }),
        Refusal::Own(fault) => Err(fault),
        Refusal::Write => Ok(Answer::WriteFault),
        Refusal::Memory => Ok(Answer::Memory),
    }
}

/// The answer of a fault of file `file`.
fn fault_answer(file: u8, fault: FileFault) -> Answer
    ensures { result ≡ fault_answer file fault }
{
    match fault {
        FileFault::Open => Answer::OpenFault { file },
        FileFault::Read => Answer::ReadFault { file },
        FileFault::Bytes => Answer::Limit {
            kind: Kind::Bytes,
            limit: BYTES_LIMIT as u64,
        },
        FileFault::Syntax { token, byte } => Answer::Syntax { file, token, byte },
        FileFault::Unbound { byte } => Answer::Unbound { file, byte },
        FileFault::Count { kind, limit } => Answer::Limit { kind, limit },
        FileFault::Circuit { kind, byte } => Answer::Circuit { file, kind, byte },
        FileFault::Line { line } => Answer::Line { file, line },
        FileFault::Memory => Answer::Memory,
    }
}
