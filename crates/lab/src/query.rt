//! `lab query FILE FORMULA base K`, `lab query FILE FORMULA step K PROOF` and
//! `lab query FILE FORMULA keep GROUP PROOF`.

ghost use Rattle.std.specs.Prelude.{◌≡◌, length};
ghost use Rattle.cnf_frames.specs.Facts.{IsSafe};

use crate::circuits::{net_of, tell};
use crate::dimacs::print_clauses;
use crate::facts::facts_of;
use crate::files::text_of;
use anyhow::{Error, Result, anyhow, bail, ensure};
use bench_tools::nets_of;
use cnf_frames::{FrameError, Inv, Query, base_query, keep_query, step_query};
use hy_base::Kind;
use live_safe::SafeNet;
use std::process::ExitCode;

/// Prints the clauses of a query about the safe net of a formula on the net of a file.
pub fn run(rt: &HostRuntime, words: &[String]) -> Result<ExitCode> {
    let [file, formula, asked @ ..] = words else {
        bail!("the words are: query FILE FORMULA, and what is asked");
    };
    let text = text_of(rt, formula.as_str())?;
    match net_of(rt, file.as_str()) {
        Ok(net) => {
            let nets = nets_of(rt.alloc(), &net, text.as_str())?;
            ask(rt, &nets.safe, asked)
        }
        Err(refused) => tell(rt, refused),
    }
}

/// Prints the query that the words ask for.
fn ask(rt: &HostRuntime, safe: &SafeNet, words: &[String]) -> Result<ExitCode>
    requires { IsSafe safe.now }
{
    match words {
        [kind, k] if kind.as_str() == "base" => ask_base(rt, safe, k.as_str()),
        [kind, k, proof] if kind.as_str() == "step" => {
            ask_step(rt, safe, k.as_str(), proof.as_str())
        }
        [kind, group, proof] if kind.as_str() == "keep" => {
            ask_keep(rt, safe, group.as_str(), proof.as_str())
        }
        _ => bail!("what is asked is: base K, or step K PROOF, or keep GROUP PROOF"),
    }
}

fn ask_base(rt: &HostRuntime, safe: &SafeNet, k: &str) -> Result<ExitCode>
    requires { IsSafe safe.now }
{
    let k = number_of(k)?;
    print(rt, base_query(rt.alloc(), safe, k))
}

fn ask_step(rt: &HostRuntime, safe: &SafeNet, k: &str, proof: &str) -> Result<ExitCode>
    requires { IsSafe safe.now }
{
    let k = number_of(k)?;
    let text = text_of(rt, proof)?;
    let facts = facts_of(rt.alloc(), text.as_str(), safe.net.latches().len())?;
    print(rt, step_query(rt.alloc(), safe, &facts, k))
}

fn ask_keep(rt: &HostRuntime, safe: &SafeNet, group: &str, proof: &str) -> Result<ExitCode>
    requires { IsSafe safe.now }
{
    let group = number_of(group)?;
    let text = text_of(rt, proof)?;
    let facts = facts_of(rt.alloc(), text.as_str(), safe.net.latches().len())?;
    ensure!(
        64 * u64::from(group) < facts.len() as u64,
        "the proof has no group {group} of facts"
    );
    print(rt, keep_query(rt.alloc(), safe, &facts, group))
}

/// The number that a word stands for.
fn number_of(word: &str) -> Result<u32> {
    match word.parse::<u32>() {
        Ok(number) => Ok(number),
        Err(_) => bail!("{word:?} is no number"),
    }
}

/// Prints a query, or says why there is none.
fn print(rt: &HostRuntime, query: Result<Query, FrameError>) -> Result<ExitCode> {
    match query {
        Ok(query) => {
            print_clauses(rt, &query.cnf)?;
            Ok(ExitCode::from(0))
        }
        Err(error) => Err(refusal(error)),
    }
}

/// Says why there is no query.
fn refusal(error: FrameError) -> Error {
    match error {
        FrameError::Limit(limit) => anyhow!("error E5: {} {}", count_text(limit.kind), limit.limit),
        FrameError::Memory => anyhow!("error: memory"),
    }
}

/// Which count of a query is past its limit.
fn count_text(kind: Kind) -> &'static str {
    match kind {
        Kind::CnfVariables => "cnf-variables",
        _ => "cnf-literals",
    }
}
