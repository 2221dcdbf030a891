//! Runs a single layer on real files, for benches and for comparison with other tools.
//!
//! ```text
//! lab solve CONFLICTS FILE [--log]    solves clauses in DIMACS, and prints as solvers do
//! lab check FILE LOG                  tries a log of refutation against clauses in DIMACS
//! lab tableau STATES FILE             builds the tableau of the body of a formula
//! lab search FILE                     searches a graph for a fair walk
//! lab aag FILE                        prints the net of an AIGER file of either form in ASCII
//! lab aig FILE                        prints it in the binary form
//! lab safe FILE FORMULA               prints the safe net of a formula on it; its output is `bad`
//! lab query FILE FORMULA base K            prints in DIMACS the clauses for a path of the safe net
//!                                          of K steps from its start to a bad state
//! lab query FILE FORMULA step K PROOF      prints those for K + 1 distinct good states with the
//!                                          facts of a proof, and a step to a bad one
//! lab query FILE FORMULA keep GROUP PROOF  prints those for a step from a state with the facts of
//!                                          a proof to one without some fact of a group of 64
//! ```
//!
//! A PROOF is what `mchyper --proof` printed: its lines of facts are read, and no others.
#![tactic(auto)]

mod check;
mod circuits;
mod dimacs;
mod facts;
mod files;
mod graphs;
mod query;
mod search;
mod solve;
mod tableau;

use anyhow::{Result, bail};
use std::env;
use std::process::ExitCode;

fn main(rt: HostRuntime) -> Result<ExitCode> {
    let mut words = Vec::new(rt.alloc());
    for word in env::args(&rt)?.skip(1) {
        words.push(word)?;
    }
    match words.as_slice() {
        [command, rest @ ..] => run(&rt, command.as_str(), rest),
        [] => bail!(
            "the first word is a command: solve, check, tableau, search, aag, aig, safe, query"
        ),
    }
}

/// Runs the command on the words behind it.
fn run(rt: &HostRuntime, command: &str, words: &[String]) -> Result<ExitCode> {
    match command {
        "solve" => solve::run(rt, words),
        "check" => check::run(rt, words),
        "tableau" => tableau::run(rt, words),
        "search" => search::run(rt, words),
        "aag" => circuits::print(rt, words, false),
        "aig" => circuits::print(rt, words, true),
        "safe" => circuits::safe(rt, words),
        "query" => query::run(rt, words),
        _ => bail!("no command is called {command:?}"),
    }
}
