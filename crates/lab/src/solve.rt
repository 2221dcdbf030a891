//! `lab solve CONFLICTS FILE [--log]`.

ghost use Rattle.std.specs.Prelude.{◌<◌, ◌^◌, IfOk};

use crate::dimacs::clauses_in;
use anyhow::{Result, bail};
use chain_check::{Log, print_log};
use sat_core::{Assignment, Outcome, solve_owned};
use std::io::Write;
use std::process::ExitCode;

/// Solves a file, and prints what solvers print; behind it the log, where it is asked for. The
/// status is 10 for an assignment, 20 for a refutation, and else 0.
pub fn run(rt: &HostRuntime, words: &[String]) -> Result<ExitCode> {
    match words {
        [conflicts, file] => solve_file(rt, conflicts.as_str(), file.as_str(), false),
        [conflicts, file, flag] if flag.as_str() == "--log" => {
            solve_file(rt, conflicts.as_str(), file.as_str(), true)
        }
        _ => bail!("the words are: solve CONFLICTS FILE [--log]"),
    }
}

fn solve_file(rt: &HostRuntime, conflicts: &str, file: &str, with_log: bool) -> Result<ExitCode> {
    let conflicts = conflicts_of(conflicts)?;
    let cnf = clauses_in(rt, file)?;
    let outcome = solve_owned(rt.alloc(), cnf, conflicts)?;
    report(rt, &outcome, with_log)
}

/// The number of conflicts that a word stands for.
fn conflicts_of(word: &str) -> Result<u32>
    ensures { IfOk result (λ conflicts. conflicts < 2 ^ 31) }
{
    match word.parse::<u32>() {
        Ok(conflicts) if conflicts < 1 << 31 => Ok(conflicts),
        _ => bail!("the number of conflicts is below 2147483648"),
    }
}

/// Prints what a solver's answer comes to, and gives the status for it.
fn report(rt: &HostRuntime, outcome: &Outcome, with_log: bool) -> Result<ExitCode> {
    match outcome {
        Outcome::Satisfied(values) => {
            print_values(rt, values)?;
            Ok(ExitCode::from(10))
        }
        Outcome::Refuted(log) => {
            print_answer(rt, "s UNSATISFIABLE", log, with_log)?;
            Ok(ExitCode::from(20))
        }
        Outcome::Spent(log) => {
            print_answer(rt, "s UNKNOWN", log, with_log)?;
            Ok(ExitCode::from(0))
        }
    }
}

/// Prints an answer, and behind it a log, where it is asked for.
fn print_answer(rt: &HostRuntime, answer: &str, log: &Log, with_log: bool) -> Result<()> {
    println!(rt; "{answer}")?;
    print_text(rt, log, with_log)
}

/// Prints an assignment, as one line of literals that `0` ends.
fn print_values(rt: &HostRuntime, values: &Assignment) -> Result<()> {
    println!(rt; "s SATISFIABLE")?;
    let mut text = String::from_str(rt.alloc(), "v")?;
    for (place, value) in values.as_slice().iter().enumerate() {
        let sign = if *value { "" } else { "-" };
        write!(text, " {sign}{}", place + 1)?;
    }
    println!(rt; "{text} 0")?;
    Ok(())
}

/// Prints a log, where it is asked for.
fn print_text(rt: &HostRuntime, log: &Log, with_log: bool) -> Result<()> {
    if with_log {
        let text = print_log(rt.alloc(), log)?;
        rt.stdout().write_all(text.as_slice())?;
    }
    Ok(())
}
