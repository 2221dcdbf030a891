//! `lab check FILE LOG`.

use crate::dimacs::clauses_in;
use crate::files::text_of;
use anyhow::{Result, bail};
use chain_check::{Learned, Log, check};
use hy_base::{List, NumList};
use std::alloc::Global;
use std::process::ExitCode;

/// Prints whether the log passes for the clauses of the file. Lines before `log N` are left out, so
/// the output of `lab solve --log` is a log too.
pub fn run(rt: &HostRuntime, words: &[String]) -> Result<ExitCode> {
    let [file, log] = words else {
        bail!("the words are: check FILE LOG");
    };
    let cnf = clauses_in(rt, file.as_str())?;
    let log = log_in(rt, log.as_str())?;
    let passes = check(rt.alloc(), &cnf, &log)?;
    report(rt, passes)
}

/// Prints whether a log passes, and gives the status for it.
fn report(rt: &HostRuntime, passes: bool) -> Result<ExitCode> {
    if passes {
        println!(rt; "accepted")?;
        Ok(ExitCode::from(0))
    } else {
        println!(rt; "rejected")?;
        Ok(ExitCode::from(1))
    }
}

/// The log of a file.
fn log_in(rt: &HostRuntime, file: &str) -> Result<Log> {
    let text = text_of(rt, file)?;
    log_of(rt.alloc(), text.as_str())
}

/// The log of a text as `print_log` writes it.
fn log_of(alloc: Global, text: &str) -> Result<Log> {
    let mut log = List::new(alloc);
    for line in text.lines() {
        if let Some(rest) = line.strip_prefix("c ") {
            log.push(entry_of(alloc, rest)?)?;
        }
    }
    Ok(log)
}

/// The learned clause of a line behind its `c`.
fn entry_of(alloc: Global, line: &str) -> Result<Learned> {
    let mut clause = List::new(alloc);
    let mut chain = NumList::new(alloc);
    let mut words = line.split_ascii_whitespace();
    for word in &mut words {
        match word.parse::<i32>() {
            Ok(0) => break,
            Ok(literal) => clause.push(literal)?,
            Err(_) => bail!("{word:?} is no literal"),
        }
    }
    for word in &mut words {
        match word.parse::<u32>() {
            Ok(0) => break,
            Ok(number) => chain.push(number)?,
            Err(_) => bail!("{word:?} is no number of a clause"),
        }
    }
    Ok(Learned { clause, chain })
}
