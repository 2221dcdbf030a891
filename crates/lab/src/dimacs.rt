//! Clauses in DIMACS: a line `p cnf VARIABLES CLAUSES`, then literals, each clause ended by `0`.
//! A line that begins with `c` says nothing.

use crate::files::text_of;
use anyhow::{Result, bail};
use chain_check::{Cnf, Literal};
use std::alloc::Global;
use std::io::{self, BufWriter, Write};

/// The clauses of a file.
pub fn clauses_in(rt: &HostRuntime, file: &str) -> Result<Cnf> {
    let text = text_of(rt, file)?;
    clauses_of(rt.alloc(), text.as_str())
}

/// The clauses of the text. A clause may go over several lines.
fn clauses_of(alloc: Global, text: &str) -> Result<Cnf> {
    let mut cnf = None;
    let mut clause = Vec::new(alloc);
    for line in text.lines() {
        if line.starts_with('c') {
            continue;
        }
        if line.starts_with('p') {
            cnf = Some(header_of(alloc, line)?);
            continue;
        }
        let Some(cnf) = &mut cnf else {
            bail!("no line `p cnf` stands before the clauses");
        };
        for word in line.split_ascii_whitespace() {
            match number_of(word)? {
                0 => {
                    add(cnf, clause.as_slice())?;
                    clause.clear();
                }
                literal => clause.push(literal)?,
            }
        }
    }
    match cnf {
        Some(cnf) => Ok(cnf),
        None => bail!("no line `p cnf`"),
    }
}

/// No clause, over the variables of a line `p cnf`.
fn header_of(alloc: Global, line: &str) -> Result<Cnf> {
    let mut words = line.split_ascii_whitespace();
    let (Some("p"), Some("cnf"), Some(word)) = (words.next(), words.next(), words.next()) else {
        bail!("{line:?} is no line `p cnf`");
    };
    match word.parse::<u32>() {
        Ok(variables) if variables < 2_147_483_648 => Ok(Cnf::new(alloc, variables)?),
        _ => bail!("{word:?} is no number of variables"),
    }
}

/// The number that a word stands for.
fn number_of(word: &str) -> Result<i32> {
    match word.parse::<i32>() {
        Ok(number) => Ok(number),
        Err(_) => bail!("{word:?} is no number"),
    }
}

/// Adds a clause, where its literals are of the variables.
fn add(cnf: &mut Cnf, clause: &[i32]) -> Result<()> {
    if !cnf.takes(clause) {
        bail!("a clause has a literal beyond the variables, or there are too many clauses");
    }
    cnf.add_literals(clause)?;
    Ok(())
}

/// Prints clauses, each in a line of its own.
pub fn print_clauses(rt: &HostRuntime, cnf: &Cnf) -> Result<()> {
    let mut out = BufWriter::new(rt.alloc(), io::writer(rt))?;
    let clauses = &cnf.clauses;
    writeln!(out, "p cnf {} {}", cnf.variables, clauses.len())?;
    for i in 0..clauses.len() {
        print_clause(&mut out, clauses.clause(i))?;
    }
    out.flush()?;
    Ok(())
}

fn print_clause<W: Write>(out: &mut W, clause: &[Literal]) -> io::Result<()> {
    for literal in clause {
        write!(out, "{} ", literal.number())?;
    }
    writeln!(out, "0")
}
