//! What the solver answers where no clause decides which of its outcomes comes: of few clauses, worked
//! out by hand, and of a long chain, for which clauses may not be looked through again and again.

ghost use Rattle.std.specs.Prelude.{◌<◌, ◌≤◌, ◌^◌};

use chain_check::{Cnf, check, print_log};
use sat_core::{Outcome, solve};
use std::alloc::Global;
use std::test::Fail;

/// Adds a clause, whose literals are of the variables.
fn add(cnf: &mut Cnf, clause: &[i32]) -> Result<(), Fail> {
    if !cnf.takes(clause) {
        return Err("no clause")?;
    }
    Ok(cnf.add_literals(clause)?)
}

/// These clauses.
fn cnf_of(alloc: Global, variables: u32, clauses: &[&[i32]]) -> Result<Cnf, Fail>
    requires { variables < 2 ^ 31 }
{
    let mut cnf = Cnf::new(alloc, variables)?;
    for clause in clauses {
        add(&mut cnf, clause)?;
    }
    Ok(cnf)
}

/// What came, and how many literals each learned clause has, where the log passes.
fn answer(alloc: Global, cnf: &Cnf, conflicts: u32) -> Result<String, Fail>
    requires { conflicts < 2 ^ 31 }
{
    let (said, log) = match solve(alloc, cnf, conflicts)? {
        Outcome::Satisfied(_) => return Ok(String::from_str(alloc, "satisfied")?),
        Outcome::Refuted(log) => ("refuted", log),
        Outcome::Spent(log) => ("spent", log),
    };
    let mut text = String::from_str(alloc, said)?;
    for learned in log.as_slice() {
        write!(text, " {}", learned.clause.len())?;
    }
    if !check(alloc, cnf, &log)? {
        text.push_str(", no proof")?;
    }
    Ok(text)
}

#[test]
fn answers_to_few_clauses(rt: HostRuntime) -> Result<(), Fail> {
    let alloc = rt.alloc();
    let all = cnf_of(alloc, 2, &[&[1, 2], &[1, -2], &[-1, 2], &[-1, -2]])?;
    assert!(rt; answer(alloc, &all, 0)?.as_str() == "spent");
    assert!(rt; answer(alloc, &all, 1)?.as_str() == "refuted 1 0");
    assert!(rt; answer(alloc, &cnf_of(alloc, 1, &[&[1], &[-1]])?, 1)?.as_str() == "refuted 0");
    assert!(rt; answer(alloc, &cnf_of(alloc, 2, &[&[1, -2]])?, 1)?.as_str() == "satisfied");
    Ok(())
}

/// The front of the log of two opposite clauses, as it is printed.
fn begins_with(alloc: Global, front: &[u8]) -> Result<bool, Fail> {
    match solve(alloc, &cnf_of(alloc, 1, &[&[1], &[-1]])?, 1)? {
        Outcome::Refuted(log) => Ok(print_log(alloc, &log)?.as_slice().starts_with(front)),
        _ => Ok(false),
    }
}

#[test]
fn prints_the_log_of_an_empty_clause(rt: HostRuntime) -> Result<(), Fail> {
    assert!(rt; begins_with(rt.alloc(), b"log 1")?);
    Ok(())
}

/// Adds that a variable implies the next.
fn imply(cnf: &mut Cnf, variable: u32) -> Result<(), Fail>
    requires { variable ≤ 400000 }
{
    let variable = variable as i32;
    add(cnf, &[-variable, variable + 1])
}

/// Each of 400,001 variables implies the next, the last two exclude one another, and the first is
/// true. The implications of even variables stand first, from the last down, and those of odd ones
/// behind them, from the first up: whoever looks through all clauses, in either direction, finds at
/// most three literals at a time.
fn chain(alloc: Global) -> Result<Cnf, Fail> {
    let mut cnf = Cnf::new(alloc, 400_001)?;
    for half in 0..200_000 {
        imply(&mut cnf, 400_000 - 2 * half)?;
    }
    for half in 0..200_000 {
        imply(&mut cnf, 2 * half + 1)?;
    }
    add(&mut cnf, &[-400_000, -400_001])?;
    add(&mut cnf, &[1])?;
    Ok(cnf)
}

#[test]
fn refutes_a_long_chain(rt: HostRuntime) -> Result<(), Fail> {
    let alloc = rt.alloc();
    assert!(rt; answer(alloc, &chain(alloc)?, 1)?.as_str() == "refuted 0");
    Ok(())
}
