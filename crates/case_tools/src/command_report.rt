//! What a command gave, beside what was expected of it.

use crate::checking::{accepts, check_of};
use crate::commands::{CommandCase, Wanted};
use crate::escape::escaped;
use crate::lassos::are_wanted;
use crate::tools::Tools;
use crate::trial::Given;
use anyhow::{Context, Result};
use hy_base::Text;
use std::alloc::Global;

/// Runs a case, and prints what differs: each part that is not as expected, and then as it is. Says
/// whether nothing does.
pub(crate) fn report<T: Tools>(rt: &HostRuntime, case: &mut CommandCase) -> Result<bool> {
    if case.wanted.check.is_empty() {
        let given = case.trial.run::<T>(rt.alloc())?;
        return compare::<T>(rt, case, &given);
    }
    report_checked::<T>(rt, case)
}

/// The same for a case whose output is given to the checker, too.
fn report_checked<T: Tools>(rt: &HostRuntime, case: &mut CommandCase) -> Result<bool> {
    let words = case.wanted.check.as_slice();
    let mut check = check_of(rt.alloc(), words, case.trial.files.as_slice())?;
    let given = case.trial.run::<T>(rt.alloc())?;
    if !compare::<T>(rt, case, &given)? {
        return Ok(false);
    }
    if accepts::<T>(rt.alloc(), &mut check, given.out.as_slice())? {
        return Ok(true);
    }
    println!(rt; "{}: the checker does not accept it", case.name)?;
    Ok(false)
}

fn compare<T: Tools>(rt: &HostRuntime, case: &CommandCase, given: &Given) -> Result<bool> {
    let status = case.wanted.status.context("no status is expected")?;
    if given.status == status && is_wanted::<T>(rt.alloc(), &case.wanted, given)? {
        return Ok(true);
    }
    println!(rt; "{}: status {} for {status}", case.name, given.status)?;
    print_part(rt, "out", &case.wanted.out, &given.out)?;
    print_part(rt, "err", &case.wanted.err, &given.err)?;
    Ok(false)
}

/// Whether both texts are as expected.
fn is_wanted<T: Tools>(alloc: Global, wanted: &Wanted, given: &Given) -> Result<bool> {
    if wanted.err.as_slice() != given.err.as_slice() {
        return Ok(false);
    }
    let out = given.out.as_slice();
    match &wanted.lassos {
        None => Ok(is_text(wanted, out)),
        Some(lassos) => are_wanted::<T>(alloc, wanted.out.as_slice(), lassos, out),
    }
}

/// Whether this is a text that the output may be. What the checker judges need only begin like it.
fn is_text(wanted: &Wanted, out: &[u8]) -> bool {
    if !wanted.check.is_empty() {
        return out.starts_with(wanted.out.as_slice());
    }
    wanted.out.as_slice() == out || wanted.others.iter().any(|it| it.as_slice() == out)
}

/// Prints what a stream received and what it was to receive, where these differ.
fn print_part(rt: &HostRuntime, stream: &str, wanted: &Text, given: &Text) -> Result<()> {
    if wanted.as_slice() == given.as_slice() {
        return Ok(());
    }
    print_bytes(rt, stream, "wanted ", wanted.as_slice())?;
    print_bytes(rt, stream, "given  ", given.as_slice())
}

fn print_bytes(rt: &HostRuntime, stream: &str, which: &str, bytes: &[u8]) -> Result<()> {
    println!(rt; "  {stream} {which}{}", escaped(rt.alloc(), bytes)?)?;
    Ok(())
}
