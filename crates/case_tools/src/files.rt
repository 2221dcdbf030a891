//! Files of cases, case by case.

use crate::case::Case;
use crate::tally::Tally;
use crate::tools::Tools;
use anyhow::{Context, Result};
use hy_base::{DiskShelf, Text, read_all};
use std::env;

/// Tries the cases of the files that the program's arguments name. It prints a line for each file:
/// how many cases it has, and how many differ. It gives up at the first file that can't be read or is
/// no UTF-8, line that is not understood, or case that can't be tried, with an error that names it.
pub fn run_files<T: Tools>(rt: &HostRuntime) -> Result<()> {
    for name in env::args(rt)?.skip(1) {
        run_file::<T>(rt, name.as_str()).context(format_args!("{name}"))?;
    }
    Ok(())
}

fn run_file<T: Tools>(rt: &HostRuntime, name: &str) -> Result<()> {
    let text = read_all(rt.alloc(), &mut DiskShelf::new(rt), name)?;
    let tally = try_cases::<T>(rt, lines(&text)?)?;
    println!(rt; "{name}: {tally}")?;
    Ok(())
}

/// The text of a file of cases.
fn lines(text: &Text) -> Result<&str> {
    std::str::from_utf8(text.as_slice()).context("the file is no UTF-8")
}

/// Tries the cases of a text, which empty lines part.
fn try_cases<T: Tools>(rt: &HostRuntime, text: &str) -> Result<Tally> {
    let mut tally = Tally::new();
    for part in text.split("\n\n") {
        if let Some(first) = part.split('\n').find(|line| says_something(line)) {
            let holds = try_case::<T>(rt, first, part).context(format_args!("{first}"))?;
            tally.count(holds);
        }
    }
    Ok(tally)
}

/// Whether a line is neither empty nor a remark.
fn says_something(line: &str) -> bool {
    !line.is_empty() && !line.starts_with('#')
}

/// Tries the case that its first line begins, in a part of a text.
fn try_case<T: Tools>(rt: &HostRuntime, first: &str, part: &str) -> Result<bool> {
    let mut case = Case::begun(rt.alloc(), first)?;
    try_lines::<T>(rt, &mut case, part)
}

/// Takes the lines of a case behind its first one, and tries it.
fn try_lines<T: Tools>(rt: &HostRuntime, case: &mut Case, part: &str) -> Result<bool> {
    let mut begun = false;
    for line in part.split('\n') {
        if says_something(line) {
            if begun {
                case.take(rt.alloc(), line)?;
            }
            begun = true;
        }
    }
    case.holds::<T>(rt)
}
