//! What a tool prints, given to the checker.

use crate::tools::Tools;
use crate::trial::Trial;
use anyhow::Result;
use hy_base::File;
use std::alloc::Global;

/// The checker.
const CHECKER: &str = "hycheck";

/// The file in which it finds what was printed.
const PRINTED: &[u8] = b"out";

/// A command of the checker over the files of another command.
pub(crate) fn check_of(alloc: Global, words: &[String], files: &[File]) -> Result<Trial> {
    let mut trial = Trial::new(alloc);
    trial.tool.push_str(CHECKER)?;
    for word in words {
        trial.add_word(alloc, word.as_str())?;
    }
    add_files(alloc, &mut trial, files)?;
    Ok(trial)
}

fn add_files(alloc: Global, trial: &mut Trial, files: &[File]) -> Result<()> {
    for file in files {
        trial.add_file(alloc, file.name.as_slice(), file.bytes.as_slice())?;
    }
    Ok(())
}

/// Whether the checker accepts what was printed.
pub(crate) fn accepts<T: Tools>(alloc: Global, check: &mut Trial, printed: &[u8]) -> Result<bool> {
    check.add_file(alloc, PRINTED, printed)?;
    check.prints::<T>(alloc, b"accepted\n")
}
