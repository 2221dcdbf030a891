//! Lassos that a tool prints where several lists are right: how many they are, and what formulas say
//! of them, which the tool that judges lists tells.

use crate::commands::Lassos;
use crate::tools::Tools;
use crate::trial::Trial;
use anyhow::Result;
use hy_base::Text;
use std::alloc::Global;

/// The tool that judges lists.
const JUDGE: &str = "eahyper";

/// Its words, behind which a formula is judged on lassos.
const WORDS: [&str; 3] = ["--on", "lassos", "formula"];

/// Whether the output is the wanted text and behind it lassos as they are expected.
pub(crate) fn are_wanted<T: Tools>(
    alloc: Global,
    wanted: &[u8],
    lassos: &Lassos,
    out: &[u8],
) -> Result<bool> {
    let Some(list) = out.strip_prefix(wanted) else {
        return Ok(false);
    };
    if list.iter().filter(|b| **b == b'\n').count() != lassos.count as usize {
        return Ok(false);
    }
    Ok(
        is_judged::<T>(alloc, &lassos.satisfy, list, b"true\n")?
            && is_judged::<T>(alloc, &lassos.violate, list, b"false\n")?,
    )
}

/// Whether the formula, if there is one, is judged so on the lassos.
fn is_judged<T: Tools>(
    alloc: Global,
    formula: &Option<Text>,
    list: &[u8],
    verdict: &[u8],
) -> Result<bool> {
    match formula {
        Some(formula) => {
            let mut trial = Trial::new(alloc);
            set_trial(alloc, &mut trial, formula.as_slice(), list)?;
            trial.prints::<T>(alloc, verdict)
        }
        None => Ok(true),
    }
}

/// Makes a command of the judge, over the formula and the lassos.
fn set_trial(alloc: Global, trial: &mut Trial, formula: &[u8], list: &[u8]) -> Result<()> {
    set_words(alloc, trial)?;
    trial.add_file(alloc, b"formula", formula)?;
    trial.add_file(alloc, b"lassos", list)
}

/// Sets the words of that command.
fn set_words(alloc: Global, trial: &mut Trial) -> Result<()> {
    trial.tool.push_str(JUDGE)?;
    for word in WORDS {
        trial.add_word(alloc, word)?;
    }
    Ok(())
}
