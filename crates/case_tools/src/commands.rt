//! Commands as cases, and how their lines are read.

use crate::case::halves;
use crate::escape::text_of;
use crate::trial::Trial;
use anyhow::{Context, Result, bail, ensure};
use hy_base::{NumList, Text};
use std::alloc::Global;
use std::num::NonZeroU32;

/// A command, and what is expected of it.
#[derive(Drop)]
pub(crate) struct CommandCase {
    pub name: String,
    pub trial: Trial,
    pub wanted: Wanted,
}

/// What is expected of a command.
#[derive(Drop)]
pub(crate) struct Wanted {
    /// `None` until the line that says it.
    pub status: Option<u8>,
    pub out: Text,
    /// What the output may be in place of that, where several texts are right.
    pub others: Vec<Text>,
    /// What is expected of the lassos behind the text of `out`, where some are.
    pub lassos: Option<Lassos>,
    /// The words to which the checker is to accept the output; none where it isn't asked.
    pub check: Vec<String>,
    pub err: Text,
}

/// How many lassos are expected, and what formulas say of them.
#[derive(Drop)]
pub(crate) struct Lassos {
    pub count: u32,
    /// A formula that they satisfy.
    pub satisfy: Option<Text>,
    /// A formula that they do not satisfy.
    pub violate: Option<Text>,
}

impl CommandCase {
    /// The case with this name, which says nothing more yet.
    pub(crate) fn named(alloc: Global, name: String) -> CommandCase {
        CommandCase {
            name,
            trial: Trial::new(alloc),
            wanted: Wanted::new(alloc),
        }
    }

    /// Takes one more line of the case: its first word, and what stands behind the space.
    pub(crate) fn take(&mut self, alloc: Global, directive: &str, text: &str) -> Result<()> {
        match directive {
            "status" | "out" | "or" | "lassos" | "satisfy" | "violate" | "check" | "err" => {
                self.wanted.take(alloc, directive, text)
            }
            "fail-shelf" => add_numbers(&mut self.trial.fail_shelf, text),
            "fail-out" => add_numbers(&mut self.trial.fail_out, text),
            "fail-err" => add_numbers(&mut self.trial.fail_err, text),
            _ => take_part(alloc, &mut self.trial, directive, text),
        }
    }
}

impl Wanted {
    /// Nothing is expected yet.
    fn new(alloc: Global) -> Wanted {
        Wanted {
            status: None,
            out: Text::new(alloc),
            others: Vec::new(alloc),
            lassos: None,
            check: Vec::new(alloc),
            err: Text::new(alloc),
        }
    }

    /// Takes a line that says what is expected.
    fn take(&mut self, alloc: Global, directive: &str, text: &str) -> Result<()> {
        match directive {
            "status" => set_status(&mut self.status, text),
            "out" => set_text(alloc, &mut self.out, text),
            "or" => self.add_other(text_of(alloc, text)?),
            "err" => set_text(alloc, &mut self.err, text),
            "lassos" => self.count_lassos(text),
            "check" => self.add_check(alloc, text),
            _ => self.expected()?.take(alloc, directive, text),
        }
    }

    /// Adds a text that the output may be, too.
    fn add_other(&mut self, text: Text) -> Result<()> {
        self.others.push(text)?;
        Ok(())
    }

    /// Adds words of the checker, which stand one space apart.
    fn add_check(&mut self, alloc: Global, text: &str) -> Result<()> {
        for word in text.split(' ') {
            self.check.push(String::from_str(alloc, word)?)?;
        }
        Ok(())
    }

    /// Expects that many lassos.
    fn count_lassos(&mut self, text: &str) -> Result<()> {
        let count = text.parse::<u32>().context("no number")?;
        self.lassos = Some(Lassos {
            count,
            satisfy: None,
            violate: None,
        });
        Ok(())
    }

    /// What is expected of the lassos, whose count stands before.
    fn expected(&mut self) -> Result<&mut Lassos> {
        self.lassos.as_mut().context("no lassos are expected")
    }
}

impl Lassos {
    /// Takes a formula that they satisfy, or that they violate.
    fn take(&mut self, alloc: Global, directive: &str, text: &str) -> Result<()> {
        let formula = text_of(alloc, text)?;
        if directive == "satisfy" {
            self.satisfy = Some(formula);
        } else {
            self.violate = Some(formula);
        }
        Ok(())
    }
}

/// Takes a line that says a part of a command or of what it finds.
fn take_part(alloc: Global, trial: &mut Trial, directive: &str, text: &str) -> Result<()> {
    match directive {
        "tool" => name_tool(trial, text),
        "word" => add_word(alloc, trial, text),
        "file" => add_file(alloc, trial, text),
        "repeat" => repeat(alloc, trial, text),
        "traces" => trial.add_traces(text.parse::<u32>().context("no number")?),
        "room" => set_room(trial, text),
        "most" => set_most(trial, text),
        "piece" => set_piece(trial, text),
        _ => bail!("no line of a case begins with {directive:?}"),
    }
}

/// Sets how many bytes each sink has room for.
fn set_room(trial: &mut Trial, text: &str) -> Result<()> {
    trial.room = text.parse::<u32>().context("no number")?;
    Ok(())
}

/// Sets how many bytes one put takes at most.
fn set_most(trial: &mut Trial, text: &str) -> Result<()> {
    trial.most = text.parse::<NonZeroU32>().context("no number from 1")?;
    Ok(())
}

/// Sets how many bytes one read gives at most.
fn set_piece(trial: &mut Trial, text: &str) -> Result<()> {
    trial.piece = text.parse::<NonZeroU32>().context("no number from 1")?;
    Ok(())
}

/// Sets a status.
fn set_status(status: &mut Option<u8>, text: &str) -> Result<()> {
    *status = Some(text.parse::<u8>().context("no status")?);
    Ok(())
}

/// Sets a text.
fn set_text(alloc: Global, to: &mut Text, text: &str) -> Result<()> {
    *to = text_of(alloc, text)?;
    Ok(())
}

/// Names the tool.
fn name_tool(trial: &mut Trial, name: &str) -> Result<()> {
    ensure!(trial.tool.is_empty(), "a case names one tool");
    trial.tool.push_str(name)?;
    Ok(())
}

/// Adds the word of a line, which is UTF-8.
fn add_word(alloc: Global, trial: &mut Trial, text: &str) -> Result<()> {
    let bytes = text_of(alloc, text)?;
    let word = std::str::from_utf8(bytes.as_slice()).context("the word is no UTF-8")?;
    trial.add_word(alloc, word)
}

/// Adds the file of a line: its name up to the first space, and then its bytes.
fn add_file(alloc: Global, trial: &mut Trial, text: &str) -> Result<()> {
    let (name, bytes) = halves(text);
    let name = text_of(alloc, name)?;
    let bytes = text_of(alloc, bytes)?;
    trial.add_file(alloc, name.as_slice(), bytes.as_slice())
}

/// Adds the text of a line to the last file, as often as it says.
fn repeat(alloc: Global, trial: &mut Trial, text: &str) -> Result<()> {
    let (count, text) = text.split_once(' ').context("no number and text")?;
    let count = count.parse::<u32>().context("no number")?;
    trial.repeat(count, text_of(alloc, text)?.as_slice())
}

/// Adds the numbers of a line, which has one at least.
fn add_numbers(list: &mut NumList, text: &str) -> Result<()> {
    for number in text.split(' ') {
        list.push(number.parse::<u32>().context("no number")?)?;
    }
    Ok(())
}
