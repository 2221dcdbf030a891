//! Circuits as cases, and how their lines are read.

use crate::escape::text_of;
use anyhow::{Context, Result, bail};
use hy_base::Text;
use std::alloc::Global;

/// Which net is looked at.
#[derive(Drop)]
pub(crate) enum Made {
    /// That of the text.
    Own,
    Copies(u8),
    /// That with the oracles of a formula.
    Oracles(String),
    /// The safe net of a formula.
    Safe(String),
}

/// A circuit text, and what is expected of it.
#[derive(Drop)]
pub(crate) struct CircuitCase {
    pub name: String,
    pub text: Text,
    /// The fault or the limit, as it is printed; empty where a net is expected.
    pub refusal: String,
    pub made: Made,
    /// How many inputs, latches and fairness literals the net has, empty where it is not said.
    pub counts: String,
    /// The net in ASCII, empty where it is not said.
    pub aag: Text,
    /// The net in the binary form, empty where it is not said.
    pub aig: Text,
    /// Runs, and the rows of values that follow from them.
    pub runs: Vec<String>,
}

impl CircuitCase {
    /// The case with this name, which says nothing more yet.
    pub(crate) fn named(alloc: Global, name: String) -> CircuitCase {
        CircuitCase {
            name,
            text: Text::new(alloc),
            refusal: String::new(alloc),
            made: Made::Own,
            counts: String::new(alloc),
            aag: Text::new(alloc),
            aig: Text::new(alloc),
            runs: Vec::new(alloc),
        }
    }

    /// Takes one more line of the case: its first word, and what stands behind the space.
    pub(crate) fn take(&mut self, alloc: Global, directive: &str, text: &str) -> Result<()> {
        match directive {
            "line" => push_line(alloc, &mut self.text, text),
            "part" => push_part(alloc, &mut self.text, text),
            "aag" => push_line(alloc, &mut self.aag, text),
            "aig" => push_line(alloc, &mut self.aig, text),
            "aig-part" => push_part(alloc, &mut self.aig, text),
            _ => self.take_wanted(alloc, directive, text),
        }
    }

    /// Takes a line that says something else than bytes.
    fn take_wanted(&mut self, alloc: Global, directive: &str, text: &str) -> Result<()> {
        match directive {
            "fault" => self.refusal.push_str(text)?,
            "limit" => self.refusal.push_str("limit")?,
            "counts" => self.counts.push_str(text)?,
            "run" => self.runs.push(String::from_str(alloc, text)?)?,
            _ => self.made = Made::of(alloc, directive, text)?,
        }
        Ok(())
    }
}

impl Made {
    /// What a line makes of the net.
    fn of(alloc: Global, directive: &str, text: &str) -> Result<Made> {
        match directive {
            "copies" => Ok(Made::Copies(text.parse::<u8>().context("no number")?)),
            "oracles" => Ok(Made::Oracles(String::from_str(alloc, text)?)),
            "safe" => Ok(Made::Safe(String::from_str(alloc, text)?)),
            _ => bail!("no line of a circuit begins with {directive:?}"),
        }
    }
}

/// Adds the bytes of a text and a line feed.
fn push_line(alloc: Global, bytes: &mut Text, text: &str) -> Result<()> {
    push_part(alloc, bytes, text)?;
    bytes.push(b'\n')?;
    Ok(())
}

/// Adds the bytes of a text.
fn push_part(alloc: Global, bytes: &mut Text, text: &str) -> Result<()> {
    bytes.extend(text_of(alloc, text)?.as_slice())?;
    Ok(())
}
