//! A command over files and streams in memory, and its run.

use crate::piece_shelf::PieceShelf;
use crate::tools::Tools;
use anyhow::{Context, Result, ensure};
use hy_base::{File, FileList, M, MemShelf, MemSink, NumList, Text};
use std::alloc::Global;
use std::mem;
use std::num::NonZeroU32;

/// How many bytes a sink has room for where its case does not say.
const ROOM: u32 = 65_536;

/// A command, the files that it finds, and the calls that fail.
#[derive(Drop)]
pub(crate) struct Trial {
    /// Empty until the tool is named.
    pub tool: String,
    pub words: Vec<String>,
    pub files: Vec<File>,
    pub fail_shelf: NumList,
    pub fail_out: NumList,
    pub fail_err: NumList,
    /// How many bytes each sink has room for.
    pub room: u32,
    /// How many bytes one put takes at most.
    pub most: NonZeroU32,
    /// How many bytes one read gives at most.
    pub piece: NonZeroU32,
}

/// The files and the streams of a run.
#[derive(Drop)]
struct Stage {
    shelf: PieceShelf,
    out: MemSink,
    err: MemSink,
}

/// What a command gave.
#[derive(Drop)]
pub(crate) struct Given {
    pub status: u8,
    pub out: Text,
    pub err: Text,
}

impl Trial {
    /// A command without words, that finds no file, and of whose calls none fails.
    pub(crate) fn new(alloc: Global) -> Trial {
        Trial {
            tool: String::new(alloc),
            words: Vec::new(alloc),
            files: Vec::new(alloc),
            fail_shelf: NumList::new(alloc),
            fail_out: NumList::new(alloc),
            fail_err: NumList::new(alloc),
            room: ROOM,
            most: NonZeroU32::MAX,
            piece: NonZeroU32::MAX,
        }
    }

    /// Adds a word.
    pub(crate) fn add_word(&mut self, alloc: Global, word: &str) -> Result<()> {
        self.words.push(String::from_str(alloc, word)?)?;
        Ok(())
    }

    /// Adds a file.
    pub(crate) fn add_file(&mut self, alloc: Global, name: &[u8], bytes: &[u8]) -> Result<()> {
        self.files.push(file_of(alloc, name, bytes)?)?;
        Ok(())
    }

    /// Adds bytes many times to the last file.
    pub(crate) fn repeat(&mut self, count: u32, bytes: &[u8]) -> Result<()> {
        let file = self.files.last_mut().context("no file is there to add to")?;
        for _ in 0..count {
            file.bytes.extend(bytes)?;
        }
        Ok(())
    }

    /// Adds a line to the last file for each trace of so many letters, each of which is `{}` or `{a}`.
    pub(crate) fn add_traces(&mut self, letters: u32) -> Result<()> {
        ensure!(letters < 20, "these are too many traces");
        let file = self.files.last_mut().context("no file is there to add to")?;
        for number in 0..1u32 << letters {
            push_trace(&mut file.bytes, letters, number)?;
        }
        Ok(())
    }

    /// Runs the command, whose files go out of the trial.
    pub(crate) fn run<T: Tools>(&mut self, alloc: Global) -> Result<Given> {
        let mut stage = self.stage(alloc)?;
        self.run_on::<T>(alloc, &mut stage)
    }

    /// Whether the command, whose files go out of the trial, prints this text.
    pub(crate) fn prints<T: Tools>(&mut self, alloc: Global, text: &[u8]) -> Result<bool> {
        let given = self.run::<T>(alloc)?;
        Ok(given.out.as_slice() == text)
    }

    /// What the command finds, which goes out of the trial.
    fn stage(&mut self, alloc: Global) -> M<Stage> {
        let out = MemSink::new(
            alloc,
            self.room,
            self.most.get(),
            taken(alloc, &mut self.fail_out),
        )?;
        let err = MemSink::new(
            alloc,
            self.room,
            self.most.get(),
            taken(alloc, &mut self.fail_err),
        )?;
        let files = mem::replace(&mut self.files, Vec::new(alloc));
        let fail = taken(alloc, &mut self.fail_shelf);
        let shelf = MemShelf::new(FileList::from_vec(files), fail);
        Ok(Stage {
            shelf: PieceShelf::new(shelf, self.piece),
            out,
            err,
        })
    }

    /// Runs the command over these files and streams.
    fn run_on<T: Tools>(&self, alloc: Global, stage: &mut Stage) -> Result<Given> {
        let status = T::status_of(
            alloc,
            self.tool.as_str(),
            self.words.as_slice(),
            &mut stage.shelf,
            &mut stage.out,
            &mut stage.err,
        )
        .context("no tool has this name")?;
        Ok(Given {
            status,
            out: copied(alloc, stage.out.bytes())?,
            err: copied(alloc, stage.err.bytes())?,
        })
    }
}

/// A text of these bytes.
fn copied(alloc: Global, bytes: &[u8]) -> M<Text> {
    let mut text = Text::new(alloc);
    text.extend(bytes)?;
    Ok(text)
}

/// A file of this name and these bytes.
fn file_of(alloc: Global, name: &[u8], bytes: &[u8]) -> M<File> {
    Ok(File {
        name: copied(alloc, name)?,
        bytes: copied(alloc, bytes)?,
    })
}

/// Adds the line of a trace whose letters are the lowest binary digits of a number.
fn push_trace(bytes: &mut Text, letters: u32, number: u32) -> M<()> {
    let mut left = number;
    for place in 0..letters {
        if place > 0 {
            bytes.push(b';')?;
        }
        bytes.extend(if left % 2 == 0 { "{}" } else { "{a}" }.as_bytes())?;
        left /= 2;
    }
    bytes.push(b'\n')
}

/// The numbers of a list, which has none from then on.
fn taken(alloc: Global, list: &mut NumList) -> NumList {
    mem::replace(list, NumList::new(alloc))
}
