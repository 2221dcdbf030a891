//! The names that the symbol lines give.

ghost use Rattle.std.specs.Prelude.{◌≡◌, ◌<◌, ◌≤◌, ℕ, [], length, IfOk, slice_index_or};
ghost use Rattle.aiger_body.specs.Answers.{Fits};
ghost use Rattle.aiger_body.specs.Bodies.{IsTail};
ghost use Rattle.aiger_read.specs.Naming.{IsNew, AreLong, IsKeepAnswer, IsNamesAnswer, with_name};

use crate::symbol::{KINDS, begins_comment, is_symbol, place, start, symbol_of};
use aig_kind::AigKind;
use aig_net::NameList;
use aiger_body::{AigerError, Header, is_whole, line_at, text_of};
use hy_base::{List, M, Text};
use std::alloc::Global;

/// The names of a net: one for each input, latch and output, empty where there is none.
#[derive(Drop)]
pub struct Names {
    pub inputs: NameList,
    pub latches: NameList,
    pub outputs: NameList,
}

/// The symbol lines that have been read.
#[derive(Drop)]
pub struct Reading {
    /// Where the next line begins, counted from where the symbols do.
    pub at: usize,
    /// How many lines there were.
    pub line: usize,
    /// For each input, latch, output and so on whether a line named it.
    pub named: List<bool>,
    pub names: Names,
}

/// The names of a text whose symbols begin at byte `tail`, in time linear in what stands from there
/// on and in what can be named. The comment is not read.
pub fn read_names(
    alloc: Global,
    bytes: &[u8],
    header: &Header,
    tail: usize,
) -> Result<Names, AigerError>
    requires room { length bytes.now ≤ 67108864 }
    requires fits { Fits header.now }
    requires tail { IsTail header.now bytes.now tail }
    ensures { IsNamesAnswer header.now bytes.now result }
{
    let (_, text) = bytes.split_at(tail);
    let mut reading = Reading::new(alloc, header)?;
    while reading.at < text.len() {
        let line = line_at(text, reading.at);
        if begins_comment(line) {
            return Ok(reading.names);
        }
        if !reading.keep(alloc, header, line)? {
            return Err(AigerError::Bad {
                kind: AigKind::Symbol,
                byte: (tail + reading.at) as u32,
            });
        }
        reading.at += line.len();
        reading.line += 1;
    }
    Ok(reading.names)
}

impl Reading {
    /// No line is read, and nothing is named.
    fn new(alloc: Global, header: &Header) -> M<Self>
        requires { Fits header.now }
        ensures { IfOk result (λ made. IsNew header.now made) }
    {
        let many = start(header, KINDS) as usize;
        let inputs = no_names(alloc, header.inputs)?;
        let latches = no_names(alloc, header.latches)?;
        let outputs = no_names(alloc, header.outputs)?;
        Ok(Reading {
            at: 0,
            line: 0,
            named: List::filled(alloc, false, many)?,
            names: Names {
                inputs,
                latches,
                outputs,
            },
        })
    }

    /// Keeps the symbol of the line. False where it is none, or names what was named before.
    fn keep(&mut self, alloc: Global, header: &Header, line: &[u8]) -> M<bool>
        requires fits { Fits header.now }
        requires long { AreLong header.now self.old }
        ensures { IsKeepAnswer header.now line.now self.old self.new result }
    {
        if !is_whole(line) {
            return Ok(false);
        }
        let Some(symbol) = symbol_of(text_of(line)) else {
            return Ok(false);
        };
        if !is_symbol(header, &symbol) {
            return Ok(false);
        }
        let place = place(header, &symbol) as usize;
        if *self.named.at(place) {
            return Ok(false);
        }
        let mut name = Text::new(alloc);
        name.extend(symbol.name)?;
        self.named.set(place, true);
        self.names.put(symbol.kind, symbol.number as usize, name);
        Ok(true)
    }
}

impl Names {
    /// Gives the name to number `n` of the kind with this letter, if its names are kept.
    fn put(&mut self, letter: u8, n: usize, name: Text)
        requires inputs { letter ≡ 105 → n < length self.old.inputs }
        requires latches { letter ≡ 108 → n < length self.old.latches }
        requires outputs { letter ≡ 111 → n < length self.old.outputs }
        ensures { self.new ≡ with_name letter n name self.old }
    {
        match letter {
            b'i' => self.inputs.set(n, name),
            b'l' => self.latches.set(n, name),
            b'o' => self.outputs.set(n, name),
            _ => {}
        }
    }
}

/// `count` times no name.
fn no_names(alloc: Global, count: u64) -> M<NameList>
    ensures long { IfOk result (λ made. length made ≡ count) }
    ensures none { IfOk result (λ made. (n : ℕ) → slice_index_or made n [] ≡ []) }
{
    let mut names = List::new(alloc);
    for _ in 0..count {
        names.push(Text::new(alloc))?;
    }
    Ok(names)
}
