//! The counted lines, section by section.

ghost use Rattle.std.specs.Prelude.{◌≡◌, ℕ, true, false, ◌+◌, ◌<◌, ◌≤◌, [], length, IfSome, IfOk, OnOk, option_to_list, slice_index_or};
ghost use Rattle.aiger_body.specs.Files.{section as section_of, defined, with_own};
ghost use Rattle.aiger_body.specs.declared.section.Section.TheVariants.{Latches};
ghost use Rattle.aiger_body.specs.Answers.{Fits};
ghost use Rattle.aiger_body.specs.Keeping.{empty};
ghost use Rattle.aiger_body.specs.Passes.{IsStart, IsRowAnswer, AreLines, IsLineAnswer, IsSectionAnswer, IsSectionsAnswer, IsLinesAnswer, IsMarkAnswer};

use crate::content::{Content, number};
use crate::error::AigerError;
use crate::header::Header;
use crate::section::{SECTIONS, Section, section_at};
use crate::text::{is_whole, line_at, read_numbers, text_of};
use aig_kind::AigKind;
use hy_base::{List, M};
use std::alloc::Global;

/// The counted lines that have been read.
#[derive(Drop)]
pub struct Lines {
    /// Where the next line begins.
    pub at: usize,
    /// How many lines there were.
    pub line: u64,
    /// For each variable whether a line of the ASCII form defined it.
    pub marks: List<bool>,
    pub content: Content,
    /// A buffer for one line.
    row: List<u64>,
}

/// Reads all counted lines, in time linear in their bytes; the greatest variable alone decides how
/// much memory is taken beforehand.
pub fn read_lines(
    alloc: Global,
    bytes: &[u8],
    header: &Header,
    at: usize,
) -> Result<Lines, AigerError>
    requires fits { Fits header.now }
    requires room { length bytes.now ≤ 67108864 }
    requires start { IsStart bytes.now 0 at }
    ensures { IsLinesAnswer header.now bytes.now result }
{
    let mut lines = Lines {
        at,
        line: 0,
        marks: no_marks(alloc, header)?,
        content: Content::new(alloc),
        row: List::new(alloc),
    };
    read_sections(bytes, header, &mut lines)?;
    Ok(lines)
}

/// Reads the sections in their order. How many lines the justice properties have is known once
/// their sizes are read.
fn read_sections(bytes: &[u8], header: &Header, lines: &mut Lines) -> Result<(), AigerError>
    requires fits { Fits header.now }
    requires room { length bytes.now ≤ 67108864 }
    requires lines { AreLines header.now bytes.now 0 lines.old }
    requires empty { lines.old.content ≡ empty }
    ensures { IsSectionsAnswer header.now bytes.now lines.new result }
{
    for i in 0..SECTIONS {
        let section = section_at(i);
        let count = header.count(section, lines.content.justice);
        read_section(bytes, header, section, count, lines)?;
    }
    Ok(())
}

/// A mark for each variable of the ASCII form, not set.
fn no_marks(alloc: Global, header: &Header) -> M<List<bool>>
    requires fits { Fits header.now }
    ensures long { IfOk result (λ marks. header.now.binary ≡ false →
        length marks ≡ header.now.top + 1) }
    ensures none { IfOk result (λ marks. (v : ℕ) → slice_index_or marks v false ≡ false) }
{
    let mut marks = List::new(alloc);
    if header.binary {
        return Ok(marks);
    }
    for _ in 0..header.top + 1 {
        marks.push(false)?;
    }
    Ok(marks)
}

/// Reads `count` lines of the section, in time linear in their bytes.
pub fn read_section(
    bytes: &[u8],
    header: &Header,
    section: Section,
    count: u64,
    lines: &mut Lines,
) -> Result<(), AigerError>
    requires fits { Fits header.now }
    requires room { length bytes.now ≤ 67108864 }
    requires lines { AreLines header.now bytes.now lines.old.line lines.old }
    requires section { (j : ℕ) → j < count →
        section_of header.now bytes.now (lines.old.line + j) ≡ section }
    ensures { IsSectionAnswer header.now bytes.now section count lines.old lines.new result }
{
    for _ in 0..count {
        read_line(bytes, header, section, lines)?;
    }
    Ok(())
}

/// Reads one line of the section.
fn read_line(
    bytes: &[u8],
    header: &Header,
    section: Section,
    lines: &mut Lines,
) -> Result<(), AigerError>
    requires fits { Fits header.now }
    requires room { length bytes.now ≤ 67108864 }
    requires lines { AreLines header.now bytes.now lines.old.line lines.old }
    requires section { section_of header.now bytes.now lines.old.line ≡ section }
    ensures { IsLineAnswer header.now bytes.now section lines.old lines.new result }
{
    let next = read_row(bytes, header, section, lines.line, lines.at, &mut lines.row)?;
    let row = lines.row.as_slice();
    if !define(header, defined(section, row), &mut lines.marks) {
        return Err(AigerError::Bad {
            kind: AigKind::Redefined,
            byte: lines.at as u32,
        });
    }
    lines.content.keep(section, row)?;
    lines.at = next;
    lines.line += 1;
    Ok(())
}

/// The numbers of counted line `line`, which is of this section and begins at byte `at`, and where
/// the line behind it begins.
pub fn read_row(
    bytes: &[u8],
    header: &Header,
    section: Section,
    line: u64,
    at: usize,
    row: &mut List<u64>,
) -> Result<usize, AigerError>
    requires fits { Fits header.now }
    requires room { length bytes.now ≤ 67108864 }
    requires start { IsStart bytes.now line at }
    requires section { section_of header.now bytes.now line ≡ section }
    ensures { IsRowAnswer header.now bytes.now line at result row.new }
{
    let text = line_at(bytes, at);
    if !is_whole(text) {
        return Err(AigerError::Bad {
            kind: AigKind::Truncated,
            byte: bytes.len() as u32,
        });
    }
    begin_row(header, section, line, row)?;
    read_numbers(text_of(text), row)?;
    if !header.is_right(section, row.as_slice()) {
        return Err(AigerError::Bad {
            kind: AigKind::Literal,
            byte: at as u32,
        });
    }
    Ok(at + text.len())
}

/// The row before its numbers are read: the literal that a latch has in the binary form.
fn begin_row(header: &Header, section: Section, line: u64, row: &mut List<u64>) -> M<()>
    requires fits { Fits header.now }
    requires few { line ≤ 67108864 }
    ensures { OnOk result (row.new ≡ with_own header.now line section []) }
{
    row.truncate(0);
    match section {
        Section::Latches => push_own(header, line, row),
        _ => Ok(()),
    }
}

fn push_own(header: &Header, line: u64, row: &mut List<u64>) -> M<()>
    requires fits { Fits header.now }
    requires few { line ≤ 67108864 }
    requires empty { row.old ≡ [] }
    ensures { OnOk result (row.new ≡ with_own header.now line Latches []) }
{
    if header.binary {
        row.push(2 * (1 + header.inputs + line))?;
    }
    Ok(())
}

/// The variable that the line defines, if it defines one.
fn defined(section: Section, row: &[u64]) -> Option<u64>
    ensures { option_to_list result ≡ defined section row.now }
{
    match section {
        Section::Inputs | Section::Latches | Section::Gates => Some(number(row, 0) / 2),
        _ => None,
    }
}

/// Marks the variable in the ASCII form. False where it is marked; in the binary form each variable
/// is defined by its place.
fn define(header: &Header, variable: Option<u64>, marks: &mut List<bool>) -> bool
    requires { header.now.binary ≡ false → IfSome variable (λ v. v < length marks.old) }
    ensures binary { header.now.binary ≡ true → result ≡ true }
    ensures ascii { header.now.binary ≡ false → IsMarkAnswer variable marks.old marks.new result }
{
    if header.binary {
        return true;
    }
    mark(variable, marks)
}

/// Marks the variable. False where it is marked.
fn mark(variable: Option<u64>, marks: &mut List<bool>) -> bool
    requires { IfSome variable (λ v. v < length marks.old) }
    ensures { IsMarkAnswer variable marks.old marks.new result }
{
    let Some(v) = variable else {
        return true;
    };
    if *marks.at(v as usize) {
        return false;
    }
    marks.set(v as usize, true);
    true
}
