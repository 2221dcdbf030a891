//! Whether the lines use variables that some line defines.

ghost use Rattle.std.specs.Prelude.{◌≡◌, ℕ, suc, ◌+◌, ◌<◌, ◌≤◌, not, false, length, take, drop};
ghost use Rattle.std.specs.List.{list_any};
ghost use Rattle.aiger_body.specs.Files.{used, counted, section as section_of};
ghost use Rattle.aiger_body.specs.Answers.{Fits, IsLargeEnough};
ghost use Rattle.aiger_body.specs.Passes.{IsStart, AllRead};
ghost use Rattle.aiger_body.specs.Uses.{is_marked, AreKnown, AreChecked, IsUseAnswer, IsUsesAnswer};

use crate::error::AigerError;
use crate::header::Header;
use crate::lines::{Lines, read_row};
use crate::section::{SECTIONS, Section, section_at};
use aig_kind::AigKind;
use hy_base::List;
use std::alloc::Global;

/// The lines whose uses have been checked.
#[derive(Drop)]
pub struct Checked {
    /// Where the next line begins.
    pub at: usize,
    /// How many lines there were.
    pub line: u64,
    /// A buffer for one line.
    row: List<u64>,
}

/// Checks that the counted lines, the first of which begins at byte `at`, use defined variables
/// only. They are read once more, in time linear in their bytes; in the binary form each variable
/// is defined, and nothing is read.
pub fn check_uses(
    alloc: Global,
    bytes: &[u8],
    header: &Header,
    at: usize,
    lines: &Lines,
) -> Result<(), AigerError>
    requires fits { Fits header.now }
    requires right { IsLargeEnough header.now }
    requires room { length bytes.now ≤ 67108864 }
    requires start { IsStart bytes.now 0 at }
    requires lines { AllRead header.now bytes.now lines.now }
    ensures { IsUsesAnswer header.now bytes.now result }
{
    if header.binary {
        return Ok(());
    }
    let mut checked = Checked {
        at,
        line: 0,
        row: List::new(alloc),
    };
    check_sections(bytes, header, lines, &mut checked)
}

fn check_sections(
    bytes: &[u8],
    header: &Header,
    lines: &Lines,
    checked: &mut Checked,
) -> Result<(), AigerError>
    requires fits { Fits header.now }
    requires room { length bytes.now ≤ 67108864 }
    requires lines { AllRead header.now bytes.now lines.now }
    requires form { header.now.binary ≡ false }
    requires checked { AreChecked header.now bytes.now 0 checked.old }
    ensures { IsUsesAnswer header.now bytes.now result }
{
    for i in 0..SECTIONS {
        let section = section_at(i);
        let count = header.count(section, lines.content.justice);
        check_section(bytes, header, section, count, &lines.marks, checked)?;
    }
    Ok(())
}

fn check_section(
    bytes: &[u8],
    header: &Header,
    section: Section,
    count: u64,
    marks: &List<bool>,
    checked: &mut Checked,
) -> Result<(), AigerError>
    requires fits { Fits header.now }
    requires room { length bytes.now ≤ 67108864 }
    requires known { AreKnown header.now bytes.now marks.now }
    requires checked { AreChecked header.now bytes.now checked.old.line checked.old }
    requires section { (j : ℕ) → j < count
        → section_of header.now bytes.now (checked.old.line + j) ≡ section }
    requires within { checked.old.line + count ≤ counted header.now bytes.now }
    ensures { IsUseAnswer header.now bytes.now (checked.old.line + count) checked.new result }
{
    for _ in 0..count {
        check_line(bytes, header, section, marks, checked)?;
    }
    Ok(())
}

fn check_line(
    bytes: &[u8],
    header: &Header,
    section: Section,
    marks: &List<bool>,
    checked: &mut Checked,
) -> Result<(), AigerError>
    requires fits { Fits header.now }
    requires room { length bytes.now ≤ 67108864 }
    requires known { AreKnown header.now bytes.now marks.now }
    requires checked { AreChecked header.now bytes.now checked.old.line checked.old }
    requires section { section_of header.now bytes.now checked.old.line ≡ section }
    requires within { checked.old.line < counted header.now bytes.now }
    ensures { IsUseAnswer header.now bytes.now (suc checked.old.line) checked.new result }
{
    let line = checked.line;
    let next = read_row(bytes, header, section, line, checked.at, &mut checked.row)?;
    if any_unmarked(used(section, checked.row.as_slice()), marks) {
        return Err(AigerError::Bad {
            kind: AigKind::Undefined,
            byte: checked.at as u32,
        });
    }
    checked.at = next;
    checked.line += 1;
    Ok(())
}

/// The literals that the line uses.
fn used(section: Section, row: &[u64]) -> &[u64]
    ensures { result.now ≡ used section row.now }
{
    match section {
        Section::Inputs | Section::Sizes => &[],
        Section::Latches => first_only(without_first(row)),
        Section::Gates => without_first(row),
        _ => row,
    }
}

fn without_first(row: &[u64]) -> &[u64]
    ensures { result.now ≡ drop 1 row.now }
{
    match row {
        [] => row,
        [_, rest @ ..] => rest,
    }
}

fn first_only(row: &[u64]) -> &[u64]
    ensures { result.now ≡ take 1 row.now }
{
    let (front, _) = row.split_at(row.len().min(1));
    front
}

/// Whether the variable of some literal is not marked.
fn any_unmarked(literals: &[u64], marks: &List<bool>) -> bool
    ensures { result ≡ list_any (λ l. not (is_marked marks.now l)) literals.now }
{
    literals.iter().any(|l| !is_marked(marks, *l))
}

/// Whether the literal is constant, or its variable is marked.
fn is_marked(marks: &List<bool>, l: u64) -> bool
    ensures { result ≡ is_marked marks.now l }
{
    let v = l / 2;
    v == 0 || (v < marks.len() as u64 && *marks.at(v as usize))
}
