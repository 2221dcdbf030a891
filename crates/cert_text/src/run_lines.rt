//! The lines of runs: whether they say runs, with no memory, and which.

ghost use Rattle.std.specs.Prelude.{◌≡◌, ◌↔◌, ℕ, List, map, nat_eq, MatchOption, IfOk, IsTrue};
ghost use Rattle.std.specs.List.{list_all};
ghost use Rattle.cert_text.specs.LineParts.{AreRunParts, is_binary};
ghost use Rattle.cert_text.specs.Lines.{IsSaid, Speaks};
ghost use Rattle.cert_text.specs.RunLines.{SaysRow, SaysStem, SaysCycle, SaysRun, SaysRunsHead};

use crate::numbers::one_number;
use crate::words::{equals, past_word, two_words};
use aig_net::{Row, RowList, Run};
use hy_base::{List, M};
use hy_text::cut;
use std::alloc::Global;

/// How many runs stand behind the line.
pub fn runs_head(line: &[u8]) -> Option<u64>
    ensures { MatchOption result ((n : ℕ) → ¬ SaysRunsHead line.now n)
        (λ n. SaysRunsHead line.now n) }
{
    let Some(rest) = past_word(line, b"proof") else {
        return None;
    };
    let Some(count) = past_word(rest, b"runs") else {
        return None;
    };
    one_number(count)
}

/// Whether the line says a run.
pub fn is_run(line: &[u8]) -> bool
    ensures { IsTrue result ↔ Speaks SaysRun line.now }
{
    match run_parts(line) {
        Some((first, stem, cycle)) => is_row(first) && is_stem(stem) && are_rows(cycle),
        None => false,
    }
}

/// The run that the line says: `None` exactly where it says none. In time and memory linear in the
/// line.
pub fn read_run(alloc: Global, line: &[u8]) -> M<Option<Run>>
    ensures { IfOk result (λ found. IsSaid SaysRun line.now found) }
{
    let Some((latches, before, round)) = run_parts(line) else {
        return Ok(None);
    };
    let Some(first) = read_row(alloc, latches)? else {
        return Ok(None);
    };
    let Some(stem) = read_stem(alloc, before)? else {
        return Ok(None);
    };
    let Some(cycle) = read_rows(alloc, round)? else {
        return Ok(None);
    };
    Ok(Some(Run { first, stem, cycle }))
}

/// The row of the latches, and the texts of the stem and of the cycle.
fn run_parts(line: &[u8]) -> Option<(&[u8], &[u8], &[u8])>
    ensures { MatchOption result
        ((first stem cycle : List ℕ) → ¬ AreRunParts line.now first stem cycle)
        (λ parts. AreRunParts line.now parts.0.now parts.1.now parts.2.now) }
{
    let Some((first, rows)) = two_words(line) else {
        return None;
    };
    let Some((stem, cycle)) = cut(rows, b'|') else {
        return None;
    };
    match cut(cycle, b'|') {
        Some(_) => None,
        None => Some((first, stem, cycle)),
    }
}

/// Whether the text says rows, maybe none.
fn is_stem(text: &[u8]) -> bool
    ensures { IsTrue result ↔ Speaks SaysStem text.now }
{
    text.is_empty() || are_rows(text)
}

/// The rows that the text says, maybe none.
fn read_stem(alloc: Global, text: &[u8]) -> M<Option<RowList>>
    ensures { IfOk result (λ found. IsSaid SaysStem text.now found) }
{
    if text.is_empty() {
        return Ok(Some(List::new(alloc)));
    }
    read_rows(alloc, text)
}

/// Whether the text says rows, one at least. In time linear in the text.
fn are_rows(text: &[u8]) -> bool
    ensures { IsTrue result ↔ Speaks SaysCycle text.now }
{
    let mut left = text;
    while let Some((row, rest)) = cut(left, b';') {
        if !is_row(row) {
            return false;
        }
        left = rest;
    }
    is_row(left)
}

/// The rows that the text says, one at least. In time and memory linear in the text.
fn read_rows(alloc: Global, text: &[u8]) -> M<Option<RowList>>
    ensures { IfOk result (λ found. IsSaid SaysCycle text.now found) }
{
    let mut rows = List::new(alloc);
    let mut left = text;
    while let Some((piece, rest)) = cut(left, b';') {
        let Some(row) = read_row(alloc, piece)? else {
            return Ok(None);
        };
        rows.push(row)?;
        left = rest;
    }
    let Some(last) = read_row(alloc, left)? else {
        return Ok(None);
    };
    rows.push(last)?;
    Ok(Some(rows))
}

/// Whether the word says a row.
fn is_row(word: &[u8]) -> bool
    ensures { IsTrue result ↔ Speaks SaysRow word.now }
{
    if equals(word, b"-") {
        return true;
    }
    if word.is_empty() {
        return false;
    }
    are_digits(word)
}

/// Whether each byte is a 0 or a 1.
fn are_digits(word: &[u8]) -> bool
    ensures { result ≡ list_all is_binary word.now }
{
    word.iter().all(|b| *b == b'0' || *b == b'1')
}

/// The row that the word says.
fn read_row(alloc: Global, word: &[u8]) -> M<Option<Row>>
    ensures { IfOk result (λ found. IsSaid SaysRow word.now found) }
{
    if !is_row(word) {
        return Ok(None);
    }
    if equals(word, b"-") {
        return Ok(Some(List::new(alloc)));
    }
    let row = ones(alloc, word)?;
    Ok(Some(row))
}

/// For each byte whether it is a 1.
fn ones(alloc: Global, word: &[u8]) -> M<Row>
    ensures { IfOk result (λ row. row ≡ map (λ b. nat_eq b 49) word.now) }
{
    let mut row = List::new(alloc);
    for b in word {
        row.push(*b == b'1')?;
    }
    Ok(row)
}
