//! The text of runs.

ghost use Rattle.std.specs.Prelude.{◌≡◌, ◌++◌, codes, map, IfOk, OnOk};
ghost use Rattle.std.specs.List.{flat_map};
ghost use Rattle.aig_net.specs.RunTexts.{digit, more_rows, row_text, rows_text, run_text, runs_text};

use crate::run::{Row, Run};
use hy_base::{M, Text};
use itoa::Buffer;
use std::alloc::Global;

/// The text of runs: a line that says how many, and one for each. In time linear in it.
pub fn runs_text(alloc: Global, runs: &[Run]) -> M<Text>
    ensures { IfOk result (λ text. text ≡ runs_text runs.now) }
{
    let mut text = Text::new(alloc);
    let mut buffer = Buffer::new();
    text.extend(b"proof runs ")?;
    text.extend(buffer.format(runs.len()).as_bytes())?;
    text.extend(b"\n")?;
    for run in runs {
        push_run(&mut text, run)?;
    }
    Ok(text)
}

/// Adds the line of a run.
fn push_run(text: &mut Text, run: &Run) -> M<()>
    ensures { OnOk result (text.new ≡ text.old ++ run_text run.now) }
{
    push_row(text, &run.first)?;
    text.extend(b" ")?;
    push_rows(text, run.stem.as_slice())?;
    text.extend(b"|")?;
    push_rows(text, run.cycle.as_slice())?;
    text.extend(b"\n")
}

/// Adds rows, with a semicolon between two.
fn push_rows(text: &mut Text, rows: &[Row]) -> M<()>
    ensures { OnOk result (text.new ≡ text.old ++ rows_text rows.now) }
{
    let Some((first, others)) = rows.split_first() else {
        return Ok(());
    };
    push_row(text, first)?;
    push_more_rows(text, others)
}

/// Adds rows, each behind a semicolon.
fn push_more_rows(text: &mut Text, rows: &[Row]) -> M<()>
    ensures { OnOk result (text.new ≡ text.old ++ more_rows rows.now) }
{
    for row in rows {
        text.extend(b";")?;
        push_row(text, row)?;
    }
    Ok(())
}

/// Adds a row: a digit for each value, or a dash where there is none.
fn push_row(text: &mut Text, row: &Row) -> M<()>
    ensures { OnOk result (text.new ≡ text.old ++ row_text row.now) }
{
    if row.is_empty() {
        return text.extend(b"-");
    }
    push_digits(text, row.as_slice())
}

/// Adds a digit for each value.
fn push_digits(text: &mut Text, row: &[bool]) -> M<()>
    ensures { OnOk result (text.new ≡ text.old ++ map digit row.now) }
{
    for value in row {
        text.push(if *value { b'1' } else { b'0' })?;
    }
    Ok(())
}
