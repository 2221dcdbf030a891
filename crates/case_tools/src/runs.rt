//! Runs as words, and the rows of values that follow from them.

use aig_net::{Row, RowList, Run, ValueLasso};
use anyhow::{Result, bail};
use hy_base::List;
use std::alloc::{AllocError, Global};

/// The run of the first latch row and the input rows of the stem and of the cycle.
pub(crate) fn run_of(alloc: Global, first: &str, stem: &str, cycle: &str) -> Result<Run> {
    Ok(Run {
        first: row_of(alloc, first)?,
        stem: rows_of(alloc, stem)?,
        cycle: rows_of(alloc, cycle)?,
    })
}

/// The rows of a word, joined by `;`; none where it is empty.
fn rows_of(alloc: Global, word: &str) -> Result<RowList> {
    let mut rows = List::new(alloc);
    if word.is_empty() {
        return Ok(rows);
    }
    for row in word.split(';') {
        rows.push(row_of(alloc, row)?)?;
    }
    Ok(rows)
}

/// A `0` or `1` for each value, or `-` where there is none.
fn row_of(alloc: Global, word: &str) -> Result<Row> {
    let mut row = List::new(alloc);
    if word == "-" {
        return Ok(row);
    }
    for mark in word.bytes() {
        match mark {
            b'0' => row.push(false)?,
            b'1' => row.push(true)?,
            _ => bail!("{word:?} is no row"),
        }
    }
    Ok(row)
}

/// The rows of the stem, `|` and those of the cycle; the values of a row are those of the constant,
/// the inputs, the latches and the ands.
pub(crate) fn rows_text(alloc: Global, values: &ValueLasso) -> Result<String, AllocError> {
    let mut text = String::new(alloc);
    push_rows(&mut text, &values.stem)?;
    text.push('|')?;
    push_rows(&mut text, &values.cycle)?;
    Ok(text)
}

fn push_rows(text: &mut String, rows: &RowList) -> Result<(), AllocError> {
    for (i, row) in rows.as_slice().iter().enumerate() {
        if i > 0 {
            text.push(';')?;
        }
        for value in row.as_slice() {
            text.push(if *value { '1' } else { '0' })?;
        }
    }
    Ok(())
}
