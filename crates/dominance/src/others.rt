//! The words that rows give at the places other than one.

ghost use Rattle.std.specs.Prelude.{◌≡◌, ◌<◌, ◌≤◌, length, IfOk, List as Sequence};
ghost use Rattle.hy_formula.specs.Quantifiers.{Each};
ghost use Rattle.dominance.specs.Choices.{word_of, other_words};

use crate::compare::WordList;
use crate::rows::Row;
use hy_base::{List, M};
use hy_bits::Letters;
use std::alloc::Global;

/// The words at the places other than `place`, in order, by the rows of a path. There are `vars`
/// places.
pub(crate) fn others(
    alloc: Global,
    vars: u8,
    place: u8,
    rows: &[Row],
    path: &List<usize>,
) -> M<WordList>
    requires place { place < vars }
    requires few { vars ≤ 4 }
    requires path { Each (λ k. k < length rows.now) path.now }
    ensures { IfOk result (λ words. words ≡ other_words rows.now path.now vars place) }
{
    let mut words = List::new(alloc);
    for variable in 0..place {
        words.push(word(alloc, variable, rows, path)?)?;
    }
    for variable in place + 1..vars {
        words.push(word(alloc, variable, rows, path)?)?;
    }
    Ok(words)
}

/// The letters of a variable in the rows of a path.
fn word(alloc: Global, variable: u8, rows: &[Row], path: &List<usize>) -> M<Letters>
    requires variable { variable < 4 }
    requires path { Each (λ k. k < length rows.now) path.now }
    ensures { IfOk result (λ made. made ≡ word_of rows.now path.now variable) }
{
    let mut word = List::new(alloc);
    for k in path.as_slice() {
        word.push(rows[*k][variable as usize])?;
    }
    Ok(word)
}
