//! The lasso of one line.

ghost use Rattle.std.specs.Prelude.{◌≡◌, [], IfOk};
ghost use Rattle.hy_lasso.specs.LassoLines.{IsLassoSaid};
ghost use Rattle.hy_lasso.specs.LineParts.{IsStemFound, IsCycleFound, IsTaken};

use crate::lasso::{Lasso, LassoList};
use hy_base::{List, M};
use hy_bits::Letters;
use hy_formula::NameTable;
use hy_text::{past_blanks, past_byte, read_word, says_nothing};
use std::alloc::Global;

/// Adds the lasso of a line to the list, where it says one, and answers whether the line is a text.
/// Names that the table lacks are passed over. In time linear in the line.
pub fn take_line(alloc: Global, line: &[u8], names: &NameTable, list: &mut LassoList) -> M<bool>
    ensures { IfOk result (λ is_text. IsTaken names.now line.now list.old list.new is_text) }
{
    if says_nothing(line) {
        return Ok(true);
    }
    let Some(lasso) = read_line(alloc, line, names)? else {
        return Ok(false);
    };
    list.push(lasso)?;
    Ok(true)
}

/// The lasso that a line says: `None` exactly where it says none, as a line that is blank, a comment
/// or no text. Names that the table lacks are passed over. In time and memory linear in the line.
pub fn read_line(alloc: Global, line: &[u8], names: &NameTable) -> M<Option<Lasso>>
    ensures { IfOk result (λ found. IsLassoSaid names.now line.now found) }
{
    let mut stem = List::new(alloc);
    let Some(rest) = read_stem(past_blanks(line), names, &mut stem)? else {
        return Ok(None);
    };
    let mut cycle = List::new(alloc);
    if !read_cycle(past_blanks(rest), names, &mut cycle)? {
        return Ok(None);
    }
    Ok(Lasso::new(stem, cycle))
}

/// What stands behind the bar that ends the stem at the front, whose letters are added. `None`
/// where no stem and bar stand there.
fn read_stem<'a>(text: &'a [u8], names: &NameTable, letters: &mut Letters) -> M<Option<&'a [u8]>>
    requires { letters.old ≡ [] }
    ensures { IfOk result (λ rest. IsStemFound names.now text.now letters.new rest) }
{
    if let Some(rest) = past_byte(text, b'|') {
        return Ok(Some(rest));
    }
    let Some(word) = read_word(text, names, text.len(), letters)? else {
        return Ok(None);
    };
    Ok(past_byte(word.rest, b'|'))
}

/// Whether the whole text is a word, whose letters are added.
fn read_cycle(text: &[u8], names: &NameTable, letters: &mut Letters) -> M<bool>
    requires { letters.old ≡ [] }
    ensures { IfOk result (λ is_word. IsCycleFound names.now text.now letters.new is_word) }
{
    let Some(word) = read_word(text, names, text.len(), letters)? else {
        return Ok(false);
    };
    Ok(word.rest.is_empty())
}
