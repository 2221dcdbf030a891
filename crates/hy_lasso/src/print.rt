//! Lassos as text, one on a line.

ghost use Rattle.std.specs.Prelude.{◌≡◌, ◌++◌, IfOk, OnOk};
ghost use Rattle.hy_lasso.specs.Printed.{printed_lasso, printed_lassos};

use crate::lasso::{Lasso, LassoList};
use hy_base::{List, M, Text};
use hy_formula::NameTable;
use hy_text::push_word;
use std::alloc::Global;

/// A line for each lasso: its stem, `|` and its cycle, with no blanks. In time linear in the text,
/// and for each letter in the names of the table.
pub fn print_lassos(alloc: Global, list: &LassoList, names: &NameTable) -> M<Text>
    ensures { IfOk result (λ text. text ≡ printed_lassos names.now list.now) }
{
    let mut out = List::new(alloc);
    for lasso in list.as_slice() {
        push_lasso(&mut out, lasso, names)?;
    }
    Ok(out)
}

/// Adds the line of a lasso.
fn push_lasso(out: &mut Text, lasso: &Lasso, names: &NameTable) -> M<()>
    ensures { OnOk result (out.new ≡ out.old ++ printed_lasso names.now lasso.now) }
{
    push_word(out, lasso.stem().as_slice(), names)?;
    out.push(b'|')?;
    push_word(out, lasso.cycle().as_slice(), names)?;
    out.push(b'\n')
}
