//! The lassos at the front of a text.

ghost use Rattle.std.specs.Prelude.{◌<◌, ◌≤◌, ◌^◌, length, IfOk};
ghost use Rattle.hy_base.specs.declared.reading.TheConstants.{BYTES_LIMIT};
ghost use Rattle.run_judge.specs.Fronts.{AreFrontLassos};

use hy_base::{List, M};
use hy_formula::NameTable;
use hy_lasso::{LassoList, read_line};
use hy_text::split_line;
use std::alloc::Global;

/// Lassos that stand at the front of a text, and the text from the line behind them on.
#[derive(Drop)]
pub struct Front<'a> {
    pub list: LassoList,
    pub left: &'a [u8],
}

/// The lassos whose lines stand at the front of the text, up to the first line that says none, and
/// the text from that line on. Names that the table lacks are passed over. In time and memory linear
/// in the text.
pub fn lassos_in<'a>(alloc: Global, text: &'a [u8], names: &NameTable) -> M<Front<'a>>
    requires { length text.now ≤ BYTES_LIMIT }
    ensures lassos { IfOk result
        (λ front. AreFrontLassos names.now text.now front.list front.left.now) }
    ensures countable { IfOk result (λ front. length front.list < 2 ^ 32) }
    ensures short { IfOk result (λ front. length front.left.now ≤ length text.now) }
{
    let mut list = List::new(alloc);
    let mut left = text;
    loop {
        let (line, behind) = split_line(left);
        let Some(rest) = behind else {
            return Ok(Front { list, left });
        };
        let Some(lasso) = read_line(alloc, line, names)? else {
            return Ok(Front { list, left });
        };
        list.push(lasso)?;
        left = rest;
    }
}
