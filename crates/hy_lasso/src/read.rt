//! Files of lassos.

ghost use Rattle.std.specs.Prelude.{◌<◌, ◌≤◌, ◌^◌, length, IfOk};
ghost use Rattle.hy_base.specs.declared.reading.TheConstants.{BYTES_LIMIT};
ghost use Rattle.hy_lasso.specs.LassoFiles.{IsLassosAnswer};

use crate::lasso::LassoList;
use crate::line::take_line;
use hy_base::List;
use hy_formula::NameTable;
use hy_text::{LineError, split_line};
use std::alloc::Global;

/// The lassos of a file, in the order of its lines. Names that the table lacks are passed over. In
/// time and memory linear in the bytes.
///
/// Syntax with the first line that is no text, counted from 1, or with line 0 where all lines are
/// texts and none says a lasso. Limit is no answer.
pub fn read_lassos(alloc: Global, bytes: &[u8], names: &NameTable) -> Result<LassoList, LineError>
    requires { length bytes.now ≤ BYTES_LIMIT }
    ensures answer { IsLassosAnswer names.now bytes.now result }
    ensures some { IfOk result (λ list. 0 < length list) }
    ensures countable { IfOk result (λ list. length list < 2 ^ 32) }
{
    let mut list = List::new(alloc);
    let mut left = Some(bytes);
    let mut line = 1;
    while let Some(text) = left {
        let (first, rest) = split_line(text);
        if !take_line(alloc, first, names, &mut list)? {
            return Err(LineError::Syntax { line });
        }
        left = rest;
        line += 1;
    }
    if list.is_empty() {
        return Err(LineError::Syntax { line: 0 });
    }
    Ok(list)
}
