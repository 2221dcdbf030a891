//! Where a text goes wrong.

ghost use Rattle.std.specs.Prelude.{◌≤◌, length, IfOk};
ghost use Rattle.hy_base.specs.declared.reading.TheConstants.{BYTES_LIMIT};
ghost use Rattle.cert_text.specs.Texts.{IsAnswer};

use crate::question::Question;
use crate::take::take;
use crate::want::Want;
use hy_base::M;
use hy_formula::NameTable;
use hy_text::split_line;
use std::alloc::Global;

/// The number of the line at which the bytes go wrong, from 1, and `None` where they are a
/// certificate text: the law `one_fault` says that there is one such answer. In time linear in the
/// bytes. Nothing is kept of a line, and no count of the text takes memory.
pub fn fault_in(alloc: Global, bytes: &[u8], question: Question) -> M<Option<u32>>
    requires { length bytes.now ≤ BYTES_LIMIT }
    ensures { IfOk result (λ fault. IsAnswer question bytes.now fault) }
{
    let names = NameTable::new(alloc)?;
    Ok(first_fault(bytes, question, &names))
}

/// As `fault_in`. Names change nothing.
fn first_fault(bytes: &[u8], question: Question, names: &NameTable) -> Option<u32>
    requires { length bytes.now ≤ BYTES_LIMIT }
    ensures { IsAnswer question bytes.now result }
{
    let mut want = Want::Verdict(question);
    let mut left = bytes;
    let mut number = 1;
    loop {
        let (line, rest) = split_line(left);
        let Some(rest) = rest else {
            if line.is_empty() && want.is_over() {
                return None;
            }
            return Some(number);
        };
        let Some(next) = take(want, line, names) else {
            return Some(number);
        };
        want = next;
        left = rest;
        number += 1;
    }
}
