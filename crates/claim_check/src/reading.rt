//! A certificate text, as far as it stands before its evidence.

ghost use Rattle.std.specs.Prelude.{◌<◌, ◌≤◌, ◌^◌, length, IfOk};
ghost use Rattle.hy_base.specs.declared.reading.TheConstants.{BYTES_LIMIT};
ghost use Rattle.cert_text.specs.declared.question.Question.{Question};
ghost use Rattle.cert_text.specs.Certificates.{Certificate};
ghost use Rattle.cert_text.specs.Texts.{IsText};
ghost use Rattle.claim_check.specs.Reading.{IsRead};

use hy_base::{List, M};
use hy_formula::NameTable;
use hy_lasso::LassoList;
use hy_text::split_line;
use run_judge::laws::lassos_end;
use run_judge::{Front, lassos_in};
use std::alloc::Global;

/// The parts of a certificate text: its first line, its lassos over a table of names, and the text of
/// the evidence from the line behind them on.
#[derive(Drop)]
pub struct Reading<'a> {
    pub head: &'a [u8],
    pub list: LassoList,
    pub evidence: &'a [u8],
}

/// The parts of a certificate text, whatever was asked. Of other bytes nothing is said. In time and
/// memory linear in the first line and the lassos.
pub fn read_text<'a>(alloc: Global, text: &'a [u8], names: &NameTable) -> M<Reading<'a>>
    requires { length text.now ≤ BYTES_LIMIT }
    ensures read { IfOk result (λ read. (question : Question) (c : Certificate)
        → IsText question text.now c
        → IsRead names.now question c read.head.now read.list read.evidence.now) }
    ensures short { IfOk result (λ read. length read.evidence.now ≤ BYTES_LIMIT) }
    ensures countable { IfOk result (λ read. length read.list < 2 ^ 32) }
{
    lassos_end(); // what stands behind lassos
    let (head, behind) = split_line(text);
    let Some(rest) = behind else {
        return Ok(Reading {
            head,
            list: List::new(alloc),
            evidence: text,
        });
    };
    let Front { list, left } = lassos_in(alloc, rest, names)?;
    Ok(Reading {
        head,
        list,
        evidence: left,
    })
}
