//! A log of learned clauses, checked line by line.

ghost use Rattle.std.specs.Prelude.{◌≡◌, ◌↔◌, ◌<◌, ◌≤◌, ◌^◌, [], length, IfOk, IfSome, IsTrue};
ghost use Rattle.hy_base.specs.declared.reading.TheConstants.{BYTES_LIMIT};
ghost use Rattle.induction_judge.specs.Reading.{AreClausesJudged, IsLogJudged};

use cert_text::{log_head, read_learned};
use chain_check::{Checker, Clause};
use hy_base::{M, NumList};
use hy_text::split_line;
use std::alloc::Global;

/// What stands behind the log at the front of the text, where that refutes the clauses that the
/// checker knows. In time linear in the clauses of the log, and the sizes of the clauses of their
/// chains. Nothing is kept of the log but its clauses.
pub fn past_log<'a>(alloc: Global, checker: &mut Checker<'_>, text: &'a [u8]) -> M<Option<&'a [u8]>>
    requires variables { checker.old.variables < 2 ^ 31 }
    requires few { length checker.old.clauses < 2 ^ 31 }
    requires short { length text.now ≤ BYTES_LIMIT }
    ensures judged { IfOk result
        (IsLogJudged checker.old.variables checker.old.clauses text.now) }
    ensures shorter { IfOk result (λ left.
        IfSome left (λ left. length left.now ≤ length text.now)) }
{
    let (line, rest) = split_line(text);
    let Some(rest) = rest else {
        return Ok(None);
    };
    let Some(count) = log_head(line) else {
        return Ok(None);
    };
    past_clauses(alloc, checker, count, rest)
}

/// What stands behind so many lines at the front of the text, where their clauses follow one after
/// the other and the last one is empty.
fn past_clauses<'a>(
    alloc: Global,
    checker: &mut Checker<'_>,
    count: u64,
    text: &'a [u8],
) -> M<Option<&'a [u8]>>
    requires variables { checker.old.variables < 2 ^ 31 }
    requires few { length checker.old.clauses < 2 ^ 31 }
    requires short { length text.now ≤ BYTES_LIMIT }
    ensures judged { IfOk result
        (AreClausesJudged checker.old.variables checker.old.clauses text.now count) }
    ensures shorter { IfOk result (λ left.
        IfSome left (λ left. length left.now ≤ length text.now)) }
{
    let mut clause = Clause::new(alloc);
    let mut chain = NumList::new(alloc);
    let mut left = text;
    for _i in 0..count {
        let (line, rest) = split_line(left);
        let Some(rest) = rest else {
            return Ok(None);
        };
        if !read_learned(line, &mut clause, &mut chain)? {
            return Ok(None);
        }
        if !checker.next(clause.as_slice(), chain.as_slice())? {
            return Ok(None);
        }
        left = rest;
    }
    if !is_end(count, &clause) {
        return Ok(None);
    }
    Ok(Some(left))
}

/// Whether a log of so many clauses, of which this is the last, ends with the empty one.
fn is_end(count: u64, last: &Clause) -> bool
    ensures { IsTrue result ↔ ((0 < count) × (last.now ≡ [])) }
{
    count > 0 && last.is_empty()
}
