//! The facts of a proof, which must be true at the start.

ghost use Rattle.std.specs.Prelude.{◌≡◌, ◌≤◌, ◌<◌, ◌^◌, [], length, IfOk, IfSome};
ghost use Rattle.cert_text.specs.FactLines.{fact_of};
ghost use Rattle.induction_judge.specs.Reading.{AreFactsTaken, AreStartFacts, IsFactTaken, IsStartOf};

use crate::clauses::start_clause;
use cert_text::{FactLine, read_fact};
use cnf_frames::{Fact, Inv};
use hy_base::M;
use hy_text::split_line;
use std::alloc::Global;

/// Takes the facts of so many lines, which may be clauses or not, where each names latches, of which
/// there are `latches`, and is true where all of them are 0; gives what stands behind the lines. In
/// time linear in the lines; no count of the text takes memory.
pub fn take_facts<'a>(
    alloc: Global,
    clauses: bool,
    latches: u32,
    count: u64,
    text: &'a [u8],
    facts: &mut Inv,
) -> M<Option<&'a [u8]>>
    requires empty { facts.old ≡ [] }
    requires room { latches < 2 ^ 31 }
    ensures taken { IfOk result (λ left.
        AreFactsTaken clauses latches text.now count left facts.new) }
    ensures starts { AreStartFacts latches facts.new }
    ensures few { length facts.new ≤ count }
    ensures shorter { IfOk result (λ left.
        IfSome left (λ left. length left.now ≤ length text.now)) }
{
    let mut left = text;
    for _i in 0..count {
        let (line, rest) = split_line(left);
        let Some(rest) = rest else {
            return Ok(None);
        };
        let Some(fact) = start_fact(alloc, clauses, latches, line)? else {
            return Ok(None);
        };
        facts.push(fact)?;
        left = rest;
    }
    Ok(Some(left))
}

/// The fact that the line says, where it is true at the start. In time linear in the line.
fn start_fact(alloc: Global, clauses: bool, latches: u32, line: &[u8]) -> M<Option<Fact>>
    requires { latches < 2 ^ 31 }
    ensures { IfOk result (IsFactTaken clauses latches line.now) }
{
    if let Some(fact) = read_fact(line) {
        return Ok(at_start(latches, fact));
    }
    if clauses {
        start_clause(alloc, latches, line)
    } else {
        Ok(None)
    }
}

/// The fact, where it names latches, of which there are `latches`, and is true where all are 0.
fn at_start(latches: u32, fact: FactLine) -> Option<Fact>
    ensures { IsStartOf latches (fact_of fact) result }
{
    let latches = u64::from(latches);
    match fact {
        FactLine::Zero(a) => {
            if a < latches {
                Some(Fact::Zero(a as u32))
            } else {
                None
            }
        }
        FactLine::Same(a, b) => {
            if a < latches && b < latches {
                Some(Fact::Same(a as u32, b as u32))
            } else {
                None
            }
        }
        FactLine::One(_) | FactLine::Differ(_, _) => None,
    }
}
