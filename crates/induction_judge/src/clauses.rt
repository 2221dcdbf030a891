//! A fact that is a clause of latches.

ghost use Rattle.std.specs.Prelude.{◌≡◌, ◌<◌, ◌^◌, false, IfOk};
ghost use Rattle.aig_net.specs.Nets.{literal_value};
ghost use Rattle.cnf_frames.specs.Facts.{any_true};
ghost use Rattle.cert_text.specs.Lines.{IsSaid};
ghost use Rattle.induction_judge.specs.Reading.{IsClauseTaken, SaysLatch, SaysLatches};

use cert_text::literals_of;
use cnf_frames::Fact;
use hy_base::{M, NumList};
use hy_text::{cut, number};
use std::alloc::Global;

/// The clause that the line says, where it names latches, of which there are `latches`, and is true
/// where all of them are 0. In time and memory linear in the line.
pub fn start_clause(alloc: Global, latches: u32, line: &[u8]) -> M<Option<Fact>>
    requires { latches < 2 ^ 31 }
    ensures { IfOk result (IsClauseTaken latches line.now) }
{
    let Some(words) = literals_of(line) else {
        return Ok(None);
    };
    let Some(literals) = latch_literals(alloc, latches, words)? else {
        return Ok(None);
    };
    let starts = is_any_at_start(literals.as_slice());
    Ok(starts.then_some(Fact::AnyOf(literals)))
}

/// The literals that the words of the text say, where each is one of a latch.
fn latch_literals(alloc: Global, latches: u32, text: &[u8]) -> M<Option<NumList>>
    requires { latches < 2 ^ 31 }
    ensures { IfOk result (IsSaid (SaysLatches latches) text.now) }
{
    let mut literals = NumList::new(alloc);
    let mut left = text;
    while let Some((word, rest)) = cut(left, b' ') {
        let Some(l) = latch_literal(latches, word) else {
            return Ok(None);
        };
        literals.push(l)?;
        left = rest;
    }
    let Some(l) = latch_literal(latches, left) else {
        return Ok(None);
    };
    literals.push(l)?;
    Ok(Some(literals))
}

/// The literal that the word says, where it is one of a latch.
fn latch_literal(latches: u32, word: &[u8]) -> Option<u32>
    requires { latches < 2 ^ 31 }
    ensures { IsSaid (SaysLatch latches) word.now result }
{
    let Some(l) = number(word) else {
        return None;
    };
    let latches = u64::from(latches);
    let latch = l / 2;
    if latch < latches {
        Some(l as u32)
    } else {
        None
    }
}

/// Whether some of the literals is true where all latches are 0.
fn is_any_at_start(literals: &[u32]) -> bool
    ensures { result ≡ any_true (λ _. false) literals.now }
{
    for l in literals {
        if is_at_start(*l) {
            return true;
        }
    }
    false
}

/// Whether the literal is true where all latches are 0.
fn is_at_start(l: u32) -> bool
    ensures { result ≡ literal_value (λ _. false) l }
{
    l % 2 != 0
}
