//! The lines of proofs by induction.

ghost use Rattle.std.specs.Prelude.{◌↔◌, ◌<◌, ◌^◌, ◌∷◌, [], ℕ, Bool, codes, MatchOption, IfSome, IsTrue};
ghost use Rattle.cert_text.specs.FactLines.{AreLiteralsFound, IsFactRead};
ghost use Rattle.cert_text.specs.Lines.{Speaks};
ghost use Rattle.cert_text.specs.InductionLines.{SaysFreeHead, SaysHead, SaysInductionHead, SaysFact, SaysLiterals, SaysLogHead, SaysLearned};
ghost use Rattle.cert_text.specs.LineParts.{IsClauseFound, IsChain};

use crate::fact_line::FactLine;
use crate::numbers::{are_numbers, is_count, is_literal, one_number, two_numbers};
use crate::words::{equals, past_word};
use hy_text::cut;

/// Whether the facts of a proof about a circuit that begins with the line may be clauses, its depth,
/// and how many facts it has.
pub fn induction_head(line: &[u8]) -> Option<(bool, u64, u64)>
    ensures said { MatchOption result
        ((clauses : Bool) (k f : ℕ) → ¬ SaysInductionHead clauses line.now k f)
        (λ head. SaysInductionHead head.0 line.now head.1 head.2) }
    ensures short { IfSome result (λ head. (head.1 < 10 ^ 10) × (head.2 < 10 ^ 10)) }
{
    if let Some((depth, facts)) = counts_of(line, b"induction") {
        return Some((false, depth, facts));
    }
    match counts_of(line, b"clauses") {
        Some((depth, facts)) => Some((true, depth, facts)),
        None => None,
    }
}

/// The depth of a proof about a formula that begins with the line, and how many facts it has.
pub fn free_head(line: &[u8]) -> Option<(u64, u64)>
    ensures said { MatchOption result ((k f : ℕ) → ¬ SaysFreeHead line.now k f)
        (λ head. SaysFreeHead line.now head.0 head.1) }
    ensures short { IfSome result (λ head. (head.0 < 10 ^ 10) × (head.1 < 10 ^ 10)) }
{
    counts_of(line, b"free")
}

/// The depth of a proof with this word that begins with the line, and how many facts it has.
fn counts_of(line: &[u8], word: &[u8]) -> Option<(u64, u64)>
    ensures said { MatchOption result ((k f : ℕ) → ¬ SaysHead word.now line.now k f)
        (λ counts. SaysHead word.now line.now counts.0 counts.1) }
    ensures short { IfSome result (λ counts. (counts.0 < 10 ^ 10) × (counts.1 < 10 ^ 10)) }
{
    let Some(rest) = past_word(line, b"proof") else {
        return None;
    };
    let Some(counts) = past_word(rest, word) else {
        return None;
    };
    two_numbers(counts)
}

/// The fact about one latch or two that the line says.
pub fn read_fact(line: &[u8]) -> Option<FactLine>
    ensures { IsFactRead line.now result }
{
    let Some(fact) = past_word(line, b"f") else {
        return None;
    };
    let Some((sign, latches)) = cut(fact, b' ') else {
        return None;
    };
    if equals(sign, b"0") {
        return match one_number(latches) {
            Some(a) => Some(FactLine::Zero(a)),
            None => None,
        };
    }
    if equals(sign, b"1") {
        return match one_number(latches) {
            Some(a) => Some(FactLine::One(a)),
            None => None,
        };
    }
    if equals(sign, b"=") {
        return match two_numbers(latches) {
            Some((a, b)) => Some(FactLine::Same(a, b)),
            None => None,
        };
    }
    if equals(sign, b"!") {
        return match two_numbers(latches) {
            Some((a, b)) => Some(FactLine::Differ(a, b)),
            None => None,
        };
    }
    None
}

/// What stands behind the sign of a clause of latches, which are its literals.
pub fn literals_of(line: &[u8]) -> Option<&[u8]>
    ensures { AreLiteralsFound line.now result }
{
    let Some(fact) = past_word(line, b"f") else {
        return None;
    };
    past_word(fact, b"|")
}

/// Whether the line says a clause of latches.
fn are_literals(line: &[u8]) -> bool
    ensures { IsTrue result ↔ Speaks SaysLiterals line.now }
{
    match literals_of(line) {
        Some(literals) => are_numbers(literals),
        None => false,
    }
}

/// Whether the line says a fact, which may be a clause or not.
pub fn is_fact(clauses: bool, line: &[u8]) -> bool
    ensures { IsTrue result ↔ Speaks (SaysFact clauses) line.now }
{
    if let Some(_) = read_fact(line) {
        return true;
    }
    clauses && are_literals(line)
}

/// How many clauses a log has that begins with the line.
pub fn log_head(line: &[u8]) -> Option<u64>
    ensures { MatchOption result ((n : ℕ) → ¬ SaysLogHead line.now n)
        (λ n. SaysLogHead line.now n) }
{
    let Some(count) = past_word(line, b"log") else {
        return None;
    };
    one_number(count)
}

/// Whether the line says a learned clause and its chain.
pub fn is_learned(line: &[u8]) -> bool
    ensures { IsTrue result ↔ Speaks SaysLearned line.now }
{
    let Some(entry) = past_word(line, b"c") else {
        return false;
    };
    let Some(chain) = past_clause(entry) else {
        return false;
    };
    is_chain(chain)
}

/// What stands behind the literals at the front of the text, the 0 that ends them and its space. In
/// time linear in the text.
fn past_clause(text: &[u8]) -> Option<&[u8]>
    ensures { IsClauseFound text.now result }
{
    let mut left = text;
    while let Some((word, rest)) = cut(left, b' ') {
        if equals(word, b"0") {
            return Some(rest);
        }
        if !is_literal(word) {
            return None;
        }
        left = rest;
    }
    None
}

/// Whether the text is the numbers of a chain and the 0 that ends them. In time linear in the text.
fn is_chain(text: &[u8]) -> bool
    ensures { IsTrue result ↔ IsChain text.now }
{
    let mut left = text;
    while let Some((word, rest)) = cut(left, b' ') {
        if !is_count(word) {
            return false;
        }
        left = rest;
    }
    equals(left, b"0")
}
