//! The text of a proof by induction.

ghost use Rattle.std.specs.Prelude.{◌≡◌, ◌++◌, ◌∷◌, codes, decimal, IfOk, OnOk};
ghost use Rattle.std.specs.List.{flat_map, list_any};
ghost use Rattle.chain_check.specs.LogTexts.{log_text};
ghost use Rattle.cnf_frames.specs.ProofTexts.{fact_text, is_clause, kind_text, proof_text, worded_text};

use crate::facts::Fact;
use crate::inductions::{InductionProof, LogList};
use chain_check::print_log;
use hy_base::{M, Text};
use itoa::Buffer;
use std::alloc::Global;

/// The text of a proof by induction about a circuit, with the word of its facts.
pub fn print_proof(alloc: Global, proof: &InductionProof) -> M<Text>
    ensures { IfOk result (λ text. text ≡ proof_text proof.now) }
{
    print_worded(alloc, kind(proof.inv.as_slice()), proof)
}

/// The text of a proof by induction, which begins with this word: its depth and the number of its facts, a line for each fact,
/// and the logs of the groups of facts, of the base queries and of the step query. In time and
/// memory linear in the proof.
pub fn print_worded(alloc: Global, word: &[u8], proof: &InductionProof) -> M<Text>
    ensures { IfOk result (λ text. text ≡ worded_text word.now proof.now) }
{
    let mut text = Text::new(alloc);
    text.extend(b"proof ")?;
    text.extend(word)?;
    text.extend(b" ")?;
    push_number(&mut text, proof.depth)?;
    text.extend(b" ")?;
    let mut buffer = Buffer::new();
    text.extend(buffer.format(proof.inv.len()).as_bytes())?;
    text.extend(b"\n")?;
    for fact in proof.inv.as_slice() {
        push_fact(&mut text, fact)?;
    }
    push_logs(alloc, &mut text, &proof.keep)?;
    push_logs(alloc, &mut text, &proof.base)?;
    let step = print_log(alloc, &proof.step)?;
    text.extend(step.as_slice())?;
    Ok(text)
}

/// The word of a proof with these facts.
fn kind(facts: &[Fact]) -> &'static [u8]
    ensures { result.now ≡ kind_text facts.now }
{
    if has_clause(facts) {
        b"clauses"
    } else {
        b"induction"
    }
}

/// Whether some fact is of literals.
fn has_clause(facts: &[Fact]) -> bool
    ensures { result ≡ list_any is_clause facts.now }
{
    for fact in facts {
        if let Fact::AnyOf(_) = fact {
            return true;
        }
    }
    false
}

/// Adds the line of a fact.
fn push_fact(text: &mut Text, fact: &Fact) -> M<()>
    ensures { OnOk result (text.new ≡ text.old ++ fact_text fact.now) }
{
    match fact {
        Fact::Zero(a) => push_line(text, b"f 0 ", *a),
        Fact::One(a) => push_line(text, b"f 1 ", *a),
        Fact::Same(a, b) => push_pair(text, b"f = ", *a, *b),
        Fact::Differ(a, b) => push_pair(text, b"f ! ", *a, *b),
        Fact::AnyOf(literals) => push_literals(text, literals.as_slice()),
    }
}

/// Adds a line with literals.
fn push_literals(text: &mut Text, literals: &[u32]) -> M<()>
    ensures { OnOk result (text.new ≡ text.old ++ codes "f |"
        ++ flat_map (λ l. 32 ∷ decimal l) literals.now ++ codes "\n") }
{
    text.extend(b"f |")?;
    for l in literals {
        text.extend(b" ")?;
        push_number(text, *l)?;
    }
    text.extend(b"\n")
}

/// Adds a line with a number.
fn push_line(text: &mut Text, start: &[u8], a: u32) -> M<()>
    ensures { OnOk result (text.new ≡ text.old ++ start.now ++ decimal a ++ codes "\n") }
{
    text.extend(start)?;
    push_number(text, a)?;
    text.extend(b"\n")
}

/// Adds a line with two numbers.
fn push_pair(text: &mut Text, start: &[u8], a: u32, b: u32) -> M<()>
    ensures { OnOk result
        (text.new ≡ text.old ++ start.now ++ decimal a ++ codes " " ++ decimal b ++ codes "\n") }
{
    text.extend(start)?;
    push_number(text, a)?;
    text.extend(b" ")?;
    push_number(text, b)?;
    text.extend(b"\n")
}

/// Adds a number.
fn push_number(text: &mut Text, number: u32) -> M<()>
    ensures { OnOk result (text.new ≡ text.old ++ decimal number) }
{
    let mut buffer = Buffer::new();
    text.extend(buffer.format(number).as_bytes())
}

/// Adds the texts of logs.
fn push_logs(alloc: Global, text: &mut Text, logs: &LogList) -> M<()>
    ensures { OnOk result (text.new ≡ text.old ++ flat_map log_text logs.now) }
{
    for log in logs.as_slice() {
        let printed = print_log(alloc, log)?;
        text.extend(printed.as_slice())?;
    }
    Ok(())
}
