//! What is printed: the text of a verdict, and the exit status.

ghost use Rattle.std.specs.Prelude.{◌≡◌, ◌++◌, IfOk, OnOk, codes, decimal};
ghost use Rattle.hy_lasso.specs.Printed.{printed_lassos};
ghost use Rattle.ea_tool.specs.Texts.{circuit_status, circuit_text, number_line, shown_free, shown_proof, shows_proof, side_text, status_of, verdict_text};

use crate::verdict::{CircuitVerdict, EaVerdict, Question};
use cnf_frames::{InductionProof, print_worded};
use hy_base::{M, Text};
use hy_formula::NameTable;
use hy_lasso::{LassoList, print_lassos};
use itoa::Buffer;
use rank_proofs::{RankProof, print_rank_proof};
use std::alloc::Global;

/// Whether a proof is shown beside the verdict on a question.
pub fn shows_proof(question: Question) -> bool
    ensures { result ≡ shows_proof question }
{
    match question {
        Question::Decide { proof, .. } | Question::Relate { proof, .. } => proof,
        Question::Judge | Question::Find { .. } => false,
    }
}

/// A text of one line.
fn line_text(alloc: Global, line: &[u8]) -> M<Text>
    ensures { IfOk result (λ t. t ≡ line.now) }
{
    let mut text = Text::new(alloc);
    text.extend(line)?;
    Ok(text)
}

/// A line, and a line for each lasso behind it.
fn with_lassos(alloc: Global, line: &[u8], list: &LassoList, names: &NameTable) -> M<Text>
    ensures { IfOk result (λ t. t ≡ line.now ++ printed_lassos names.now list.now) }
{
    let mut text = line_text(alloc, line)?;
    text.extend(print_lassos(alloc, list, names)?.as_slice())?;
    Ok(text)
}

/// Adds a proof, where proofs are shown.
fn push_proof(alloc: Global, text: &mut Text, shown: bool, proof: &RankProof) -> M<()>
    ensures { OnOk result (text.new ≡ text.old ++ shown_proof shown proof.now) }
{
    if !shown {
        return Ok(());
    }
    text.extend(print_rank_proof(alloc, proof)?.as_slice())
}

/// A line, and a proof behind it, where proofs are shown.
fn with_proof(alloc: Global, shown: bool, line: &[u8], proof: &RankProof) -> M<Text>
    ensures { IfOk result (λ t. t ≡ line.now ++ shown_proof shown proof.now) }
{
    let mut text = line_text(alloc, line)?;
    push_proof(alloc, &mut text, shown, proof)?;
    Ok(text)
}

/// The text of an equivalence, with the proofs of both directions, where proofs are shown.
fn equivalent_text(alloc: Global, shown: bool, first: &RankProof, second: &RankProof) -> M<Text>
    ensures { IfOk result (λ t. t ≡ codes "equivalent\n" ++ shown_proof shown first.now
        ++ shown_proof shown second.now) }
{
    let mut text = with_proof(alloc, shown, b"equivalent\n", first)?;
    push_proof(alloc, &mut text, shown, second)?;
    Ok(text)
}

/// The line that names the formula which lassos satisfy alone.
fn side_line(side: u8) -> &'static [u8]
    ensures { result.now ≡ codes "not equivalent " ++ side_text side ++ codes "\n" }
{
    match side {
        0 => b"not equivalent first\n",
        _ => b"not equivalent second\n",
    }
}

/// A line that ends in a number.
fn number_line(alloc: Global, front: &[u8], number: u32) -> M<Text>
    ensures { IfOk result (λ t. t ≡ number_line front.now number) }
{
    let mut text = line_text(alloc, front)?;
    let mut buffer = Buffer::new();
    text.extend(buffer.format(number).as_bytes())?;
    text.extend(b"\n")?;
    Ok(text)
}

/// Adds a proof about a free net, where proofs are shown.
fn push_free(alloc: Global, text: &mut Text, shown: bool, proof: &InductionProof) -> M<()>
    ensures { OnOk result (text.new ≡ text.old ++ shown_free shown proof.now) }
{
    if !shown {
        return Ok(());
    }
    text.extend(print_worded(alloc, b"free", proof)?.as_slice())
}

/// A line, and a proof about a free net behind it, where proofs are shown.
fn with_free(alloc: Global, shown: bool, line: &[u8], proof: &InductionProof) -> M<Text>
    ensures { IfOk result (λ t. t ≡ line.now ++ shown_free shown proof.now) }
{
    let mut text = line_text(alloc, line)?;
    push_free(alloc, &mut text, shown, proof)?;
    Ok(text)
}

/// The text of what a free circuit says, but for lassos.
fn circuit_text(alloc: Global, shown: bool, verdict: &CircuitVerdict) -> M<Text>
    ensures { IfOk result (λ t. t ≡ circuit_text shown verdict.now) }
{
    match verdict {
        CircuitVerdict::Unsat { proof } => with_free(alloc, shown, b"unsat\n", proof),
        CircuitVerdict::Implied { proof } => with_free(alloc, shown, b"implied\n", proof),
        CircuitVerdict::Equivalent { first, second } => {
            let mut text = with_free(alloc, shown, b"equivalent\n", first)?;
            push_free(alloc, &mut text, shown, second)?;
            Ok(text)
        }
        CircuitVerdict::UnknownDepth { depth } => number_line(alloc, b"unknown depth ", *depth),
        CircuitVerdict::UnknownConflicts { conflicts } => {
            number_line(alloc, b"unknown conflicts ", *conflicts)
        }
    }
}

/// The exit status of what a free circuit says, but for lassos.
fn circuit_status(verdict: &CircuitVerdict) -> u8
    ensures { result ≡ circuit_status verdict.now }
{
    match verdict {
        CircuitVerdict::Implied { .. } | CircuitVerdict::Equivalent { .. } => 0,
        CircuitVerdict::Unsat { .. } => 1,
        CircuitVerdict::UnknownDepth { .. } | CircuitVerdict::UnknownConflicts { .. } => 4,
    }
}

/// The text of a verdict, with its proof where proofs are shown. Lassos are printed with the names of
/// the table. In time linear in the text.
pub fn verdict_text(alloc: Global, shown: bool, names: &NameTable, verdict: &EaVerdict) -> M<Text>
    ensures { IfOk result (λ t. t ≡ verdict_text shown names.now verdict.now) }
{
    match verdict {
        EaVerdict::Sat { list } => with_lassos(alloc, b"sat\n", list, names),
        EaVerdict::Unsat { proof } => with_proof(alloc, shown, b"unsat\n", proof),
        EaVerdict::NoneWithin { .. } => line_text(alloc, b"none within the bound\n"),
        EaVerdict::Spent { conflicts, .. } => {
            number_line(alloc, b"unknown conflicts ", *conflicts)
        }
        EaVerdict::Implied { proof } => with_proof(alloc, shown, b"implied\n", proof),
        EaVerdict::NotImplied { list } => with_lassos(alloc, b"not implied\n", list, names),
        EaVerdict::Equivalent { first, second } => { equivalent_text(alloc, shown, first, second) }
        EaVerdict::NotEquivalent { side, list } => {
            with_lassos(alloc, side_line(*side), list, names)
        }
        EaVerdict::ByCircuit(verdict) => circuit_text(alloc, shown, verdict),
        EaVerdict::OnTrue => line_text(alloc, b"true\n"),
        EaVerdict::OnFalse => line_text(alloc, b"false\n"),
    }
}

/// The exit status of a verdict.
pub fn status_of(verdict: &EaVerdict) -> u8
    ensures { result ≡ status_of verdict.now }
{
    match verdict {
        EaVerdict::Sat { .. }
        | EaVerdict::Implied { .. }
        | EaVerdict::Equivalent { .. }
        | EaVerdict::OnTrue => 0,
        EaVerdict::Unsat { .. }
        | EaVerdict::NoneWithin { .. }
        | EaVerdict::NotImplied { .. }
        | EaVerdict::NotEquivalent { .. }
        | EaVerdict::OnFalse => 1,
        EaVerdict::Spent { .. } => 4,
        EaVerdict::ByCircuit(verdict) => circuit_status(verdict),
    }
}
