//! What verdicts and own refusals print.

ghost use Rattle.std.specs.Prelude.{◌≡◌, ◌++◌, IfOk, OnOk, OnErr, codes, decimal};
ghost use Rattle.hy_base.specs.Sink.{KeepsSink, GivesWhole, FailsToGive};
ghost use Rattle.hy_lasso.specs.Printed.{printed_lassos};
ghost use Rattle.mc_tool.specs.Texts.{checked_status, checked_text, evidence_text, shape_line, shown_evidence, shows_proof};

use crate::verdict::Question;
use aig_net::{RunList, runs_text};
use cnf_frames::{InductionProof, print_proof};
use hy_base::{M, Sink, SinkFailed, Text, write_pieces};
use hy_formula::NameTable;
use hy_lasso::{LassoList, print_lassos};
use itoa::Buffer;
use mc_core::Checked;
use std::alloc::Global;

/// Whether the text of a verdict has its proof.
pub fn shows_proof(question: Question) -> bool
    ensures { result ≡ shows_proof question }
{
    match question {
        Question::Check { proof, .. } => proof,
        Question::CheckByStrategy { .. } => false,
    }
}

/// A text of one line.
pub fn line_text(alloc: Global, line: &[u8]) -> M<Text>
    ensures { IfOk result (λ t. t ≡ line.now) }
{
    let mut text = Text::new(alloc);
    text.extend(line)?;
    Ok(text)
}

/// A line, and a line for each lasso behind it.
pub fn with_lassos(alloc: Global, line: &[u8], list: &LassoList, names: &NameTable) -> M<Text>
    ensures { IfOk result (λ t. t ≡ line.now ++ printed_lassos names.now list.now) }
{
    let mut text = line_text(alloc, line)?;
    text.extend(print_lassos(alloc, list, names)?.as_slice())?;
    Ok(text)
}

/// A line that ends in a number.
fn with_number(alloc: Global, front: &[u8], number: u32) -> M<Text>
    ensures { IfOk result (λ t. t ≡ front.now ++ decimal number ++ codes "\n") }
{
    let mut text = line_text(alloc, front)?;
    let mut buffer = Buffer::new();
    text.extend(buffer.format(number).as_bytes())?;
    text.extend(b"\n")?;
    Ok(text)
}

/// The text of a proof by induction, or else of runs.
fn evidence_text(alloc: Global, runs: &RunList, proof: &Option<InductionProof>) -> M<Text>
    ensures { IfOk result (λ t. t ≡ evidence_text runs.now proof.now) }
{
    match proof {
        Some(proof) => print_proof(alloc, proof),
        None => runs_text(alloc, runs.as_slice()),
    }
}

/// Adds the evidence of a verdict, where proofs are shown.
fn push_evidence(
    alloc: Global,
    text: &mut Text,
    shown: bool,
    runs: &RunList,
    proof: &Option<InductionProof>,
) -> M<()>
    ensures { OnOk result (text.new ≡ text.old ++ shown_evidence shown runs.now proof.now) }
{
    if !shown {
        return Ok(());
    }
    text.extend(evidence_text(alloc, runs, proof)?.as_slice())
}

/// The text of what a check comes to, with its evidence where proofs are shown. In time linear in it.
pub fn checked_text(alloc: Global, shown: bool, names: &NameTable, checked: &Checked) -> M<Text>
    ensures { IfOk result (λ t. t ≡ checked_text shown names.now checked.now) }
{
    match checked {
        Checked::Holds {
            traces,
            runs,
            proof,
        } => {
            let mut text = with_lassos(alloc, b"holds\n", traces, names)?;
            push_evidence(alloc, &mut text, shown, runs, proof)?;
            Ok(text)
        }
        Checked::Violated {
            traces,
            runs,
            proof,
        } => {
            let mut text = with_lassos(alloc, b"violated\n", traces, names)?;
            push_evidence(alloc, &mut text, shown, runs, proof)?;
            Ok(text)
        }
        Checked::UnknownDepth { depth, .. } => with_number(alloc, b"unknown depth ", *depth),
        Checked::UnknownConflicts { conflicts, .. } => {
            with_number(alloc, b"unknown conflicts ", *conflicts)
        }
    }
}

/// The exit status of what a check comes to.
pub fn checked_status(checked: &Checked) -> u8
    ensures { result ≡ checked_status checked.now }
{
    match checked {
        Checked::Holds { .. } => 0,
        Checked::Violated { .. } => 1,
        Checked::UnknownDepth { .. } | Checked::UnknownConflicts { .. } => 4,
    }
}

/// Writes the line of a strategy that has not so many inputs and outputs, or has what none may have.
pub fn write_shape<E: Sink>(
    err: &mut E,
    name: &str,
    inputs: u32,
    outputs: u32,
) -> Result<(), SinkFailed>
    ensures keeps { KeepsSink E.Sink err.old err.new }
    ensures given { OnOk result (GivesWhole E.Sink err.old err.new
        (shape_line name.now inputs outputs)) }
    ensures refused { OnErr result (FailsToGive E.Sink err.old err.new
        (shape_line name.now inputs outputs)) }
{
    let mut wanted = Buffer::new();
    let mut driven = Buffer::new();
    write_pieces(
        err,
        &[
            b"error E15 ",
            name.as_bytes(),
            b": inputs ",
            wanted.format(inputs).as_bytes(),
            b" outputs ",
            driven.format(outputs).as_bytes(),
            b"\n",
        ],
    )
}
