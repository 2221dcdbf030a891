//! The text of a proof: a line with how many branches and ranks it has, then a line for each branch
//! and a line for each rank.

ghost use Rattle.std.specs.Prelude.{◌≡◌, ◌++◌, ◌∷◌, IfOk, OnOk, decimal};
ghost use Rattle.std.specs.List.{flat_map};
ghost use Rattle.rank_proofs.specs.ProofTexts.{numbers_text, branch_text, reason_text, proof_text};

use crate::rank_proof::{ProofBranch, RankProof};
use hy_base::{M, Text};
use itoa::Buffer;
use std::alloc::Global;

/// The text of the proof, in time linear in its numbers.
pub fn print_rank_proof(alloc: Global, p: &RankProof) -> M<Text>
    ensures { IfOk result (λ text. text ≡ proof_text p.now) }
{
    let mut text = Text::new(alloc);
    text.extend(b"proof rank ")?;
    push_number(&mut text, p.branches.len())?;
    text.extend(b" ")?;
    push_number(&mut text, p.reasons.len())?;
    text.extend(b"\n")?;
    for branch in p.branches.as_slice() {
        push_branch(&mut text, branch)?;
    }
    push_reasons(&mut text, p.reasons.as_slice())?;
    Ok(text)
}

/// Adds a number in decimal digits.
fn push_number(text: &mut Text, number: usize) -> M<()>
    ensures { OnOk result (text.new ≡ text.old ++ decimal number) }
{
    let mut buffer = Buffer::new();
    text.extend(buffer.format(number).as_bytes())
}

/// Adds the line of a branch.
fn push_branch(text: &mut Text, branch: &ProofBranch) -> M<()>
    ensures { OnOk result (text.new ≡ text.old ++ branch_text branch.entry.now) }
{
    text.extend(b"b ")?;
    push_number(text, branch.rank as usize)?;
    text.extend(b" ")?;
    push_numbers(text, branch.now.as_slice())?;
    text.extend(b" ")?;
    push_numbers(text, branch.next.as_slice())?;
    text.extend(b"\n")
}

/// Adds the numbers with a comma between two, or `-` where there are none.
fn push_numbers(text: &mut Text, numbers: &[u32]) -> M<()>
    ensures { OnOk result (text.new ≡ text.old ++ numbers_text numbers.now) }
{
    let Some((first, others)) = numbers.split_first() else {
        return text.extend(b"-");
    };
    push_number(text, *first as usize)?;
    for number in others {
        text.extend(b",")?;
        push_number(text, *number as usize)?;
    }
    Ok(())
}

/// Adds the lines of the reasons.
fn push_reasons(text: &mut Text, reasons: &[Option<u16>]) -> M<()>
    ensures { OnOk result (text.new ≡ text.old ++ flat_map reason_text reasons.now) }
{
    for reason in reasons {
        push_reason(text, *reason)?;
    }
    Ok(())
}

/// Adds the line of a reason.
fn push_reason(text: &mut Text, reason: Option<u16>) -> M<()>
    ensures { OnOk result (text.new ≡ text.old ++ reason_text reason) }
{
    match reason {
        None => text.extend(b"n\n"),
        Some(until) => {
            text.extend(b"u ")?;
            push_number(text, usize::from(until))?;
            text.extend(b"\n")
        }
    }
}
