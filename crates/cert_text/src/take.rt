//! What a line leaves of what is wanted.

ghost use Rattle.std.specs.Prelude.{◌≡◌, ◌<◌, ◌^◌};
ghost use Rattle.cert_text.specs.Wants.{IsTaken, logs_of as many_logs};

use crate::induction_lines::{free_head, induction_head, is_fact, is_learned, log_head};
use crate::lasso_lines::is_lasso;
use crate::question::Question;
use crate::rank_lines::{is_branch, is_reason, rank_head};
use crate::run_lines::{is_run, runs_head};
use crate::want::Want;
use crate::words::equals;
use hy_formula::NameTable;

/// What is wanted behind the line, where it is as wanted. Names change nothing. In time linear in
/// the line, with no memory.
pub fn take(want: Want, line: &[u8], names: &NameTable) -> Option<Want>
    ensures { IsTaken want line.now result }
{
    match want {
        Want::Verdict(question) => take_verdict(question, line),
        Want::FirstLasso => take_first_lasso(line, names),
        Want::Lassos => take_lasso(line, names),
        Want::Evidence => take_evidence(line, names),
        Want::MoreEvidence => take_more_evidence(line, names),
        Want::Proofs(proofs) => take_proof(proofs, line),
        Want::Branches(branches, reasons, proofs) => take_branch(branches, reasons, proofs, line),
        Want::Reasons(reasons, proofs) => take_reason(reasons, proofs, line),
        Want::Facts(clauses, facts, logs, proofs) => take_fact(clauses, facts, logs, proofs, line),
        Want::Logs(logs, proofs) => take_log_head(logs, proofs, line),
        Want::LearnedClauses(clauses, logs, proofs) => take_learned(clauses, logs, proofs, line),
        Want::Runs(runs) => take_run(runs, line),
    }
}

/// The answer, and what evidence it wants.
fn take_verdict(question: Question, line: &[u8]) -> Option<Want>
    ensures { IsTaken (Want.Verdict question) line.now result }
{
    match question {
        Question::Formula => take_formula(line),
        Question::Implication => take_implication(line),
        Question::Equivalence => take_equivalence(line),
        Question::Circuit => take_circuit(line),
    }
}

/// The answer about one formula.
fn take_formula(line: &[u8]) -> Option<Want>
    ensures { IsTaken (Want.Verdict Question.Formula) line.now result }
{
    if equals(line, b"sat") {
        Some(Want::FirstLasso)
    } else if equals(line, b"unsat") {
        Some(Want::Proofs(1))
    } else {
        None
    }
}

/// The answer about an implication.
fn take_implication(line: &[u8]) -> Option<Want>
    ensures { IsTaken (Want.Verdict Question.Implication) line.now result }
{
    if equals(line, b"not implied") {
        Some(Want::FirstLasso)
    } else if equals(line, b"implied") {
        Some(Want::Proofs(1))
    } else {
        None
    }
}

/// The answer about an equivalence: its proof has a part for each direction.
fn take_equivalence(line: &[u8]) -> Option<Want>
    ensures { IsTaken (Want.Verdict Question.Equivalence) line.now result }
{
    if equals(line, b"not equivalent first") || equals(line, b"not equivalent second") {
        Some(Want::FirstLasso)
    } else if equals(line, b"equivalent") {
        Some(Want::Proofs(2))
    } else {
        None
    }
}

/// The answer about a circuit, for which either answer has either evidence.
fn take_circuit(line: &[u8]) -> Option<Want>
    ensures { IsTaken (Want.Verdict Question.Circuit) line.now result }
{
    if equals(line, b"holds") || equals(line, b"violated") {
        Some(Want::Evidence)
    } else {
        None
    }
}

/// The first lasso, behind which more may stand.
fn take_first_lasso(line: &[u8], names: &NameTable) -> Option<Want>
    ensures { IsTaken Want.FirstLasso line.now result }
{
    if is_lasso(line, names) {
        Some(Want::Lassos)
    } else {
        None
    }
}

/// One more lasso.
fn take_lasso(line: &[u8], names: &NameTable) -> Option<Want>
    ensures { IsTaken Want.Lassos line.now result }
{
    if is_lasso(line, names) {
        Some(Want::Lassos)
    } else {
        None
    }
}

/// The head of a proof by induction, or the first lasso.
fn take_evidence(line: &[u8], names: &NameTable) -> Option<Want>
    ensures { IsTaken Want.Evidence line.now result }
{
    if let Some((clauses, depth, facts)) = induction_head(line) {
        return Some(Want::Facts(clauses, facts, logs_of(depth, facts), 0));
    }
    if is_lasso(line, names) {
        Some(Want::MoreEvidence)
    } else {
        None
    }
}

/// The head of runs, or one more lasso.
fn take_more_evidence(line: &[u8], names: &NameTable) -> Option<Want>
    ensures { IsTaken Want.MoreEvidence line.now result }
{
    if let Some(runs) = runs_head(line) {
        return Some(Want::Runs(runs));
    }
    if is_lasso(line, names) {
        Some(Want::MoreEvidence)
    } else {
        None
    }
}

/// How many logs a proof of this depth with so many facts has.
fn logs_of(depth: u64, facts: u64) -> u64
    requires depth { depth < 10 ^ 10 }
    requires facts { facts < 10 ^ 10 }
    ensures { result ≡ many_logs depth facts }
{
    (facts + 63) / 64 + (depth + 2)
}

/// The head of the next proof about a formula.
fn take_proof(proofs: u64, line: &[u8]) -> Option<Want>
    ensures { IsTaken (Want.Proofs proofs) line.now result }
{
    if proofs == 0 {
        return None;
    }
    if let Some((branches, ranks)) = rank_head(line) {
        return Some(Want::Branches(branches, ranks, proofs - 1));
    }
    match free_head(line) {
        Some((depth, facts)) => Some(Want::Facts(true, facts, logs_of(depth, facts), proofs - 1)),
        None => None,
    }
}

/// A branch, or what stands behind the last one.
fn take_branch(branches: u64, reasons: u64, proofs: u64, line: &[u8]) -> Option<Want>
    ensures { IsTaken (Want.Branches branches reasons proofs) line.now result }
{
    if branches == 0 {
        return take_reason(reasons, proofs, line);
    }
    if is_branch(line) {
        Some(Want::Branches(branches - 1, reasons, proofs))
    } else {
        None
    }
}

/// A reason, or what stands behind the last one.
fn take_reason(reasons: u64, proofs: u64, line: &[u8]) -> Option<Want>
    ensures { IsTaken (Want.Reasons reasons proofs) line.now result }
{
    if reasons == 0 {
        return take_proof(proofs, line);
    }
    if is_reason(line) {
        Some(Want::Reasons(reasons - 1, proofs))
    } else {
        None
    }
}

/// A fact, or what stands behind the last one.
fn take_fact(clauses: bool, facts: u64, logs: u64, proofs: u64, line: &[u8]) -> Option<Want>
    ensures { IsTaken (Want.Facts clauses facts logs proofs) line.now result }
{
    if facts == 0 {
        return take_log_head(logs, proofs, line);
    }
    if is_fact(clauses, line) {
        Some(Want::Facts(clauses, facts - 1, logs, proofs))
    } else {
        None
    }
}

/// The head of the next log, or what stands behind the last one.
fn take_log_head(logs: u64, proofs: u64, line: &[u8]) -> Option<Want>
    ensures { IsTaken (Want.Logs logs proofs) line.now result }
{
    if logs == 0 {
        return take_proof(proofs, line);
    }
    match log_head(line) {
        Some(clauses) => Some(Want::LearnedClauses(clauses, logs - 1, proofs)),
        None => None,
    }
}

/// A learned clause, or what stands behind the last one of its log.
fn take_learned(clauses: u64, logs: u64, proofs: u64, line: &[u8]) -> Option<Want>
    ensures { IsTaken (Want.LearnedClauses clauses logs proofs) line.now result }
{
    if clauses == 0 {
        return take_log_head(logs, proofs, line);
    }
    if is_learned(line) {
        Some(Want::LearnedClauses(clauses - 1, logs, proofs))
    } else {
        None
    }
}

/// A run, behind which more may stand.
fn take_run(runs: u64, line: &[u8]) -> Option<Want>
    ensures { IsTaken (Want.Runs runs) line.now result }
{
    if runs > 0 && is_run(line) {
        Some(Want::Runs(runs - 1))
    } else {
        None
    }
}
