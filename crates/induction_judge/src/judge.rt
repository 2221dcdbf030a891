//! The judges of proofs by induction.

ghost use Rattle.std.specs.Prelude.{◌≡◌, ◌↔◌, ◌≤◌, ◌<◌, ◌^◌, ◌∷◌, ◌++◌, [], List, length, IfOk, IfErr, IfSome, IsTrue};
ghost use Rattle.hy_base.specs.declared.reading.TheConstants.{BYTES_LIMIT};
ghost use Rattle.hy_text.specs.Lines.{lines_of};
ghost use Rattle.cert_text.specs.InductionLines.{SayFreeProof, SayInductionProof};
ghost use Rattle.cert_text.specs.Lines.{Line};
ghost use Rattle.cnf_frames.specs.Facts.{IsSafe};
ghost use Rattle.cnf_frames.specs.declared.inductions.InductionProof.{InductionProof};
ghost use Rattle.induction_judge.specs.Good.{IsGoodInduction, IsRefusedInduction};
ghost use Rattle.induction_judge.specs.Judged.{IsBody, IsJudged};

use crate::facts::take_facts;
use crate::queries::past_logs;
use aig_net::Net;
use cert_text::{free_head, induction_head};
use cnf_frames::{FrameError, Inv};
use hy_text::split_line;
use live_safe::SafeNet;
use std::alloc::Global;

/// No tool makes a deeper proof.
const MOST_DEPTH: u64 = 100_000;

/// Whether the lines of the text, each with its line feed, are a good proof by induction about a
/// circuit, that no path from the start of the net is bad: where they are no proof at all, nothing is
/// said. A depth past 100,000, and facts that name no latch or are not true at the start, are no good
/// before a query is made. In time linear in the text, the queries, where what the keep queries have
/// in common counts once, and the sizes of the clauses of the chains, and in the memory of one query
/// and of one log's clauses; no count of the text takes memory.
///
/// # Errors
///
/// `Limit` where a query of the proof has too many variables or literals: the step query's is asked
/// first, then they come in the order of their logs.
pub fn judge_induction(alloc: Global, safe: &SafeNet, text: &[u8]) -> Result<bool, FrameError>
    requires safe { IsSafe safe.now }
    requires short { length text.now ≤ BYTES_LIMIT }
    ensures judged { IfOk result (λ good. (lines : List Line) (proof : InductionProof)
        → lines_of text.now ≡ lines ++ [] ∷ [] → SayInductionProof lines proof
        → IsTrue good ↔ IsGoodInduction safe.now proof) }
    ensures refused { IfErr result (λ e. (lines : List Line) (proof : InductionProof)
        → lines_of text.now ≡ lines ++ [] ∷ [] → SayInductionProof lines proof
        → IsRefusedInduction safe.now proof e) }
{
    let (line, rest) = split_line(text);
    let Some(rest) = rest else {
        return Ok(false);
    };
    let Some((clauses, depth, count)) = induction_head(line) else {
        return Ok(false);
    };
    let left = past_body(alloc, safe, (clauses, depth, count), rest)?;
    Ok(left.is_some())
}

/// What stands behind the proof by induction over a free net at the front of the text, where that is
/// good; `None` where it is not. All else is as with `judge_induction`.
///
/// # Errors
///
/// As `judge_induction`.
pub fn judge_free<'a>(
    alloc: Global,
    safe: &SafeNet,
    text: &'a [u8],
) -> Result<Option<&'a [u8]>, FrameError>
    requires safe { IsSafe safe.now }
    requires short { length text.now ≤ BYTES_LIMIT }
    ensures judged { IfOk result (λ left. (proof : InductionProof) (front rest : List Line)
        → lines_of text.now ≡ (front ++ rest) ++ [] ∷ [] → SayFreeProof front proof
        → IsJudged safe.now proof rest left) }
    ensures refused { IfErr result (λ e. (proof : InductionProof) (front rest : List Line)
        → lines_of text.now ≡ (front ++ rest) ++ [] ∷ [] → SayFreeProof front proof
        → IsRefusedInduction safe.now proof e) }
    ensures shorter { IfOk result (λ left.
        IfSome left (λ left. length left.now ≤ length text.now)) }
{
    let (line, rest) = split_line(text);
    let Some(rest) = rest else {
        return Ok(None);
    };
    let Some((depth, count)) = free_head(line) else {
        return Ok(None);
    };
    past_body(alloc, safe, (true, depth, count), rest)
}

/// What stands behind the facts and logs at the front of the text, where they are those of a good
/// proof, whose head gave whether facts may be clauses, the depth, and how many facts there are.
fn past_body<'a>(
    alloc: Global,
    safe: &SafeNet,
    head: (bool, u64, u64),
    text: &'a [u8],
) -> Result<Option<&'a [u8]>, FrameError>
    requires safe { IsSafe safe.now }
    requires short { length text.now ≤ BYTES_LIMIT }
    requires few { head.2 < 10 ^ 10 }
    ensures judged { IfOk result (λ left. (proof : InductionProof) (rest : List Line)
        → IsBody head.0 text.now head.1 head.2 proof rest → IsJudged safe.now proof rest left) }
    ensures refused { IfErr result (λ e. (proof : InductionProof) (rest : List Line)
        → IsBody head.0 text.now head.1 head.2 proof rest → IsRefusedInduction safe.now proof e) }
    ensures shorter { IfOk result (λ left.
        IfSome left (λ left. length left.now ≤ length text.now)) }
{
    let (clauses, depth, count) = head;
    if depth > MOST_DEPTH {
        return Ok(None);
    }
    let mut facts = Inv::new(alloc);
    let latches = latches_of(&safe.net);
    let Some(logs) = take_facts(alloc, clauses, latches, count, text, &mut facts)? else {
        return Ok(None);
    };
    past_logs(alloc, safe, &facts, depth as u32, logs)
}

/// How many latches the net has.
fn latches_of(net: &Net) -> u32
    ensures count { result ≡ length net.now.latches }
    ensures few { result < 2 ^ 31 }
{
    net.variables(); // what each net keeps
    net.latches().len() as u32
}
