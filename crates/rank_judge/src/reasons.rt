//! The reasons of a rank proof, from the lines of its ranks.

ghost use Rattle.std.specs.Prelude.{◌≡◌, ◌≢◌, ◌≤◌, ℕ, List, [], length, Option, IfOk, IfSome};
ghost use Rattle.cert_text.specs.Lines.{Line};
ghost use Rattle.cert_text.specs.RankLines.{SaysReason};
ghost use Rattle.rank_judge.specs.Fronts.{AreFirst};
ghost use Rattle.rank_judge.specs.Kept.{AreReasonsRead, IsReasonRead};

use cert_text::read_reason;
use hy_base::M;
use hy_text::split_line;
use ltl_closure::Closure;
use rank_proofs::{RowProof, read_until};

/// Reads the reasons that stand first in the text, `count` of them, into a proof, and gives what is
/// left of the text. `None` once a reason names no until. In time linear in the lines.
pub fn read_reasons<'a, const W: usize>(
    c: &Closure,
    count: u32,
    text: &'a [u8],
    proof: &mut RowProof<W>,
) -> M<Option<&'a [u8]>>
    requires { proof.old.reasons ≡ [] }
    ensures reasons { IfOk result (λ left. (reasons : List (Option ℕ)) (rest : List Line)
        → length reasons ≡ count → rest ≢ [] → AreFirst SaysReason text.now reasons rest
        → AreReasonsRead c.now.nodes reasons rest proof.new.reasons left) }
    ensures entries { proof.new.entries ≡ proof.old.entries }
    ensures shorter { IfOk result
        (λ left. IfSome left (λ left. length left.now ≤ length text.now)) }
{
    let mut left = text;
    for _rank in 0..count {
        let (line, behind) = split_line(left);
        let Some(behind) = behind else {
            return Ok(None);
        };
        let Some(reason) = reason_of(c, line) else {
            return Ok(None);
        };
        proof.add_reason(reason)?;
        left = behind;
    }
    Ok(Some(left))
}

/// The reason of a line.
fn reason_of(c: &Closure, line: &[u8]) -> Option<Option<u16>>
    ensures { (reason : Option ℕ) → SaysReason line.now reason
        → IsReasonRead c.now.nodes reason result }
{
    let Some(reason) = read_reason(line) else {
        return None;
    };
    let Some(number) = reason else {
        return Some(None);
    };
    match read_until(c, number) {
        Some(until) => Some(Some(until)),
        None => None,
    }
}
