//! The first line of a rank proof.

ghost use Rattle.std.specs.Prelude.{◌≢◌, ◌≤◌, List, [], length, IfSome, MatchOption};
ghost use Rattle.hy_base.specs.declared.reading.TheConstants.{BYTES_LIMIT};
ghost use Rattle.rank_proofs.specs.declared.rank_proof.RankProof.{RankProof};
ghost use Rattle.cert_text.specs.Lines.{Line};
ghost use Rattle.rank_judge.specs.Fronts.{IsFirst, IsHead};

use cert_text::rank_head;
use hy_text::split_line;

/// How many branches and ranks the proof has that stands first in the text, and what stands behind
/// its first line. A text that has a line for each rank has fewer than 2^32 of them.
pub fn read_head(text: &[u8]) -> Option<(u64, u32, &[u8])>
    requires { length text.now ≤ BYTES_LIMIT }
    ensures head { (proof : RankProof) (rest : List Line) → rest ≢ [] → IsFirst text.now proof rest
        → MatchOption result ⊥ (λ head. IsHead proof rest head.0 head.1 head.2.now) }
    ensures shorter { IfSome result (λ head. length head.2.now ≤ length text.now) }
{
    let (line, behind) = split_line(text);
    let Some(behind) = behind else {
        return None;
    };
    let Some((branches, ranks)) = rank_head(line) else {
        return None;
    };
    if ranks > u64::from(u32::MAX) {
        return None;
    }
    Some((branches, ranks as u32, behind))
}
