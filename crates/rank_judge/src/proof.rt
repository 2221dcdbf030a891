//! A rank proof, from its lines.

ghost use Rattle.std.specs.Prelude.{◌≡◌, ◌≢◌, ◌≤◌, ◌*◌, List, [], length, IfOk, IfSome};
ghost use Rattle.hy_base.specs.declared.reading.TheConstants.{BYTES_LIMIT};
ghost use Rattle.rank_proofs.specs.declared.rank_proof.RankProof.{RankProof};
ghost use Rattle.cert_text.specs.Lines.{Line};
ghost use Rattle.rank_judge.specs.Fronts.{IsFirst};
ghost use Rattle.rank_judge.specs.Kept.{IsProofRead};

use crate::entries::read_entries;
use crate::head::read_head;
use crate::reasons::read_reasons;
use hy_base::M;
use ltl_closure::Closure;
use rank_proofs::RowProof;
use std::alloc::Global;

/// Reads the proof that stands first in the text, and gives what is left of the text. `None` once a
/// number shows that it is no rank proof. In time linear in its lines; a count that the text claims
/// takes no memory.
pub fn read_proof<'a, const W: usize>(
    alloc: Global,
    c: &Closure,
    text: &'a [u8],
    proof: &mut RowProof<W>,
) -> M<Option<&'a [u8]>>
    requires width { W ≤ 16 }
    requires members { length c.now.nodes ≤ 64 * W }
    requires short { length text.now ≤ BYTES_LIMIT }
    requires entries { proof.old.entries ≡ [] }
    requires reasons { proof.old.reasons ≡ [] }
    ensures read { IfOk result (λ left. (said : RankProof) (rest : List Line) → rest ≢ []
        → IsFirst text.now said rest → IsProofRead c.now.nodes said rest proof.new left) }
    ensures shorter { IfOk result
        (λ left. IfSome left (λ left. length left.now ≤ length text.now)) }
{
    let Some((branches, ranks, behind)) = read_head(text) else {
        return Ok(None);
    };
    let Some(left) = read_entries(alloc, c, branches, ranks, behind, proof)? else {
        return Ok(None);
    };
    read_reasons(c, ranks, left, proof)
}
