//! The entries of a rank proof, from the lines of its branches.

ghost use Rattle.std.specs.Prelude.{◌≡◌, ◌≢◌, ◌≤◌, ◌*◌, List as Sequence, [], length, IfOk, IfSome};
ghost use Rattle.rank_proofs.specs.declared.rank_proof.ProofBranch.{ProofBranch};
ghost use Rattle.rank_proofs.specs.Readings.{IsEntryRead};
ghost use Rattle.cert_text.specs.Lines.{Line};
ghost use Rattle.cert_text.specs.RankLines.{SaysBranch};
ghost use Rattle.rank_judge.specs.Fronts.{AreFirst};
ghost use Rattle.rank_judge.specs.Kept.{AreEntriesRead};

use cert_text::read_branch;
use hy_base::{List, M};
use hy_text::split_line;
use ltl_closure::Closure;
use rank_proofs::{Entry, RowProof, read_entry};
use std::alloc::Global;

/// Reads the branches that stand first in the text, `count` of them, into a proof with `ranks`
/// reasons, and gives what is left of the text. `None` once a branch has a number of no member, or
/// a rank without a reason. In time linear in the lines, and with no memory but that of the different
/// entries and of the numbers of one line.
pub fn read_entries<'a, const W: usize>(
    alloc: Global,
    c: &Closure,
    count: u64,
    ranks: u32,
    text: &'a [u8],
    proof: &mut RowProof<W>,
) -> M<Option<&'a [u8]>>
    requires width { W ≤ 16 }
    requires members { length c.now.nodes ≤ 64 * W }
    requires empty { proof.old.entries ≡ [] }
    ensures entries { IfOk result (λ left. (branches : Sequence ProofBranch) (rest : Sequence Line)
        → length branches ≡ count → rest ≢ [] → AreFirst SaysBranch text.now branches rest
        → AreEntriesRead c.now.nodes ranks branches rest proof.new.entries left) }
    ensures reasons { proof.new.reasons ≡ proof.old.reasons }
    ensures shorter { IfOk result
        (λ left. IfSome left (λ left. length left.now ≤ length text.now)) }
{
    let mut now = List::new(alloc);
    let mut next = List::new(alloc);
    let mut left = text;
    for _branch in 0..count {
        let (line, behind) = split_line(left);
        let Some(behind) = behind else {
            return Ok(None);
        };
        let Some(entry) = entry_of(c, ranks, line, &mut now, &mut next)? else {
            return Ok(None);
        };
        proof.add(entry)?;
        left = behind;
    }
    Ok(Some(left))
}

/// The entry of a line, whose sets are put in the two lists on the way.
fn entry_of<const W: usize>(
    c: &Closure,
    ranks: u32,
    line: &[u8],
    now: &mut List<u64>,
    next: &mut List<u64>,
) -> M<Option<Entry<W>>>
    requires width { W ≤ 16 }
    requires members { length c.now.nodes ≤ 64 * W }
    ensures { IfOk result (λ entry. (branch : ProofBranch) → SaysBranch line.now branch
        → IsEntryRead c.now.nodes ranks branch entry) }
{
    let Some(rank) = read_branch(line, now, next)? else {
        return Ok(None);
    };
    let members = now.as_slice();
    let later = next.as_slice();
    Ok(read_entry(c, ranks, rank, members, later))
}
