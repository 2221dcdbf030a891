//! From ranks of a tableau's nodes to a proof.

ghost use Rattle.std.specs.Prelude.{◌≡◌, ◌≤◌, ◌<◌, ◌*◌, ◌^◌, ℕ, length, All, IfOk, IsSome, None, slice_index_or};
ghost use Rattle.std.specs.List.Sorted.{IsStrictlyIncreasing};
ghost use Rattle.rank_check.specs.Ranking.{rank_of, reason_of};
ghost use Rattle.ltl_tableau.specs.GraphWalks.{until_reason};
ghost use Rattle.ltl_tableau.specs.Tasks.{set_of};
ghost use Rattle.rank_proofs.specs.Proofs.{branch_of, IsAscending};
ghost use Rattle.ea_core.specs.Shown.{AreEntries, Shows};

use hy_base::{List, M, NumList};
use ltl_closure::{Closure, Node, Obl};
use ltl_tableau::{Branch, Tableau};
use rank_check::Ranks;
use rank_proofs::{ProofBranch, RankProof};
use std::alloc::Global;

/// The proof that ranks of a tableau's nodes give: its branches in their order, each with its rank,
/// and a reason for each rank. In time linear in the branches, each by the width of its sets.
pub fn rank_proof<const W: usize>(
    alloc: Global,
    c: &Closure,
    tableau: &Tableau<W>,
    ranks: &Ranks,
) -> M<RankProof>
    requires width { W ≤ 16 }
    requires ranked { (v : ℕ) → v < length tableau.now.branches.keys
        → IsSome (rank_of ranks.now v) }
    ensures { IfOk result (Shows c.now.nodes tableau.now.branches.keys ranks.now) }
{
    let branches = entries(alloc, tableau, ranks)?;
    let count = rank_count(branches.as_slice());
    let reasons = reasons(alloc, c, ranks, count)?;
    Ok(RankProof { branches, reasons })
}

/// The branches with their ranks.
fn entries<const W: usize>(
    alloc: Global,
    tableau: &Tableau<W>,
    ranks: &Ranks,
) -> M<List<ProofBranch>>
    requires width { W ≤ 16 }
    requires ranked { (v : ℕ) → v < length tableau.now.branches.keys
        → IsSome (rank_of ranks.now v) }
    ensures { IfOk result (AreEntries tableau.now.branches.keys ranks.now) }
{
    let mut entries = List::new(alloc);
    for i in 0..tableau.count() {
        let Some(rank) = ranks.rank(i) else {
            unreachable!()
        };
        entries.push(entry(alloc, tableau.branch(i), rank)?)?;
    }
    Ok(entries)
}

/// A branch with its rank.
fn entry<const W: usize>(alloc: Global, branch: &Branch<W>, rank: u32) -> M<ProofBranch>
    requires { W ≤ 16 }
    ensures branch { IfOk result (λ made. branch_of made ≡ branch.entry.now) }
    ensures rank { IfOk result (λ made. made.rank ≡ rank) }
    ensures ascending { IfOk result IsAscending }
{
    Ok(ProofBranch {
        rank,
        now: members(alloc, &branch.now)?,
        next: members(alloc, &branch.next)?,
    })
}

/// The numbers of a set, ascending.
fn members<const W: usize>(alloc: Global, set: &Obl<W>) -> M<NumList>
    requires { W ≤ 16 }
    ensures set { IfOk result (λ list. set_of list ≡ set.entry.now) }
    ensures ascending { IfOk result IsStrictlyIncreasing }
{
    set.members_below();
    let mut list = NumList::new(alloc);
    for k in 0..64 * W {
        if set.has(k) {
            list.push(k as u32)?;
        }
    }
    Ok(list)
}

/// How many ranks there are, from 0 to the greatest.
fn rank_count(entries: &[ProofBranch]) -> usize
    ensures below { All (λ b. b.rank < result) entries.now }
    ensures least { (n : ℕ) → All (λ b. b.rank < n) entries.now → result ≤ n }
    ensures few { result ≤ 2 ^ 32 }
{
    let mut count = 0;
    for entry in entries {
        count = count.max(entry.rank as usize + 1);
    }
    count
}

/// The reasons of the first `count` ranks.
fn reasons(alloc: Global, c: &Closure, ranks: &Ranks, count: usize) -> M<List<Option<u16>>>
    requires { count ≤ 2 ^ 32 }
    ensures count { IfOk result (λ reasons. length reasons ≡ count) }
    ensures reasons { IfOk result (λ reasons. (r : ℕ) → r < count
        → slice_index_or reasons r None ≡ until_reason c.now.nodes (reason_of ranks.now r)) }
{
    let mut reasons = List::new(alloc);
    for r in 0..count {
        reasons.push(until_reason(c, ranks.reason(r as u32)))?;
    }
    Ok(reasons)
}

/// The until, unless the member is none: a rank without branches may name any.
fn until_reason(c: &Closure, until: Option<u32>) -> Option<u16>
    ensures { result ≡ until_reason c.now.nodes until }
{
    let until = until?;
    if until as usize >= c.len() {
        return None;
    }
    let until = until as u16;
    match c.node(until) {
        Node::Until(_, _) => Some(until),
        _ => None,
    }
}
