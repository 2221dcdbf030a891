//! The check of a rank proof.

ghost use Rattle.std.specs.Prelude.{◌≡◌, ◌↔◌, ◌<◌, ◌≤◌, ◌*◌, All, IfOk, IsTrue, OnOk, length};
ghost use Rattle.std.specs.Option.{ForSome};
ghost use Rattle.hy_bits.specs.Sets.{AreBelow};
ghost use Rattle.ltl_tableau.specs.Ranks.{IsOfMembers, IsUntilNode, IsRankProof};
ghost use Rattle.rank_proofs.specs.Edges.{Allows, ArePlaced, IsPlaced};
ghost use Rattle.rank_proofs.specs.Known.{Knows};

use crate::entry::{Entry, RowProof};
use crate::tops::{Top, Tops};
use hy_base::M;
use ltl_closure::{Closure, Node, Obl};
use ltl_tableau::{Branch, postpones};
use std::alloc::Global;

/// Whether entries and reasons are a rank proof for a closure and a set of roots.
///
/// The branches of the roots and of each different set that an entry leaves for later are made
/// once. Then each entry takes constant time: all edges from its set are decided by the greatest
/// rank to which they lead.
pub fn check_rank_proof<const W: usize>(
    alloc: Global,
    c: &Closure,
    roots: &Obl<W>,
    proof: &RowProof<W>,
) -> M<bool>
    requires width { W ≤ 16 }
    requires members { length c.now.nodes ≤ 64 * W }
    ensures { IfOk result (λ is. IsTrue is ↔ IsRankProof c.now.nodes roots.now proof.now) }
{
    if !are_untils(c, proof.reasons.as_slice()) {
        return Ok(false);
    }
    let mut tops = Tops::new(alloc, c, proof)?;
    are_placed(alloc, c, roots, proof, &mut tops)
}

/// Whether all branches of the roots have entries, and all that is asked of each entry is so.
fn are_placed<const W: usize>(
    alloc: Global,
    c: &Closure,
    roots: &Obl<W>,
    proof: &RowProof<W>,
    tops: &mut Tops<W>,
) -> M<bool>
    requires width { W ≤ 16 }
    requires members { length c.now.nodes ≤ 64 * W }
    requires knows { Knows c.now.nodes proof.now.entries tops.old }
    ensures { IfOk result (λ are. IsTrue are ↔ ArePlaced c.now.nodes roots.now proof.now) }
{
    if tops.of(alloc, c, roots)?.is_none() {
        return Ok(false);
    }
    for entry in proof.entries.as_slice() {
        if !is_placed(alloc, c, proof, tops, entry)? {
            return Ok(false);
        }
    }
    Ok(true)
}

/// Whether each reason that names a member names an until.
fn are_untils(c: &Closure, reasons: &[Option<u16>]) -> bool
    ensures { IsTrue result ↔ All (λ o. ForSome o (IsUntilNode c.now.nodes)) reasons.now }
{
    reasons.iter().all(|reason| is_until(c, *reason))
}

pub(crate) fn is_until(c: &Closure, reason: Option<u16>) -> bool
    ensures { IsTrue result ↔ ForSome reason (IsUntilNode c.now.nodes) }
{
    let Some(until) = reason else {
        return true;
    };
    if usize::from(until) >= c.len() {
        return false;
    }
    match c.node(until) {
        Node::Until(_, _) => true,
        _ => false,
    }
}

/// Whether all that is asked of an entry is so.
fn is_placed<const W: usize>(
    alloc: Global,
    c: &Closure,
    proof: &RowProof<W>,
    tops: &mut Tops<W>,
    entry: &Entry<W>,
) -> M<bool>
    requires width { W ≤ 16 }
    requires members { length c.now.nodes ≤ 64 * W }
    requires knows { Knows c.now.nodes proof.now.entries tops.old }
    ensures placed { IfOk result (λ is. IsTrue is ↔ IsPlaced c.now.nodes proof.now entry.now) }
    ensures knows { OnOk result (Knows c.now.nodes proof.now.entries tops.new) }
{
    let rank = entry.rank as usize;
    let branch = &entry.branch;
    if rank >= proof.reasons.len() || !is_of_members(c, branch) {
        return Ok(false);
    }
    match tops.of(alloc, c, &branch.next)? {
        Some(top) => Ok(allows(c, entry, top, *proof.reasons.at(rank))),
        None => Ok(false),
    }
}

fn is_of_members<const W: usize>(c: &Closure, branch: &Branch<W>) -> bool
    requires { W ≤ 16 }
    ensures { IsTrue result ↔ IsOfMembers c.now.nodes branch.entry.now }
{
    are_members(c, &branch.now) && are_members(c, &branch.next)
}

/// Whether the set has no number past those of the closure's members.
fn are_members<const W: usize>(c: &Closure, set: &Obl<W>) -> bool
    requires { W ≤ 16 }
    ensures { IsTrue result ↔ AreBelow (length c.now.nodes) set.now }
{
    set.next_from(c.len()).is_none()
}

/// Whether the reason of an entry's rank, and the top of what it leaves for later, allow the rank.
fn allows<const W: usize>(c: &Closure, entry: &Entry<W>, top: Top, reason: Option<u16>) -> bool
    requires width { W ≤ 16 }
    requires members { length c.now.nodes ≤ 64 * W }
    ensures { IsTrue result ↔ Allows c.now.nodes entry.now top reason }
{
    match reason {
        Some(until) => postpones(c, &entry.branch, until) && is_at_most(top, entry.rank),
        None => is_below(top, entry.rank),
    }
}

fn is_at_most(top: Top, rank: u32) -> bool
    ensures { IsTrue result ↔ ForSome top (λ t. t ≤ rank) }
{
    top.is_none_or(|top| top <= rank)
}

fn is_below(top: Top, rank: u32) -> bool
    ensures { IsTrue result ↔ ForSome top (λ t. t < rank) }
{
    top.is_none_or(|top| top < rank)
}
