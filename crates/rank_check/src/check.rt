//! The check of ranks, and what a yes says.

ghost use Rattle.std.specs.Prelude.{◌≡◌, ◌↔◌, ℕ, ◌<◌, ◌≤◌, length, List, Some, None, IsTrue, IsSome, IsSomeAnd, All};
ghost use Rattle.rank_check.specs.Graphs.{Shape, IsWalk, IsFair};
ghost use Rattle.rank_check.specs.Ranking.{rank_of, reason_of, Follows, IsRanked};

use crate::graph::Graph;
use crate::ranks::Ranks;

/// Under ranks that pass there is no fair walk.
pub fn no_fair_walk()
    ensures { (g : Shape) (r : Ranks) → IsRanked g r → (stem cycle : List ℕ) → IsWalk g stem cycle
        → ¬ IsFair g cycle }
{}

impl Ranks {
    /// The rank of a node, or none.
    pub fn rank(&self, node: u32) -> Option<u32>
        ensures { result ≡ rank_of self.now node }
    {
        if (node as usize) < self.ranks.len() {
            *self.ranks.at(node as usize)
        } else {
            None
        }
    }

    /// The reason of a rank: an until, or none.
    pub fn reason(&self, rank: u32) -> Option<u32>
        ensures { result ≡ reason_of self.now rank }
    {
        if (rank as usize) < self.reasons.len() {
            *self.reasons.at(rank as usize)
        } else {
            None
        }
    }
}

/// Whether ranks pass, in time linear in the graph. They do where each member of the starting group
/// has a rank; where each node that a node with a rank leads to has one that is not higher; and
/// where each rank names an until that all its nodes postpone, or none and no edge joins two nodes
/// of the rank.
pub fn check_ranks(g: &Graph, r: &Ranks) -> bool
    ensures { IsTrue result ↔ IsRanked g.now r.now }
{
    g.whole();
    if !are_ranked(g.members(0), r) {
        return false;
    }
    for node in 0..g.nodes() {
        if !follows(g, r, node) {
            return false;
        }
    }
    true
}

/// Whether each of the nodes has a rank.
fn are_ranked(nodes: &[u32], r: &Ranks) -> bool
    ensures { IsTrue result ↔ All (λ v. IsSome (rank_of r.now v)) nodes.now }
{
    nodes.iter().all(|v| r.rank(*v).is_some())
}

/// Whether the rules hold of a node and of what it leads to.
fn follows(g: &Graph, r: &Ranks, node: u32) -> bool
    requires { node < length g.now.nodes }
    ensures { IsTrue result ↔ Follows g.now r.now node }
{
    match r.rank(node) {
        None => true,
        Some(rank) => {
            let next = g.members(g.group_of(node));
            match r.reason(rank) {
                None => are_below(next, r, rank),
                Some(until) => g.postpones(node, until) && are_at_most(next, r, rank),
            }
        }
    }
}

/// Whether each of the nodes has a rank below this one.
fn are_below(nodes: &[u32], r: &Ranks, rank: u32) -> bool
    ensures { IsTrue result ↔ All (λ w. IsSomeAnd (rank_of r.now w) (λ j. j < rank)) nodes.now }
{
    nodes.iter().all(|w| r.rank(*w).is_some_and(|j| j < rank))
}

/// Whether each of the nodes has a rank that is not above this one.
fn are_at_most(nodes: &[u32], r: &Ranks, rank: u32) -> bool
    ensures { IsTrue result ↔ All (λ w. IsSomeAnd (rank_of r.now w) (λ j. j ≤ rank)) nodes.now }
{
    nodes.iter().all(|w| r.rank(*w).is_some_and(|j| j <= rank))
}
