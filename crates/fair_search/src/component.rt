//! One component of a graph: whether it is fair, and that it is done.

ghost use Rattle.std.specs.Prelude.{◌≡◌, ◌<◌, ℕ, true, false, length, slice_index, slice_index_or, MatchOption};
ghost use Rattle.std.specs.List.{All, Contains};
ghost use Rattle.rank_check.specs.Graphs.{IsEdge, Postpones};
ghost use Rattle.fair_search.specs.Passing.{is_seen, AreDone};
ghost use Rattle.fair_search.specs.Verdicts.{Judges};

use crate::pass::Place;
use hy_base::List;
use rank_check::Graph;

/// What a component says.
#[derive(Clone, Copy, Debug, PartialEq, Eq)]
pub(crate) enum Verdict {
    /// It has an edge within, and each until is somewhere not postponed.
    Fair,
    /// An until that all its nodes postpone, or none and it has no edge within.
    Ends(Option<u32>),
}

/// A node of the component that does not postpone the until.
pub(crate) fn free_node(g: &Graph, nodes: &[u32], until: u32) -> Option<u32>
    requires { All (λ v. v < length g.now.nodes) nodes.now }
    ensures { MatchOption result ((v : ℕ) → Contains nodes.now v → Postpones g.now v until)
        (λ v. Contains nodes.now v × ¬ Postpones g.now v until) }
{
    for v in nodes {
        if !g.postpones(*v, until) {
            return Some(*v);
        }
    }
    None
}

/// What a component says whose nodes lead to one another, if there are several; `looped` says
/// whether its first node leads to itself.
pub(crate) fn judge(g: &Graph, nodes: &[u32], looped: bool) -> Verdict
    requires some { 0 < length nodes.now }
    requires made { All (λ v. v < length g.now.nodes) nodes.now }
    requires no_loop { looped ≡ false → ¬ IsEdge g.now (slice_index nodes.now 0)
        (slice_index nodes.now 0) }
    requires loop_there { looped ≡ true → IsEdge g.now (slice_index nodes.now 0)
        (slice_index nodes.now 0) }
    ensures { Judges g.now nodes.now result }
{
    let root = nodes[0];
    if nodes.len() == 1 && !looped {
        return Verdict::Ends(None);
    }
    for until in g.postponed(root).as_slice() {
        let Some(_free) = free_node(g, nodes, *until) else {
            return Verdict::Ends(Some(*until));
        };
    }
    Verdict::Fair
}

/// Marks nodes as done at a rank.
pub(crate) fn settle(places: &mut List<Place>, nodes: &[u32], rank: u32)
    requires made { All (λ v. v < length places.old) nodes.now }
    requires seen { All (λ v. is_seen (slice_index_or places.old v Place.New) ≡ true) nodes.now }
    ensures { AreDone nodes.now rank places.old places.new }
{
    for v in nodes {
        places.set(*v as usize, Place::Done(rank));
    }
}
