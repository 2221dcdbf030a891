//! The tableau of a closure.

ghost use Rattle.std.specs.Prelude.{◌≡◌, ◌≤◌, ◌<◌, ◌*◌, ◌-◌, ◌^◌, length, slice_get, Some, IfOk, OnOk, IsErrOf};
ghost use Rattle.rank_check.specs.Graphs.{IsWhole};
ghost use Rattle.ltl_tableau.specs.Tasks.{set_of};
ghost use Rattle.ltl_tableau.specs.Reached.{IsTableau, HasMore};

use crate::branch::Branch;
use crate::brancher::Brancher;
use crate::draw::{draw_groups, draw_nodes};
use crate::explored::Explored;
use crate::tableau_error::TableauError;
use indexmap::IndexSet;
use ltl_closure::{Closure, Obl};
use rank_check::Graph;
use std::alloc::Global;

/// The reachable branches of a closure's roots, each with a number, and the graph of which leads to
/// which. Branches that leave the same set for later lead to one group.
#[derive(Drop)]
pub struct Tableau<const W: usize> {
    branches: IndexSet<Branch<W>>,
    graph: Graph,
    ghost counted: { length graph.nodes ≡ length branches.keys },
}

impl<const W: usize> Tableau<W> {
    /// The tableau of a closure. The branches of each set are found once, and branches that were
    /// found before are known by their hash.
    ///
    /// `States` comes exactly where more than `states` branches are reachable.
    pub fn build(alloc: Global, c: &Closure, states: u32) -> Result<Tableau<W>, TableauError>
        requires width { W ≤ 16 }
        requires members { length c.now.nodes ≤ 64 * W }
        requires states { states < 2 ^ 32 - 1 }
        ensures tableau { IfOk result (λ t. IsTableau c.now.nodes (set_of c.now.roots)
            t.branches.keys t.graph) }
        ensures few { IfOk result (λ t. length t.branches.keys ≤ states) }
        ensures states { IsErrOf result TableauError.States
            → HasMore c.now.nodes (set_of c.now.roots) states }
    {
        let brancher = Brancher::new(alloc, c)?;
        let mut explored = Explored::new(alloc, root_set(c))?;
        while explored.groups.len() < explored.sets.len() {
            explored.explore(alloc, c, &brancher, states)?;
        }
        let Explored {
            sets,
            branches,
            groups,
        } = explored;
        let mut graph = draw_nodes(alloc, c, &sets, &branches)?;
        draw_groups(&mut graph, &groups)?;
        Ok(Tableau { branches, graph })
    }

    /// How many branches there are.
    pub fn count(&self) -> u32
        ensures { result ≡ length self.now.branches.keys }
    {
        self.graph.nodes()
    }

    /// The branch with number `i`.
    pub fn branch(&self, i: u32) -> &Branch<W>
        requires width { W ≤ 16 }
        requires place { i < length self.now.branches.keys }
        ensures { slice_get self.now.branches.keys i ≡ Some result.now }
    {
        &self.branches.as_slice()[i as usize]
    }

    /// The graph of the branches, by their numbers.
    pub fn graph(&self) -> &Graph
        ensures same { result.now ≡ self.now.graph }
        ensures whole { IsWhole result.now }
    {
        self.graph.whole();
        &self.graph
    }
}

/// The roots of a closure as a set.
pub fn root_set<const W: usize>(c: &Closure) -> Obl<W>
    requires width { W ≤ 16 }
    requires members { length c.now.nodes ≤ 64 * W }
    ensures { result ≡ set_of c.now.roots }
{
    let roots = c.roots().as_slice();
    let mut set = Obl::empty();
    let mut i = roots.len();
    while i > 0 {
        i -= 1;
        set = set.with(roots[i] as usize);
    }
    set
}
