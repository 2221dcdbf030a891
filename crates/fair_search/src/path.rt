//! A path from one node to another, by a search in breadth.

ghost use Rattle.std.specs.Prelude.{◌≡◌, ◌<◌, ◌≤◌, ◌+◌, ℕ, true, false, length, IfOk, OnOk};
ghost use Rattle.std.specs.Bool.{OnTrue, OnFalse};
ghost use Rattle.rank_check.specs.Graphs.{Shape, successors_of, IsEdge};
ghost use Rattle.fair_search.specs.Passing.{edges};
ghost use Rattle.fair_search.specs.Paths.{Leads, IsPathFrom, IsSpread, IsSpent, Grows, IsAdded, reached_at};

use hy_base::{List, M, NumList, Steps};
use rank_check::Graph;
use std::alloc::Global;
use std::sync::ledger::Ledger;

/// A node that was reached, and the place of the one from which it was.
#[derive(Clone, Copy)]
pub(crate) struct Reached {
    pub(crate) node: u32,
    pub(crate) from: usize,
}

/// The nodes that were reached, in the order in which they were.
#[derive(Drop)]
pub(crate) struct Spread {
    /// For each node whether it was reached.
    pub(crate) seen: List<bool>,
    pub(crate) reached: List<Reached>,
}

impl Spread {
    /// One node that was reached.
    fn new(alloc: Global, g: &Graph, node: u32) -> M<Spread>
        requires { node < length g.now.nodes }
        ensures { IfOk result (λ s. IsSpread g.now s.seen s.reached ×
            ((reached_at s.reached 0).node ≡ node)) }
    {
        let mut seen = List::filled(alloc, false, g.nodes() as usize)?;
        let mut reached = List::new(alloc);
        seen.set(node as usize, true);
        reached.push(Reached { node, from: 0 })?;
        Ok(Spread { seen, reached })
    }

    /// Reaches what the node at place `head` leads to, and says whether it leads to `to`.
    fn expand<L: Ledger>(
        &mut self,
        g: &Graph,
        head: usize,
        to: u32,
        steps: &mut Steps<L>,
    ) -> M<bool>
        requires spread { IsSpread g.now self.old.seen self.old.reached }
        requires there { head < length self.old.reached }
        ensures spread { OnOk result (IsSpread g.now self.new.seen self.new.reached) }
        ensures grows { OnOk result (Grows self.old.seen self.old.reached self.new.seen
            self.new.reached) }
        ensures found { IfOk result (λ found. OnTrue found
            (IsEdge g.now (reached_at self.old.reached head).node to)) }
        ensures spent { IfOk result (λ found. OnFalse found
            (IsSpent g.now to self.new.seen (reached_at self.old.reached head).node)) }
        ensures most { steps.new ≤ steps.old + length
            (successors_of g.now (reached_at self.old.reached head).node) }
    {
        g.whole();
        let node = self.reached.at(head).node;
        let group = g.group_of(node);
        for i in 0..g.group_len(group) {
            let next = g.member_at(group, i, steps);
            if next == to {
                return Ok(true);
            }
            self.add(next, head)?;
        }
        Ok(false)
    }

    /// Reaches a node from the one at place `from`, where it was not reached before.
    fn add(&mut self, node: u32, from: usize) -> M<()>
        requires { node < length self.old.seen }
        ensures { OnOk result (IsAdded self.old self.new node from) }
    {
        if !*self.seen.at(node as usize) {
            self.seen.set(node as usize, true);
            self.reached.push(Reached { node, from })?;
        }
        Ok(())
    }

    /// The nodes from the first one to the one at place `last`.
    fn trace(&self, alloc: Global, last: usize) -> M<NumList>
        requires last { last < length self.now.reached }
        requires falls { (j : ℕ) → 0 < j → j < length self.now.reached
            → (reached_at self.now.reached j).from < j }
        ensures { (g : Shape) (to : ℕ) → IsSpread g self.now.seen self.now.reached
            → IsEdge g (reached_at self.now.reached last).node to
            → IfOk result (IsPathFrom g (reached_at self.now.reached 0).node to) }
    {
        let mut nodes = NumList::new(alloc);
        let mut place = last;
        while place > 0 {
            let step = self.reached.at(place);
            nodes.push(step.node)?;
            place = step.from;
        }
        let first = self.reached.at(0);
        nodes.push(first.node)?;
        nodes.reverse();
        Ok(nodes)
    }
}

/// A path from one node to another, to which it leads: all its nodes but the last. Each node's
/// members are looked at once at most.
pub(crate) fn path<L: Ledger>(
    alloc: Global,
    g: &Graph,
    from: u32,
    to: u32,
    steps: &mut Steps<L>,
) -> M<NumList>
    requires made { from < length g.now.nodes }
    requires leads { Leads g.now from to }
    ensures path { IfOk result (IsPathFrom g.now from to) }
    ensures most { steps.new ≤ steps.old + edges g.now }
{
    let mut spread = Spread::new(alloc, g, from)?;
    let mut head = 0;
    while head < spread.reached.len() {
        let found = spread.expand(g, head, to, steps)?;
        if found {
            return spread.trace(alloc, head);
        }
        head += 1;
    }
    unreachable!()
}
