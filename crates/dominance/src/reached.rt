//! The nodes that two runs reach, and how.

ghost use Rattle.std.specs.Prelude.{◌≡◌, ◌<◌, ◌≤◌, length, IfOk, OnOk, IfSome, IfNone};
ghost use Rattle.std.specs.List.{Contains};
ghost use Rattle.dominance.specs.Runs.{Pairing, IsInside, start_node, next_node};
ghost use Rattle.dominance.specs.Trails.{node_at, AreLinked, AreReached, Grows, IsPath};

use hy_base::{List, M};
use indexmap::IndexSet;
use std::alloc::Global;

/// Where two runs stand: the position, up to the longer column, and the state of each.
#[derive(Clone, Copy, Debug, PartialEq, Eq, Hash)]
pub(crate) struct Node {
    pub at: usize,
    pub upper: u32,
    pub lower: u32,
}

/// By which choice a node was first reached, and from which one.
#[derive(Clone, Copy)]
pub(crate) struct Link {
    from: usize,
    choice: usize,
}

/// Nodes by number, each once, and how each was first reached.
#[derive(Drop)]
pub(crate) struct Reached {
    nodes: IndexSet<Node>,
    links: List<Link>,
}

impl Reached {
    /// The node where both runs begin, as node 0.
    pub(crate) fn new(alloc: Global, start: Node) -> M<Reached>
        requires { start ≡ start_node }
        ensures linked { IfOk result (λ r. AreLinked r.nodes.keys r.links) }
        ensures reached { IfOk result (λ r. (s : Pairing) → IsInside s start
            → AreReached s r.nodes.keys r.links) }
    {
        let mut nodes = IndexSet::new(alloc);
        nodes.insert_full(start)?;
        let mut links = List::new(alloc);
        links.push(Link { from: 0, choice: 0 })?;
        Ok(Reached { nodes, links })
    }

    /// The node with a number, if there are so many.
    pub(crate) fn node(&self, k: usize) -> Option<Node>
        ensures there { IfSome result (λ x. k < length self.now.nodes.keys) }
        ensures node { IfSome result (λ x. x ≡ node_at self.now.nodes.keys k) }
        ensures none { IfNone result (length self.now.nodes.keys ≤ k) }
    {
        self.nodes.get_index(k).copied()
    }

    /// Adds a node that follows node `from` by a choice, if it is new.
    pub(crate) fn add(&mut self, node: Node, from: usize, choice: usize) -> M<()>
        requires from { from < length self.old.nodes.keys }
        requires linked { AreLinked self.old.nodes.keys self.old.links }
        ensures linked { OnOk result (AreLinked self.new.nodes.keys self.new.links) }
        ensures grown { OnOk result (Grows self.old.nodes.keys self.new.nodes.keys) }
        ensures there { OnOk result (Contains self.new.nodes.keys node) }
        ensures reached { OnOk result ((s : Pairing)
            → AreReached s self.old.nodes.keys self.old.links
            → IsInside s node → choice < length s.upper_codes
            → node ≡ next_node s (node_at self.old.nodes.keys from) choice
            → AreReached s self.new.nodes.keys self.new.links) }
    {
        let (_place, is_new) = self.nodes.insert_full(node)?;
        if is_new {
            self.links.push(Link { from, choice })?;
        }
        Ok(())
    }

    /// The choices that lead from node 0 to node `k`, the first choice first.
    pub(crate) fn path(&self, alloc: Global, k: usize) -> M<List<usize>>
        requires there { k < length self.now.nodes.keys }
        requires linked { AreLinked self.now.nodes.keys self.now.links }
        ensures path { IfOk result (λ path. (s : Pairing)
            → AreReached s self.now.nodes.keys self.now.links
            → IsPath s self.now.nodes.keys k path) }
    {
        let mut path = List::new(alloc);
        let mut at = k;
        while at > 0 {
            let link = *self.links.at(at);
            path.push(link.choice)?;
            at = link.from;
        }
        path.reverse();
        Ok(path)
    }
}
