//! Members that need no step.

ghost use Rattle.std.specs.Prelude.{◌≡◌, ◌≤◌, ◌<◌, ◌*◌, length, IfOk, slice_index};
ghost use Rattle.ltl_closure.specs.Nodes.{node_at};
ghost use Rattle.ltl_tableau.specs.Ways.{AreOpposites, AreSkips, Skip, is_plain, opposite_at};

use crate::links::Links;
use hy_base::{List, M};
use ltl_closure::{Closure, Node, Obl};
use std::alloc::Global;

/// What each of some drafts holds, and for each number how far below it no member needs a step
/// there.
#[derive(Drop)]
pub struct Skips<const W: usize> {
    pub held: Obl<W>,
    pub to: List<u16>,
}

impl<const W: usize> Skips<W> {
    /// In time linear in the closure.
    pub fn new(alloc: Global, c: &Closure, links: &Links, held: Obl<W>) -> M<Skips<W>>
        requires width { W ≤ 16 }
        requires members { length c.now.nodes ≤ 64 * W }
        requires links { AreOpposites c.now.nodes links.now.opposites }
        ensures held { IfOk result (λ s. s.held ≡ held.entry) }
        ensures skips { IfOk result (λ s. AreSkips c.now.nodes s.held s.to) }
    {
        let mut to = List::new(alloc);
        let mut last = 0;
        to.push(last)?;
        for k in 0..c.len() {
            if !is_plain(c, links, &held, k as u16) {
                last = k as u16 + 1;
            }
            to.push(last)?;
        }
        Ok(Skips { held, to })
    }

    /// The least number such that no member from it on and below `below` needs a step.
    pub fn below(&self, c: &Closure, below: u16) -> u16
        requires skips { AreSkips c.now.nodes self.now.held self.now.to }
        requires within { below ≤ length c.now.nodes }
        ensures { Skip c.now.nodes self.now.held below result }
    {
        let _members = c.len();
        *self.to.at(usize::from(below))
    }
}

/// Whether a member needs no step where some are held: nothing comes of it but what is held.
fn is_plain<const W: usize>(c: &Closure, links: &Links, held: &Obl<W>, k: u16) -> bool
    requires width { W ≤ 16 }
    requires members { length c.now.nodes ≤ 64 * W }
    requires links { AreOpposites c.now.nodes links.now.opposites }
    requires place { k < length c.now.nodes }
    ensures { result ≡ is_plain held.now (opposite_at links.now.opposites k)
        (node_at c.now.nodes k) }
{
    match c.node(k) {
        Node::True => true,
        Node::Lit { .. } => links.opposite(k).is_none(),
        Node::And(g, h) => held.has(usize::from(g)) && held.has(usize::from(h)),
        _ => false,
    }
}
