//! What follows, before any choice, from what a branch has.

ghost use Rattle.std.specs.Prelude.{◌≡◌, ◌≤◌, ◌<◌, ◌*◌, not, length, IfOk, OnOk};
ghost use Rattle.std.specs.FinSet.{insert, contains};
ghost use Rattle.ltl_closure.specs.Nodes.{node_at};
ghost use Rattle.ltl_tableau.specs.Ways.{AreOpposites, AreDead, IsOneMore, IsSomeBelow, has_some, opposite_at, some_if, with_some, fails, first_forced, second_forced};
ghost use Rattle.ltl_tableau.specs.Drafts.{Settled, Settles, holding};

use crate::links::Links;
use hy_base::{List, M};
use ltl_closure::{Closure, Node, Obl};

/// A branch that is being made.
#[derive(Clone, Copy, Debug, PartialEq, Eq, Hash)]
pub struct Work<const W: usize> {
    /// The members to do are those of `held` below this number.
    pub below: u16,
    /// The members that the branch has now, and those that it is to have.
    pub held: Obl<W>,
    pub next: Obl<W>,
}

/// A branch that is being made, and members that no branch has that comes from it.
#[derive(Clone, Copy)]
pub struct Draft<const W: usize> {
    pub work: Work<W>,
    pub dead: Obl<W>,
}

/// Members that each branch of a set with some member has.
#[derive(Clone, Copy)]
struct Forced {
    first: Option<u16>,
    second: Option<u16>,
}

impl<const W: usize> Work<W> {
    /// With member `g` too.
    pub fn hold(&mut self, g: u16)
        requires width { W ≤ 16 }
        requires within { g < 64 * W }
        ensures { self.new ≡ record self.old { held = insert self.old.held g } }
    {
        if !self.held.has(usize::from(g)) {
            self.held = self.held.with(usize::from(g));
        }
    }

    /// With member `g` for the next position too.
    pub fn put_off(&mut self, g: u16)
        requires width { W ≤ 16 }
        requires within { g < 64 * W }
        ensures { self.new ≡ record self.old { next = insert self.old.next g } }
    {
        if !self.next.has(usize::from(g)) {
            self.next = self.next.with(usize::from(g));
        }
    }
}

impl<const W: usize> Draft<W> {
    /// Looks at the members of the agenda, and at those that what was found concerns. Whether some
    /// branch may come from the draft.
    pub fn settle(&mut self, c: &Closure, links: &Links, agenda: &mut List<u16>) -> M<bool>
        requires width { W ≤ 16 }
        requires members { length c.now.nodes ≤ 64 * W }
        requires links { AreOpposites c.now.nodes links.now.opposites }
        requires within { self.old.work.below ≤ length c.now.nodes }
        requires dead { AreDead c.now.nodes self.old.work.held self.old.dead }
        ensures { IfOk result (Settled c.now.nodes self.old self.new) }
    {
        for _ in 0..8 * c.len() {
            let Some(k) = agenda.pop() else {
                return Ok(true);
            };
            if k < self.work.below && !self.review(c, links, k, agenda)? {
                agenda.truncate(0);
                return Ok(false);
            }
        }
        agenda.truncate(0);
        Ok(true)
    }

    /// Looks at one member: whether it is dead, and what it asks for where it is held.
    fn review(&mut self, c: &Closure, links: &Links, k: u16, agenda: &mut List<u16>) -> M<bool>
        requires width { W ≤ 16 }
        requires members { length c.now.nodes ≤ 64 * W }
        requires links { AreOpposites c.now.nodes links.now.opposites }
        requires within { self.old.work.below ≤ length c.now.nodes }
        requires place { k < self.old.work.below }
        requires dead { AreDead c.now.nodes self.old.work.held self.old.dead }
        ensures { IfOk result (Settled c.now.nodes self.old self.new) }
    {
        let _members = c.len();
        if self.fails(c, links, k) {
            return self.rule_out(links, k, agenda);
        }
        self.enforce(c, links, k, agenda)?;
        Ok(true)
    }

    /// Puts a member to the dead ones. Whether it was not held.
    fn rule_out(&mut self, links: &Links, k: u16, agenda: &mut List<u16>) -> M<bool>
        requires width { W ≤ 16 }
        requires within { k < 64 * W }
        ensures verdict { IfOk result (λ ok. ok ≡ not (contains self.old.work.held k)) }
        ensures work { self.new.work ≡ self.old.work }
        ensures dead { IsOneMore self.old.dead k self.new.dead }
    {
        let f = usize::from(k);
        if self.work.held.has(f) {
            return Ok(false);
        }
        if !self.dead.has(f) {
            self.dead = self.dead.with(f);
            links.add_users(k, agenda)?;
        }
        Ok(true)
    }

    /// Holds what a member asks for, where that is held.
    fn enforce(&mut self, c: &Closure, links: &Links, k: u16, agenda: &mut List<u16>) -> M<()>
        requires width { W ≤ 16 }
        requires members { length c.now.nodes ≤ 64 * W }
        requires links { AreOpposites c.now.nodes links.now.opposites }
        requires within { self.old.work.below ≤ length c.now.nodes }
        requires place { k < self.old.work.below }
        requires dead { AreDead c.now.nodes self.old.work.held self.old.dead }
        ensures { OnOk result (Settles c.now.nodes self.old self.new) }
    {
        let _members = c.len();
        if !self.work.held.has(usize::from(k)) {
            return Ok(());
        }
        let forced = self.forced(c, k);
        self.add(c, links, forced.first, agenda)?;
        self.add(c, links, forced.second, agenda)?;
        Ok(())
    }

    /// Whether what is known of its operands rules a member out.
    fn fails(&self, c: &Closure, links: &Links, k: u16) -> bool
        requires width { W ≤ 16 }
        requires members { length c.now.nodes ≤ 64 * W }
        requires links { AreOpposites c.now.nodes links.now.opposites }
        requires place { k < length c.now.nodes }
        ensures { result ≡ fails self.now.work.held self.now.dead
            (opposite_at links.now.opposites k) (node_at c.now.nodes k) }
    {
        match c.node(k) {
            Node::False => true,
            Node::Lit { .. } => self.clashes(c, links, k),
            Node::And(g, h) => self.is_dead(g) || self.is_dead(h),
            Node::Or(g, h) => self.is_dead(g) && self.is_dead(h),
            Node::Until(g, h) => self.is_dead(g) && self.is_dead(h),
            Node::Release(_, h) => self.is_dead(h),
            _ => false,
        }
    }

    /// Whether the opposite of a member is held.
    pub fn clashes(&self, c: &Closure, links: &Links, k: u16) -> bool
        requires width { W ≤ 16 }
        requires members { length c.now.nodes ≤ 64 * W }
        requires links { AreOpposites c.now.nodes links.now.opposites }
        requires place { k < length c.now.nodes }
        ensures { result ≡ has_some self.now.work.held (opposite_at links.now.opposites k) }
    {
        match links.opposite(k) {
            Some(other) => self.work.held.has(usize::from(other)),
            None => false,
        }
    }

    /// What a member asks for in each way to choose that is left.
    fn forced(&self, c: &Closure, k: u16) -> Forced
        requires width { W ≤ 16 }
        requires members { length c.now.nodes ≤ 64 * W }
        requires place { k < length c.now.nodes }
        ensures first { result.first ≡ first_forced self.now.dead (node_at c.now.nodes k) }
        ensures second { result.second ≡ second_forced self.now.dead (node_at c.now.nodes k) }
    {
        let none = Forced {
            first: None,
            second: None,
        };
        match c.node(k) {
            Node::And(g, h) => Forced {
                first: Some(g),
                second: Some(h),
            },
            Node::Or(g, h) => self.other(g, h),
            Node::Until(g, h) => self.other(g, h),
            Node::Release(_, h) => Forced {
                first: Some(h),
                second: None,
            },
            _ => none,
        }
    }

    /// The one of two members whose other is dead.
    fn other(&self, g: u16, h: u16) -> Forced
        requires width { W ≤ 16 }
        requires g_within { g < 64 * W }
        requires h_within { h < 64 * W }
        ensures first { result.first ≡ some_if (contains self.now.dead g) h }
        ensures second { result.second ≡ some_if (contains self.now.dead h) g }
    {
        Forced {
            first: some_if(self.is_dead(g), h),
            second: some_if(self.is_dead(h), g),
        }
    }

    /// Whether a member is known to be in no branch that comes from the draft.
    pub fn is_dead(&self, g: u16) -> bool
        requires width { W ≤ 16 }
        requires within { g < 64 * W }
        ensures { result ≡ contains self.now.dead g }
    {
        self.dead.has(usize::from(g))
    }

    /// With a member too, which is to be looked at, as its opposite is.
    fn add(
        &mut self,
        c: &Closure,
        links: &Links,
        member: Option<u16>,
        agenda: &mut List<u16>,
    ) -> M<()>
        requires width { W ≤ 16 }
        requires members { length c.now.nodes ≤ 64 * W }
        requires links { AreOpposites c.now.nodes links.now.opposites }
        requires within { IsSomeBelow (length c.now.nodes) member }
        ensures { OnOk result (self.new ≡ holding self.old
            (with_some self.old.work.held member)) }
    {
        let Some(g) = member else {
            return Ok(());
        };
        self.note(c, links, g, agenda)?;
        self.work.hold(g);
        Ok(())
    }

    /// Puts a member that is not held on the agenda, and its opposite.
    pub fn note(&self, c: &Closure, links: &Links, g: u16, agenda: &mut List<u16>) -> M<()>
        requires width { W ≤ 16 }
        requires members { length c.now.nodes ≤ 64 * W }
        requires links { AreOpposites c.now.nodes links.now.opposites }
        requires within { g < length c.now.nodes }
    {
        if self.work.held.has(usize::from(g)) {
            return Ok(());
        }
        agenda.push(g)?;
        if let Some(other) = links.opposite(g) {
            agenda.push(other)?;
        }
        Ok(())
    }
}

/// The number, where the condition holds.
fn some_if(condition: bool, number: u16) -> Option<u16>
    ensures { result ≡ some_if condition number }
{
    if condition { Some(number) } else { None }
}
