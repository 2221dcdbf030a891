//! Steps of a draft: members that are done, and choices.

ghost use Rattle.std.specs.Prelude.{◌≡◌, ℕ, ◌≤◌, ◌<◌, ◌*◌, ◌||◌, false, length, IfOk};
ghost use Rattle.std.specs.FinSet.{contains};
ghost use Rattle.ltl_tableau.specs.Ways.{AreDead, AreOpposites, AreSkips, Within};
ghost use Rattle.ltl_tableau.specs.Drafts.{Chosen, Chooses, IsStep, Runs, SideBelow, side_work};

use crate::links::Links;
use crate::settle::Draft;
use crate::skips::Skips;
use hy_base::{List, M};
use ltl_closure::{Closure, Node, Obl};

/// What becomes of a draft.
pub enum Step {
    /// No branch comes from it.
    Ends,
    Goes,
    /// A choice, the first one first.
    Splits(Side, Side),
}

/// One way to choose: members that are held then, and whether the member that asks for the choice
/// is put off.
#[derive(Clone, Copy)]
pub struct Side {
    first: u16,
    second: u16,
    postpones: bool,
}

impl<const W: usize> Draft<W> {
    /// What becomes of the draft by one way to choose, where a branch may come from it.
    pub fn chosen(
        &self,
        c: &Closure,
        links: &Links,
        skips: &Skips<W>,
        side: &Side,
        agenda: &mut List<u16>,
    ) -> M<Option<Draft<W>>>
        requires width { W ≤ 16 }
        requires members { length c.now.nodes ≤ 64 * W }
        requires links { AreOpposites c.now.nodes links.now.opposites }
        requires base { Within skips.now.held self.now.work.held }
        requires place { self.now.work.below < length c.now.nodes }
        requires side { SideBelow self.now.work.below side.now }
        requires dead { AreDead c.now.nodes self.now.work.held self.now.dead }
        ensures { IfOk result (Chosen c.now.nodes skips.now.held self.now side.now) }
    {
        let _base = &skips.held;
        self.note(c, links, side.first, agenda)?;
        self.note(c, links, side.second, agenda)?;
        let mut draft = self.taken(c, side);
        if draft.settle(c, links, agenda)? {
            Ok(Some(draft))
        } else {
            Ok(None)
        }
    }

    /// The draft with one way to choose.
    fn taken(&self, c: &Closure, side: &Side) -> Draft<W>
        requires width { W ≤ 16 }
        requires members { length c.now.nodes ≤ 64 * W }
        requires place { self.now.work.below < length c.now.nodes }
        requires side { SideBelow self.now.work.below side.now }
        requires dead { AreDead c.now.nodes self.now.work.held self.now.dead }
        ensures work { result.work ≡ side_work self.now.work side.now }
        ensures below { result.work.below ≤ length c.now.nodes }
        ensures dead { AreDead c.now.nodes result.work.held result.dead }
    {
        let _members = c.len();
        let mut draft = *self;
        draft.take(side);
        draft
    }

    /// Does what is to do up to a choice, or to the end.
    pub fn run(&mut self, c: &Closure, links: &Links, skips: &Skips<W>) -> Step
        requires width { W ≤ 16 }
        requires members { length c.now.nodes ≤ 64 * W }
        requires links { AreOpposites c.now.nodes links.now.opposites }
        requires skips { AreSkips c.now.nodes skips.now.held skips.now.to }
        requires base { Within skips.now.held self.old.work.held }
        requires within { self.old.work.below ≤ length c.now.nodes }
        requires dead { AreDead c.now.nodes self.old.work.held self.old.dead }
        ensures { Runs c.now.nodes self.old self.new result }
    {
        while self.work.below > 0 {
            match self.step(c, links, skips) {
                Step::Ends => return Step::Ends,
                Step::Splits(first, second) => return Step::Splits(first, second),
                Step::Goes => {}
            }
        }
        Step::Goes
    }

    /// Passes over members that need no step, or does one step.
    fn step(&mut self, c: &Closure, links: &Links, skips: &Skips<W>) -> Step
        requires width { W ≤ 16 }
        requires members { length c.now.nodes ≤ 64 * W }
        requires links { AreOpposites c.now.nodes links.now.opposites }
        requires skips { AreSkips c.now.nodes skips.now.held skips.now.to }
        requires base { Within skips.now.held self.old.work.held }
        requires some { 0 < self.old.work.below }
        requires within { self.old.work.below ≤ length c.now.nodes }
        requires dead { AreDead c.now.nodes self.old.work.held self.old.dead }
        ensures { IsStep c.now.nodes self.old self.new result }
    {
        let below = skips.below(c, self.work.below);
        if below < self.work.below {
            self.work.below = below;
            return Step::Goes;
        }
        self.advance(c, links)
    }

    /// Does the greatest member that is to do, or passes over the numbers above it.
    fn advance(&mut self, c: &Closure, links: &Links) -> Step
        requires width { W ≤ 16 }
        requires members { length c.now.nodes ≤ 64 * W }
        requires links { AreOpposites c.now.nodes links.now.opposites }
        requires some { 0 < self.old.work.below }
        requires within { self.old.work.below ≤ length c.now.nodes }
        requires dead { AreDead c.now.nodes self.old.work.held self.old.dead }
        ensures { IsStep c.now.nodes self.old self.new result }
    {
        let below = self.work.below - 1;
        let f = usize::from(below);
        if !self.work.held.has(f) {
            self.work.below = last_to_do(&self.work.held, below);
            return Step::Goes;
        }
        self.work.below = below;
        match c.node(below) {
            Node::True => Step::Goes,
            Node::False => Step::Ends,
            Node::Lit { .. } => {
                if self.clashes(c, links, below) {
                    Step::Ends
                } else {
                    Step::Goes
                }
            }
            Node::And(g, h) => {
                self.work.hold(g);
                self.work.hold(h);
                Step::Goes
            }
            Node::Next(g) => {
                self.work.put_off(g);
                Step::Goes
            }
            Node::WeakNext(g) => {
                self.work.put_off(g);
                Step::Goes
            }
            Node::Or(g, h) => self.choose(c, Side::of(g, g, false), Side::of(h, h, false)),
            Node::Until(g, h) => self.choose(c, Side::of(h, h, false), Side::of(g, g, true)),
            Node::Release(g, h) => self.choose(c, Side::of(g, h, false), Side::of(h, h, true)),
        }
    }

    /// Takes the one way to choose where the other is dead.
    fn choose(&mut self, c: &Closure, first: Side, second: Side) -> Step
        requires width { W ≤ 16 }
        requires members { length c.now.nodes ≤ 64 * W }
        requires place { self.old.work.below < length c.now.nodes }
        requires first_below { SideBelow self.old.work.below first }
        requires second_below { SideBelow self.old.work.below second }
        requires dead { AreDead c.now.nodes self.old.work.held self.old.dead }
        ensures { Chooses c.now.nodes self.old self.new first second result }
    {
        if self.rules_out(&first) {
            self.take(&second);
            return Step::Goes;
        }
        if self.rules_out(&second) {
            self.take(&first);
            return Step::Goes;
        }
        Step::Splits(first, second)
    }

    fn rules_out(&self, side: &Side) -> bool
        requires width { W ≤ 16 }
        requires within { SideBelow (64 * W) side.now }
        ensures { result ≡ (contains self.now.dead side.now.first
            || contains self.now.dead side.now.second) }
    {
        self.is_dead(side.first) || self.is_dead(side.second)
    }

    fn take(&mut self, side: &Side)
        requires width { W ≤ 16 }
        requires below { self.old.work.below < 64 * W }
        requires within { SideBelow (64 * W) side.now }
        ensures work { self.new.work ≡ side_work self.old.work side.now }
        ensures dead { self.new.dead ≡ self.old.dead }
    {
        self.work.hold(side.first);
        self.work.hold(side.second);
        if side.postpones {
            let below = self.work.below;
            self.work.put_off(below);
        }
    }
}

impl Side {
    fn of(first: u16, second: u16, postpones: bool) -> Side
        ensures { result ≡ record { first = first; second = second; postpones = postpones } }
    {
        Side {
            first,
            second,
            postpones,
        }
    }
}

/// One more than the greatest member below a number, or 0.
fn last_to_do<const W: usize>(held: &Obl<W>, below: u16) -> u16
    requires width { W ≤ 16 }
    requires within { below ≤ 64 * W }
    ensures lower { result ≤ below }
    ensures none { (k : ℕ) → result ≤ k → k < below → contains held.now k ≡ false }
{
    let mut last = below;
    while 0 < last && !held.has(usize::from(last - 1)) {
        last -= 1;
    }
    last
}
