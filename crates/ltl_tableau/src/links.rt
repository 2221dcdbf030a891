//! What is looked up of a closure while branches are made.

ghost use Rattle.std.specs.Prelude.{◌≡◌, ◌<◌, length, IfOk};
ghost use Rattle.ltl_closure.specs.Plain.{plain_node};
ghost use Rattle.ltl_tableau.specs.Ways.{AreOpposites, IsOpposite, IsSomeBelow, opposite_at};

use hy_base::{List, M};
use ltl_closure::{Closure, Node};
use std::alloc::Global;

/// For each member of a closure the literal that is its opposite, where that is a member too, and
/// the members that it is an operand of.
#[derive(Drop)]
pub struct Links {
    opposites: List<Option<u16>>,
    /// For each member its last use, by its place in `uses`.
    last: List<Option<u16>>,
    uses: List<Use>,
}

/// A member that has another as an operand.
#[derive(Clone, Copy)]
struct Use {
    user: u16,
    /// The use before this one of the same operand.
    before: Option<u16>,
}

impl Links {
    /// The links of a closure, in time linear in it.
    pub fn new(alloc: Global, c: &Closure) -> M<Links>
        ensures { IfOk result (λ l. AreOpposites c.now.nodes l.opposites) }
    {
        let opposites = opposites(alloc, c)?;
        let mut links = Links {
            opposites,
            last: List::filled(alloc, None, c.len())?,
            uses: List::new(alloc),
        };
        for user in 0..c.len() {
            links.add_operands(user as u16, c.node(user as u16))?;
        }
        Ok(links)
    }

    fn add_operands(&mut self, user: u16, node: Node) -> M<()>
        ensures { self.new.opposites ≡ self.old.opposites }
    {
        match node {
            Node::And(g, h) | Node::Or(g, h) | Node::Until(g, h) | Node::Release(g, h) => {
                self.add(g, user)?;
                self.add(h, user)
            }
            _ => Ok(()),
        }
    }

    fn add(&mut self, operand: u16, user: u16) -> M<()>
        ensures { self.new.opposites ≡ self.old.opposites }
    {
        let place = self.uses.len();
        let operand = usize::from(operand);
        if operand < self.last.len() && place < 65_536 {
            let before = *self.last.at(operand);
            self.uses.push(Use { user, before })?;
            self.last.set(operand, Some(place as u16));
        }
        Ok(())
    }

    /// The number of the opposite of a literal, where both are members.
    pub fn opposite(&self, k: u16) -> Option<u16>
        requires { k < length self.now.opposites }
        ensures { result ≡ opposite_at self.now.opposites k }
    {
        *self.opposites.at(usize::from(k))
    }

    /// Adds the members that have member `k` as an operand.
    pub fn add_users(&self, k: u16, agenda: &mut List<u16>) -> M<()> {
        let mut place = self.last_use(k);
        for _ in 0..self.uses.len() {
            let Some(entry) = self.use_at(place) else {
                return Ok(());
            };
            agenda.push(entry.user)?;
            place = entry.before;
        }
        Ok(())
    }

    fn last_use(&self, k: u16) -> Option<u16> {
        let k = usize::from(k);
        if k < self.last.len() {
            *self.last.at(k)
        } else {
            None
        }
    }

    fn use_at(&self, place: Option<u16>) -> Option<Use> {
        let place = usize::from(place?);
        if place < self.uses.len() {
            Some(*self.uses.at(place))
        } else {
            None
        }
    }
}

/// For each member the number of its opposite.
fn opposites(alloc: Global, c: &Closure) -> M<List<Option<u16>>>
    ensures { IfOk result (λ list. AreOpposites c.now.nodes list) }
{
    let mut list = List::new(alloc);
    for k in 0..c.len() {
        list.push(opposite(c, c.node(k as u16)))?;
    }
    Ok(list)
}

/// The number of the opposite of a literal.
fn opposite(c: &Closure, node: Node) -> Option<u16>
    ensures opposite { IsOpposite c.now.nodes (plain_node node) result }
    ensures within { IsSomeBelow (length c.now.nodes) result }
{
    match node {
        Node::Lit { atom, positive } => c.number_of(Node::Lit {
            atom,
            positive: !positive,
        }),
        _ => None,
    }
}
