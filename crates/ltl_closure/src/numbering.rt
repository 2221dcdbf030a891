//! Normal forms are visited, and numbered at their first visits.

ghost use Rattle.std.specs.Prelude.{◌≡◌, ◌≤◌, [], length, map, true, false, not, IsTrue, IfOk, IfSome};
ghost use Rattle.hy_formula.specs.Trees.{tree_of, vars_below};
ghost use Rattle.hy_formula.specs.Normals.{normal_form};
ghost use Rattle.hy_formula.specs.Renamed.{renamed};
ghost use Rattle.ltl_closure.specs.Jobs.{variable_in};
ghost use Rattle.ltl_closure.specs.Plain.{plain_node};
ghost use Rattle.ltl_closure.specs.Numbered.{Inserts, Visits, AreSides, VisitsSides, operands_at, refuses_node};

use crate::node::Node;
use hy_base::M;
use hy_formula::{Atom, Body};
use indexmap::IndexSet;
use std::alloc::Global;

/// The most members that a closure has.
pub const MAX_MEMBERS: usize = 1_024;

/// The numbers of the operands of a member; where it has one, this is the first.
#[derive(Clone, Copy)]
pub struct Operands {
    pub first: Option<u16>,
    pub second: Option<u16>,
}

/// The numbers of the operands of two members.
#[derive(Clone, Copy)]
struct Sides {
    left: (u16, u16),
    right: (u16, u16),
}

/// The members so far. Once one more than `MAX_MEMBERS` was met it is full: it takes no more, and
/// what its calls answer means nothing.
#[derive(Drop)]
pub struct Numbering {
    pub members: IndexSet<Node>,
    pub full: bool,
}

impl Numbering {
    /// No member yet.
    pub fn new(alloc: Global) -> Numbering
        ensures none { result.members.keys ≡ [] }
        ensures room { result.full ≡ false }
    {
        Numbering {
            members: IndexSet::new(alloc),
            full: false,
        }
    }

    /// Whether `node` finds no room.
    fn refuses(&self, node: &Node) -> bool
        ensures { result ≡ refuses_node self.now node.now }
    {
        self.full || (self.members.len() == MAX_MEMBERS && !self.members.contains(node))
    }

    /// The number of `node`, which is added last where it is not there.
    fn insert(&mut self, node: Node) -> M<u16>
        requires few { length self.old.members.keys ≤ 1024 }
        ensures few { length self.new.members.keys ≤ 1024 }
        ensures keeps { IsTrue self.old.full → IsTrue self.new.full }
        ensures inserted { IfOk result (Inserts self.old node self.new) }
    {
        if self.refuses(&node) {
            self.full = true;
            return Ok(0);
        }
        let (place, _) = self.members.insert_full(node)?;
        Ok(place as u16)
    }

    /// The operands of the member with a number, where there is one.
    fn operands(&self, number: Option<u16>) -> Operands
        ensures { result ≡ operands_at (map plain_node self.now.members.keys) number }
    {
        let none = Operands {
            first: None,
            second: None,
        };
        let Some(number) = number else {
            return none;
        };
        match self.members.get_index(usize::from(number)) {
            Some(Node::And(g, h)) => both(*g, *h),
            Some(Node::Or(g, h)) => both(*g, *h),
            Some(Node::Next(g)) => Operands {
                first: Some(*g),
                second: None,
            },
            Some(Node::WeakNext(g)) => Operands {
                first: Some(*g),
                second: None,
            },
            Some(Node::Until(g, h)) => both(*g, *h),
            Some(Node::Release(g, h)) => both(*g, *h),
            _ => none,
        }
    }

    /// The operands of the two operands of an equivalence, where both are known.
    fn sides(&self, known: Operands) -> Option<Sides>
        ensures { IfSome result (AreSides (map plain_node self.now.members.keys) known) }
    {
        let left = self.operands(known.first);
        let right = self.operands(known.second);
        Some(Sides {
            left: (left.first?, left.second?),
            right: (right.first?, right.second?),
        })
    }

    /// Visits two conjunctions of members, and their disjunction.
    fn either_both(&mut self, left: (u16, u16), right: (u16, u16)) -> M<u16>
        requires few { length self.old.members.keys ≤ 1024 }
        ensures few { length self.new.members.keys ≤ 1024 }
        ensures keeps { IsTrue self.old.full → IsTrue self.new.full }
        ensures visited { IfOk result (VisitsSides self.old left right self.new) }
    {
        let left = self.insert(Node::And(left.0, left.1))?;
        let right = self.insert(Node::And(right.0, right.1))?;
        self.insert(Node::Or(left, right))
    }

    /// Visits the normal form of `body`, negated where `positive` is false, under `map`, and answers
    /// its number. `other` is the number of the form with the other sign, where that was visited.
    ///
    /// Each part is visited at most once with each sign, and gone into at most twice: where both
    /// signs are wanted, as below an equivalence, the second visit finds the parts of the first by
    /// its number.
    pub fn visit(&mut self, body: &Body, map: &[u8], positive: bool, other: Option<u16>) -> M<u16>
        requires bound { IsTrue (vars_below (length map.now) (tree_of body.now)) }
        requires few { length self.old.members.keys ≤ 1024 }
        ensures few { length self.new.members.keys ≤ 1024 }
        ensures keeps { IsTrue self.old.full → IsTrue self.new.full }
        ensures visited { let tree = renamed (variable_in map.now) (tree_of body.now) in
            IfOk result (Visits self.old (normal_form positive tree) other
            (normal_form (not positive) tree) self.new) }
    {
        if self.full {
            return Ok(0);
        }
        let known = self.operands(other);
        match body {
            Body::True => self.insert(Node::constant(positive)),
            Body::False => self.insert(Node::constant(!positive)),
            Body::Atom(atom) => {
                let var = map[usize::from(atom.var)];
                let atom = Atom {
                    name: atom.name,
                    var,
                };
                self.insert(Node::Lit { atom, positive })
            }
            Body::Not(f) => self.visit(f, map, !positive, other),
            Body::Next(f) => {
                let g = self.visit(f, map, positive, known.first)?;
                self.insert(Node::next(positive, g))
            }
            Body::Finally(f) => {
                let before = self.insert(Node::constant(positive))?;
                let g = self.visit(f, map, positive, known.second)?;
                self.insert(Node::until(positive, before, g))
            }
            Body::Globally(f) => {
                let before = self.insert(Node::constant(!positive))?;
                let g = self.visit(f, map, positive, known.second)?;
                self.insert(Node::until(!positive, before, g))
            }
            Body::And(f, g) => {
                let x = self.visit(f, map, positive, known.first)?;
                let y = self.visit(g, map, positive, known.second)?;
                self.insert(Node::conjunction(positive, x, y))
            }
            Body::Or(f, g) => {
                let x = self.visit(f, map, positive, known.first)?;
                let y = self.visit(g, map, positive, known.second)?;
                self.insert(Node::conjunction(!positive, x, y))
            }
            Body::Implies(f, g) => {
                let x = self.visit(f, map, !positive, known.first)?;
                let y = self.visit(g, map, positive, known.second)?;
                self.insert(Node::conjunction(!positive, x, y))
            }
            Body::Iff(f, g) => {
                if let Some(sides) = self.sides(known) {
                    let left = (sides.left.0, sides.right.1);
                    return self.either_both(left, (sides.right.0, sides.left.1));
                }
                let x = self.visit(f, map, true, None)?;
                let y = self.visit(g, map, positive, None)?;
                let left = self.insert(Node::And(x, y))?;
                let x = self.visit(f, map, false, Some(x))?;
                let y = self.visit(g, map, !positive, Some(y))?;
                let right = self.insert(Node::And(x, y))?;
                self.insert(Node::Or(left, right))
            }
            Body::Until(f, g) => {
                let x = self.visit(f, map, positive, known.first)?;
                let y = self.visit(g, map, positive, known.second)?;
                self.insert(Node::until(positive, x, y))
            }
            Body::Release(f, g) => {
                let x = self.visit(f, map, positive, known.first)?;
                let y = self.visit(g, map, positive, known.second)?;
                self.insert(Node::until(!positive, x, y))
            }
            Body::Weak(f, g) => {
                let inner = self.operands(known.second);
                let y = self.visit(g, map, positive, known.first)?;
                let x = self.visit(f, map, positive, inner.first)?;
                let either = self.insert(Node::conjunction(!positive, x, y))?;
                self.insert(Node::until(!positive, y, either))
            }
        }
    }
}

fn both(g: u16, h: u16) -> Operands
    ensures first { result.first ≡ Some g }
    ensures second { result.second ≡ Some h }
{
    Operands {
        first: Some(g),
        second: Some(h),
    }
}
