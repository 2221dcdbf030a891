//! Where the variables of a net with oracles stand.

ghost use Rattle.std.specs.Prelude.{◌≡◌, suc, ◌+◌, ◌*◌, ◌^◌, ◌<◌, ◌≤◌, map, length, All, IfOk};
ghost use Rattle.ltl_closure.specs.Plain.{plain_node};
ghost use Rattle.sym_tableau.specs.Oracles.{is_temporal as temporal, oracles};
ghost use Rattle.sym_tableau.specs.Places.{HasRoom, Reaches, ReachesAnd, first_of, moved_and_of, moved_of, oracle_of, owed_of, places_of, started_of};

use aig_net::{And, AndList, Net, opposite_of};
use hy_base::{List, M, NumList};
use ltl_closure::{Closure, Node};
use std::alloc::Global;

/// How many inputs a net has and how many oracles come to it. The oracles stand after the inputs,
/// their latches and `started` before the net's latches.
#[derive(Clone, Copy)]
pub struct Places {
    pub inputs: u32,
    pub oracles: u32,
}

/// Whether an oracle foretells what the member, or the operand of a next, says at the next
/// position.
pub fn is_temporal(node: Node) -> bool
    ensures { result ≡ temporal (plain_node node) }
{
    match node {
        Node::Next(_) | Node::WeakNext(_) | Node::Until(_, _) | Node::Release(_, _) => true,
        Node::True | Node::False | Node::Lit { .. } | Node::And(_, _) | Node::Or(_, _) => false,
    }
}

impl Places {
    /// The places of a net to which the oracles of a closure come, in time linear in the closure.
    pub fn of(net: &Net, closure: &Closure) -> Places
        ensures { result ≡ places_of net.now closure.now.nodes }
    {
        let mut oracles = 0;
        for k in 0..closure.len() {
            oracles += u32::from(is_temporal(closure.node(k as u16)));
        }
        Places {
            inputs: net.inputs(),
            oracles,
        }
    }

    /// The variable of the first and, where the net has so many latches.
    pub fn first(&self, latches: u32) -> u32
        requires { first_of self.now latches ≤ 2 ^ 31 }
        ensures { result ≡ first_of self.now latches }
    {
        self.inputs + 2 * self.oracles + latches + 2
    }

    /// The input that is oracle `o`.
    pub fn oracle(&self, o: u32) -> u32
        requires room { HasRoom self.now }
        requires few { o ≤ self.now.oracles }
        ensures { result ≡ oracle_of self.now o }
    {
        2 * (self.inputs + o + 1)
    }

    /// The latch that has what oracle `o` foretold.
    pub fn owed(&self, o: u32) -> u32
        requires room { HasRoom self.now }
        requires few { o ≤ self.now.oracles }
        ensures { result ≡ owed_of self.now o }
    {
        2 * (self.inputs + self.oracles + o + 1)
    }

    /// The latch that is 0 at the start alone.
    pub fn started(&self) -> u32
        requires { HasRoom self.now }
        ensures { result ≡ started_of self.now }
    {
        2 * (self.inputs + 2 * self.oracles + 1)
    }

    /// What stands for a literal of the net.
    pub fn literal(&self, literal: u32) -> u32
        requires { Reaches self.now literal }
        ensures { result ≡ moved_of self.now literal }
    {
        let variable = literal / 2;
        let place = if self.inputs < variable {
            2 * (variable + 2 * self.oracles + 1)
        } else {
            2 * variable
        };
        if literal % 2 == 0 {
            place
        } else {
            opposite_of(place)
        }
    }

    /// What stands for literals of the net, in time linear in them.
    pub fn literals(&self, alloc: Global, literals: &[u32]) -> M<NumList>
        requires { All (Reaches self.now) literals.now }
        ensures { IfOk result (λ made. made ≡ map (moved_of self.now) literals.now) }
    {
        let made = literals.iter().map(|l| self.literal(*l)).collect(alloc)?;
        Ok(List::from_vec(made))
    }

    /// What stands for the ands of the net, in time linear in them.
    pub fn ands(&self, alloc: Global, ands: &[And]) -> M<AndList>
        requires { All (ReachesAnd self.now) ands.now }
        ensures { IfOk result (λ made. made ≡ map (moved_and_of self.now) ands.now) }
    {
        let mut made = List::new(alloc);
        for gate in ands {
            made.push(And {
                left: self.literal(gate.left),
                right: self.literal(gate.right),
            })?;
        }
        Ok(made)
    }
}
