//! The values of the members of a closure.

ghost use Rattle.std.specs.Prelude.{◌≡◌, ℕ, cond, length, IfOk};
ghost use Rattle.aig_net.specs.Nets.{literal_at, opposite};
ghost use Rattle.aig_net.specs.Wires.{Fits, Makes};
ghost use Rattle.ltl_closure.specs.Nodes.{PartsBelow};
ghost use Rattle.ltl_closure.specs.Plain.{plain_node};
ghost use Rattle.sym_tableau.specs.Oracles.{member_wire, oracles, signal_in};
ghost use Rattle.sym_tableau.specs.Places.{FitsEach, HasRoom, MakesEach, Reaches, signal_of, value_of};

use crate::places::{Places, is_temporal};
use aig_net::{Gates, Signals, opposite_of};
use hy_base::{List, M, NumList};
use hy_formula::Atom;
use ltl_closure::{Closure, Node};
use std::alloc::Global;

/// The value of each member, in their order, in time linear in them, each times the signals.
pub fn member_values(
    alloc: Global,
    closure: &Closure,
    places: &Places,
    signals: &Signals,
    gates: &mut Gates,
) -> M<NumList>
    requires places { HasRoom places.now }
    requires oracles { places.now.oracles ≡ oracles closure.now.nodes }
    requires reach { (n v : ℕ) → Reaches places.now (signal_in signals.now n v) }
    requires room { FitsEach gates.old.first gates.old.ands
        (value_of places.now closure.now.nodes signals.now) (length closure.now.nodes) }
    ensures made { IfOk result (MakesEach gates.old.first gates.old.ands
        (value_of places.now closure.now.nodes signals.now) (length closure.now.nodes)
        gates.new.ands) }
    ensures first { gates.new.first ≡ gates.old.first }
{
    let mut values = List::new(alloc);
    let mut o = 0;
    for k in 0..closure.len() {
        let node = closure.node(k as u16);
        let oracle = places.oracle(o);
        let value = member_value(gates, places, signals, values.as_slice(), oracle, node)?;
        values.push(value)?;
        o += u32::from(is_temporal(node));
    }
    Ok(values)
}

/// The value of a member with this oracle, by the values of those before: at most two ands.
fn member_value(
    gates: &mut Gates,
    places: &Places,
    signals: &Signals,
    values: &[u32],
    oracle: u32,
    node: Node,
) -> M<u32>
    requires parts { PartsBelow (length values.now) (plain_node node) }
    requires reach { (n v : ℕ) → Reaches places.now (signal_in signals.now n v) }
    requires room { Fits gates.old.first gates.old.ands (member_wire
        (signal_of places.now signals.now) (literal_at values.now) oracle (plain_node node)) }
    ensures made { IfOk result (Makes gates.old.first gates.old.ands (member_wire
        (signal_of places.now signals.now) (literal_at values.now) oracle (plain_node node))
        gates.new.ands) }
    ensures first { gates.new.first ≡ gates.old.first }
{
    match node {
        Node::True => Ok(1),
        Node::False => Ok(0),
        Node::Lit { atom, positive } => Ok(signal(places, signals, atom, positive)),
        Node::And(g, h) => gates.both(values[usize::from(g)], values[usize::from(h)]),
        Node::Or(g, h) => gates.either(values[usize::from(g)], values[usize::from(h)]),
        Node::Next(_) | Node::WeakNext(_) => Ok(oracle),
        Node::Until(g, h) => {
            let later = gates.both(values[usize::from(g)], oracle)?;
            gates.either(values[usize::from(h)], later)
        }
        Node::Release(g, h) => {
            let later = gates.either(values[usize::from(g)], oracle)?;
            gates.both(values[usize::from(h)], later)
        }
    }
}

/// The literal of an atom, or its opposite.
fn signal(places: &Places, signals: &Signals, atom: Atom, positive: bool) -> u32
    requires { (n v : ℕ) → Reaches places.now (signal_in signals.now n v) }
    ensures { result ≡ cond positive (signal_of places.now signals.now atom.name atom.var)
        (opposite (signal_of places.now signals.now atom.name atom.var)) }
{
    let literal = places.literal(signals.find(atom.name, atom.var).unwrap_or(0));
    if positive {
        literal
    } else {
        opposite_of(literal)
    }
}
