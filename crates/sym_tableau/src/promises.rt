//! What the oracles promise: constraints, and a fairness literal for each until.

ghost use Rattle.std.specs.Prelude.{◌≡◌, ℕ, ◌<◌, ◌≤◌, true, false, length, All, MatchOption, OnOk};
ghost use Rattle.aig_net.specs.Nets.{literal_at};
ghost use Rattle.aig_net.specs.Wires.{FitsAll};
ghost use Rattle.ltl_closure.specs.Nodes.{PartsBelow};
ghost use Rattle.ltl_closure.specs.Plain.{plain_node};
ghost use Rattle.sym_tableau.specs.Oracles.{end_of, foretold as foretold_by, gathered, is_temporal as temporal, oracles};
ghost use Rattle.sym_tableau.specs.Places.{Adds, HasRoom, beginning_at, constraints_of, end_at, promise_at, promise_of};

use crate::places::{Places, is_temporal};
use aig_net::{Gates, opposite_of};
use hy_base::{M, NumList};
use ltl_closure::{Closure, Node};

/// The member whose value at the next position the oracle of member `k` foretells, if it has one.
fn foretold(k: u16, node: Node) -> Option<u16>
    ensures { MatchOption result (temporal (plain_node node) ≡ false)
        (λ g. (temporal (plain_node node) ≡ true) × (g ≡ foretold_by k (plain_node node))) }
{
    match node {
        Node::Next(g) | Node::WeakNext(g) => Some(g),
        Node::Until(_, _) | Node::Release(_, _) => Some(k),
        Node::True | Node::False | Node::Lit { .. } | Node::And(_, _) | Node::Or(_, _) => None,
    }
}

/// Adds the constraints of the oracles and of the roots, in time linear in the closure.
pub fn add_constraints(
    closure: &Closure,
    places: &Places,
    values: &[u32],
    gates: &mut Gates,
    constraints: &mut NumList,
) -> M<()>
    requires places { HasRoom places.now }
    requires oracles { places.now.oracles ≡ oracles closure.now.nodes }
    requires values { length values.now ≡ length closure.now.nodes }
    requires room { FitsAll gates.old.first gates.old.ands (constraints_of places.now
        closure.now.nodes (literal_at values.now) closure.now.roots) }
    ensures added { OnOk result (Adds gates.old.first gates.old.ands (constraints_of places.now
        closure.now.nodes (literal_at values.now) closure.now.roots) gates.new.ands
        constraints.old constraints.new) }
    ensures first { gates.new.first ≡ gates.old.first }
{
    add_promises(closure, places, values, gates, constraints)?;
    let roots = closure.roots().as_slice();
    add_beginnings(roots, places, values, gates, constraints)?;
    Ok(())
}

/// Adds for each oracle the constraint that what it foretold holds, in time linear in the closure.
fn add_promises(
    closure: &Closure,
    places: &Places,
    values: &[u32],
    gates: &mut Gates,
    constraints: &mut NumList,
) -> M<()>
    requires places { HasRoom places.now }
    requires oracles { places.now.oracles ≡ oracles closure.now.nodes }
    requires values { length values.now ≡ length closure.now.nodes }
    requires room { FitsAll gates.old.first gates.old.ands (gathered (promise_at places.now
        closure.now.nodes (literal_at values.now)) (length closure.now.nodes)) }
    ensures added { OnOk result (Adds gates.old.first gates.old.ands (gathered (promise_at
        places.now closure.now.nodes (literal_at values.now)) (length closure.now.nodes))
        gates.new.ands constraints.old constraints.new) }
    ensures first { gates.new.first ≡ gates.old.first }
{
    let mut o = 0;
    for k in 0..closure.len() {
        let node = closure.node(k as u16);
        add_promise(places, values, o, k as u16, node, gates, constraints)?;
        o += u32::from(is_temporal(node));
    }
    Ok(())
}

/// Adds the constraint that what member `k` foretold by oracle `o` holds, if it is temporal.
fn add_promise(
    places: &Places,
    values: &[u32],
    o: u32,
    k: u16,
    node: Node,
    gates: &mut Gates,
    constraints: &mut NumList,
) -> M<()>
    requires places { HasRoom places.now }
    requires oracle { o ≤ places.now.oracles }
    requires member { k < length values.now }
    requires parts { PartsBelow k (plain_node node) }
    requires room { FitsAll gates.old.first gates.old.ands
        (promise_of places.now o (literal_at values.now) k (plain_node node)) }
    ensures added { OnOk result (Adds gates.old.first gates.old.ands
        (promise_of places.now o (literal_at values.now) k (plain_node node)) gates.new.ands
        constraints.old constraints.new) }
    ensures first { gates.new.first ≡ gates.old.first }
{
    match foretold(k, node) {
        None => Ok(()),
        Some(g) => {
            let was_owed = opposite_of(places.owed(o));
            let kept = gates.either(was_owed, values[usize::from(g)])?;
            constraints.push(kept)?;
            Ok(())
        }
    }
}

/// Adds for each root the constraint that it holds at the start, in time linear in the roots.
fn add_beginnings(
    roots: &[u32],
    places: &Places,
    values: &[u32],
    gates: &mut Gates,
    constraints: &mut NumList,
) -> M<()>
    requires places { HasRoom places.now }
    requires members { All (λ k. k < length values.now) roots.now }
    requires room { FitsAll gates.old.first gates.old.ands (gathered (beginning_at places.now
        (literal_at values.now) roots.now) (length roots.now)) }
    ensures added { OnOk result (Adds gates.old.first gates.old.ands (gathered (beginning_at
        places.now (literal_at values.now) roots.now) (length roots.now)) gates.new.ands
        constraints.old constraints.new) }
    ensures first { gates.new.first ≡ gates.old.first }
{
    for (r, root) in roots.iter().enumerate() {
        let begun = gates.either(places.started(), values[*root as usize])?;
        constraints.push(begun)?;
    }
    Ok(())
}

/// Adds for each until the fairness literal that it does not hold or its end does, in time linear
/// in the closure.
pub fn add_ends(closure: &Closure, values: &[u32], gates: &mut Gates, fairs: &mut NumList) -> M<()>
    requires values { length values.now ≡ length closure.now.nodes }
    requires room { FitsAll gates.old.first gates.old.ands (gathered (end_at closure.now.nodes
        (literal_at values.now)) (length closure.now.nodes)) }
    ensures added { OnOk result (Adds gates.old.first gates.old.ands (gathered (end_at
        closure.now.nodes (literal_at values.now)) (length closure.now.nodes)) gates.new.ands
        fairs.old fairs.new) }
    ensures first { gates.new.first ≡ gates.old.first }
{
    for k in 0..closure.len() {
        let node = closure.node(k as u16);
        add_end(values, k as u16, node, gates, fairs)?;
    }
    Ok(())
}

/// Adds the fairness literal of member `k`, if it is an until.
fn add_end(values: &[u32], k: u16, node: Node, gates: &mut Gates, fairs: &mut NumList) -> M<()>
    requires member { k < length values.now }
    requires parts { PartsBelow k (plain_node node) }
    requires room { FitsAll gates.old.first gates.old.ands
        (end_of (literal_at values.now) k (plain_node node)) }
    ensures added { OnOk result (Adds gates.old.first gates.old.ands
        (end_of (literal_at values.now) k (plain_node node)) gates.new.ands fairs.old fairs.new) }
    ensures first { gates.new.first ≡ gates.old.first }
{
    match node {
        Node::Until(_, h) => {
            let until = values[usize::from(k)];
            let end = gates.either(opposite_of(until), values[usize::from(h)])?;
            fairs.push(end)?;
            Ok(())
        }
        Node::True | Node::False | Node::Lit { .. } | Node::And(_, _) | Node::Or(_, _) => Ok(()),
        Node::Next(_) | Node::WeakNext(_) | Node::Release(_, _) => Ok(()),
    }
}
