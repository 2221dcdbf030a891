//! The graph of branches that were explored.

ghost use Rattle.std.specs.Prelude.{◌≡◌, ◌≢◌, ◌↔◌, ℕ, ◌≤◌, ◌<◌, ◌*◌, ◌-◌, ◌^◌, [], true, length, IfOk, OnOk};
ghost use Rattle.std.specs.List.{Contains};
ghost use Rattle.rank_check.specs.Graphs.{members_of};
ghost use Rattle.ltl_tableau.specs.Branches.{postpones};
ghost use Rattle.ltl_tableau.specs.Reached.{AreLeft, AreNodes, group_at, set_at};

use crate::branch::{Branch, postpones};
use hy_base::{List, M, NumList};
use indexmap::IndexSet;
use ltl_closure::{Closure, Obl};
use rank_check::Graph;
use std::alloc::Global;

/// A graph of the branches, where the groups are those of the sets and have no member yet.
pub fn draw_nodes<const W: usize>(
    alloc: Global,
    c: &Closure,
    sets: &IndexSet<Obl<W>>,
    branches: &IndexSet<Branch<W>>,
) -> M<Graph>
    requires width { W ≤ 16 }
    requires members { length c.now.nodes ≤ 64 * W }
    requires some { 0 < length sets.now.keys }
    requires few_sets { length sets.now.keys < 2 ^ 32 }
    requires few { length branches.now.keys < 2 ^ 32 - 1 }
    requires leaves { AreLeft sets.now.keys branches.now.keys }
    ensures nodes { IfOk result (λ g. AreNodes c.now.nodes sets.now.keys branches.now.keys g.nodes) }
    ensures groups { IfOk result (λ g. length g.groups ≡ length sets.now.keys) }
    ensures empty { IfOk result (λ g. (j : ℕ) → members_of g j ≡ []) }
{
    let mut graph = Graph::new(alloc, sets.len() as u32)?;
    for branch in branches.as_slice() {
        let group = place_of(sets, branch);
        let postponed = all_postponed(alloc, c, branch)?;
        graph.node(group as u32, postponed)?;
    }
    Ok(graph)
}

/// The place of the set that a branch leaves for later.
fn place_of<const W: usize>(sets: &IndexSet<Obl<W>>, branch: &Branch<W>) -> usize
    requires { Contains sets.now.keys branch.now.later }
    ensures within { result < length sets.now.keys }
    ensures at { set_at sets.now.keys result ≡ branch.entry.now.later }
{
    let set = branch.next;
    match sets.get_index_of(&set) {
        Some(place) => place,
        None => 0,
    }
}

/// The untils that a branch postpones, in time linear in the closure.
fn all_postponed<const W: usize>(alloc: Global, c: &Closure, branch: &Branch<W>) -> M<NumList>
    requires width { W ≤ 16 }
    requires members { length c.now.nodes ≤ 64 * W }
    ensures { IfOk result (λ list. (k : ℕ) → Contains list k
        ↔ (postpones c.now.nodes branch.entry.now k ≡ true)) }
{
    let mut list = NumList::new(alloc);
    for k in 0..c.len() {
        if postpones(c, branch, k as u16) {
            list.push(k as u32)?;
        }
    }
    Ok(list)
}

/// Puts the members into groups that have none.
pub fn draw_groups(graph: &mut Graph, groups: &List<NumList>) -> M<()>
    requires count { length groups.now ≡ length graph.old.groups }
    requires empty { (j : ℕ) → members_of graph.old j ≡ [] }
    requires made { (j v : ℕ) → Contains (group_at groups.now j) v → v < length graph.old.nodes }
    requires few { (j : ℕ) → length (group_at groups.now j) < 2 ^ 32 - 1 }
    ensures nodes { OnOk result (graph.new.nodes ≡ graph.old.nodes) }
    ensures groups { OnOk result ((j : ℕ) → members_of graph.new j ≡ group_at groups.now j) }
{
    graph.whole();
    for group in 0..groups.len() {
        fill(graph, group as u32, groups.at(group))?;
    }
    Ok(())
}

/// Puts members into a group that has none.
fn fill(graph: &mut Graph, group: u32, members: &NumList) -> M<()>
    requires group { group < length graph.old.groups }
    requires empty { members_of graph.old group ≡ [] }
    requires made { (v : ℕ) → Contains members.now v → v < length graph.old.nodes }
    requires few { length members.now < 2 ^ 32 - 1 }
    ensures nodes { OnOk result (graph.new.nodes ≡ graph.old.nodes) }
    ensures count { OnOk result (length graph.new.groups ≡ length graph.old.groups) }
    ensures filled { OnOk result (members_of graph.new group ≡ members.now) }
    ensures others { OnOk result ((j : ℕ) → j ≢ group
        → members_of graph.new j ≡ members_of graph.old j) }
{
    for member in members.as_slice() {
        graph.member(group, *member)?;
    }
    Ok(())
}
