//! Graphs whose nodes lead to groups of nodes and postpone untils.

ghost use Rattle.std.specs.Prelude.{◌≡◌, ℕ, ◌+◌, ◌-◌, ◌<◌, ◌^◌, [], ◌∷◌, ◌++◌, length, slice_index, slice_index_or, slice_set, OnOk, OnErr, IfOk, IsTrue, ◌↔◌, replicate};

use hy_base::{List, M, NumList, Steps};
use std::alloc::Global;
use std::marker::Model;
use std::sync::ledger::Ledger;

/// A node.
#[derive(Drop)]
pub struct Node {
    /// The group of the nodes that it leads to.
    pub next_group: u32,
    /// The untils that it postpones, by their numbers.
    pub postponed: NumList,
}

/// Nodes, each with a number from 0, in groups, of which group 0 is the starting one.
#[derive(Drop)]
pub struct Graph {
    groups: Vec<NumList>,
    nodes: Vec<Node>,
}

impl Model for Graph {
    ghost use Rattle.rank_check.specs.Graphs.{Shape, IsWhole};

    ghost Value = { Shape };

    ghost view = { λ g. record { groups = g.groups.items; nodes = g.nodes.items } };

    ghost invariant = { λ g. IsWhole (record { groups = g.groups.items; nodes = g.nodes.items }) };
}

impl Graph {
    ghost use Rattle.rank_check.specs.Graphs.{IsWhole, Postpones, members_of, node_of};

    /// A graph with no node, of as many groups, which have no member. In time linear in `groups`.
    pub fn new(alloc: Global, groups: u32) -> M<Graph>
        requires { 0 < groups }
        ensures { IfOk result (λ g. g ≡ record { groups = replicate groups []; nodes = [] }) }
    {
        let mut lists = Vec::with_capacity(alloc, groups as usize)?;
        for _group in 0..groups {
            lists.push(List::new(alloc))?;
        }
        Ok(Graph {
            groups: lists,
            nodes: Vec::new(alloc),
        })
    }

    /// What each graph keeps: its groups and members are there.
    pub fn whole(&self)
        ensures { IsWhole self.now }
    {
        let _nodes = &self.nodes;
    }

    /// Adds a node, and answers its number. Refused for memory it changes nothing.
    pub fn node(&mut self, next_group: u32, postponed: NumList) -> M<u32>
        requires group { next_group < length self.old.groups }
        requires few { length self.old.nodes < 2 ^ 32 - 1 }
        ensures number { IfOk result (λ v. v ≡ length self.old.nodes) }
        ensures groups { self.new.groups ≡ self.old.groups }
        ensures added { OnOk result (self.new.nodes ≡ self.old.nodes ++ record
            { next_group = next_group; postponed = postponed } ∷ []) }
        ensures refused { OnErr result (self.new ≡ self.old) }
    {
        let number = self.nodes.len() as u32;
        self.nodes.push(Node {
            next_group,
            postponed,
        })?;
        Ok(number)
    }

    /// Adds a node last to a group. Refused for memory it changes nothing.
    pub fn member(&mut self, group: u32, node: u32) -> M<()>
        requires group { group < length self.old.groups }
        requires node { node < length self.old.nodes }
        requires few { length (members_of self.old group) < 2 ^ 32 - 1 }
        ensures nodes { self.new.nodes ≡ self.old.nodes }
        ensures added { OnOk result (self.new.groups ≡ slice_set self.old.groups group
            (members_of self.old group ++ node ∷ [])) }
        ensures refused { OnErr result (self.new ≡ self.old) }
    {
        self.groups[group as usize].push(node)?;
        Ok(())
    }

    /// How many groups there are.
    pub fn groups(&self) -> u32
        ensures { result ≡ length self.now.groups }
    {
        self.groups.len() as u32
    }

    /// How many nodes there are.
    pub fn nodes(&self) -> u32
        ensures { result ≡ length self.now.nodes }
    {
        self.nodes.len() as u32
    }

    /// The group that a node leads to.
    pub fn group_of(&self, node: u32) -> u32
        requires { node < length self.now.nodes }
        ensures group { result ≡ (node_of self.now node).next_group }
        ensures named { result < length self.now.groups }
    {
        self.nodes[node as usize].next_group
    }

    /// The untils that a node postpones.
    pub fn postponed(&self, node: u32) -> &NumList
        requires { node < length self.now.nodes }
        ensures { result.now ≡ (node_of self.now node).postponed }
    {
        &self.nodes[node as usize].postponed
    }

    /// Whether a node postpones an until, in time linear in the untils that it postpones.
    pub fn postpones(&self, node: u32, until: u32) -> bool
        requires { node < length self.now.nodes }
        ensures { IsTrue result ↔ Postpones self.now node until }
    {
        self.postponed(node).as_slice().iter().any(|u| *u == until)
    }

    /// How many members a group has.
    pub fn group_len(&self, group: u32) -> u32
        requires { group < length self.now.groups }
        ensures { result ≡ length (members_of self.now group) }
    {
        self.groups[group as usize].len() as u32
    }

    /// The member at place `i` of a group, counted from 0. This is one step.
    pub fn member_at<L: Ledger>(&self, group: u32, i: u32, steps: &mut Steps<L>) -> u32
        requires group { group < length self.now.groups }
        requires place { i < length (members_of self.now group) }
        ensures member { result ≡ slice_index (members_of self.now group) i }
        ensures made { result < length self.now.nodes }
        ensures step { steps.new ≡ steps.old + 1 }
    {
        self.whole();
        steps.tick();
        self.members(group)[i as usize]
    }

    /// The members of a group.
    pub(crate) fn members(&self, group: u32) -> &[u32]
        requires { group < length self.now.groups }
        ensures { result.now ≡ members_of self.now group }
    {
        self.groups[group as usize].as_slice()
    }
}
