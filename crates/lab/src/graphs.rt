//! Graphs as text: a line `graph GROUPS`, then lines `node GROUP UNTIL..` for the nodes from 0 on,
//! each with the group that it leads to and the untils that it postpones, and lines
//! `members GROUP NODE..`. Group 0 is the starting one.

use anyhow::{Result, bail};
use hy_base::NumList;
use rank_check::Graph;
use std::alloc::Global;
use std::str::SplitAsciiWhitespace;

/// The graph of the text.
pub fn graph_of(alloc: Global, text: &str) -> Result<Graph> {
    let mut lines = text.lines();
    let mut graph = match lines.next() {
        Some(line) => empty_graph(alloc, line)?,
        None => bail!("no line `graph GROUPS`"),
    };
    for line in lines {
        let mut words = line.split_ascii_whitespace();
        match words.next() {
            Some("node") => add_node(alloc, &mut graph, words)?,
            Some("members") => add_members(&mut graph, words)?,
            _ => bail!("{line:?} is no line of a graph"),
        }
    }
    Ok(graph)
}

/// The graph without nodes of the first line.
fn empty_graph(alloc: Global, line: &str) -> Result<Graph> {
    let groups = match line.strip_prefix("graph ") {
        Some(word) => number_of(word)?,
        None => bail!("{line:?} is no line `graph GROUPS`"),
    };
    if groups == 0 {
        bail!("a graph has a group");
    }
    Ok(Graph::new(alloc, groups)?)
}

/// The number that a word stands for.
fn number_of(word: &str) -> Result<u32> {
    match word.parse::<u32>() {
        Ok(number) => Ok(number),
        Err(_) => bail!("{word:?} is no number"),
    }
}

/// Adds the node of a line behind its first word.
fn add_node(alloc: Global, graph: &mut Graph, mut words: SplitAsciiWhitespace<'_>) -> Result<()> {
    let group = match words.next() {
        Some(word) => number_of(word)?,
        None => bail!("a node leads to a group"),
    };
    let mut untils = NumList::new(alloc);
    for word in words {
        untils.push(number_of(word)?)?;
    }
    if group >= graph.groups() || graph.nodes() == u32::MAX {
        bail!("there is no group {group}, or there are too many nodes");
    }
    graph.node(group, untils)?;
    Ok(())
}

/// Adds the members of a line behind its first word.
fn add_members(graph: &mut Graph, mut words: SplitAsciiWhitespace<'_>) -> Result<()> {
    let group = match words.next() {
        Some(word) => number_of(word)?,
        None => bail!("members are of a group"),
    };
    for word in words {
        add_member(graph, group, number_of(word)?)?;
    }
    Ok(())
}

/// Adds a node to a group, where both are there.
fn add_member(graph: &mut Graph, group: u32, node: u32) -> Result<()> {
    if group >= graph.groups() || node >= graph.nodes() {
        bail!("there is no group {group}, or no node {node}");
    }
    if graph.group_len(group) == u32::MAX {
        bail!("group {group} has too many members");
    }
    graph.member(group, node)?;
    Ok(())
}
