//! A fair walk by way of a component that is fair.

ghost use Rattle.std.specs.Prelude.{◌≡◌, ◌<◌, ◌≤◌, ◌+◌, ◌*◌, ℕ, length, slice_index, take, IsTrue, ◌↔◌, IfOk, OnOk, ◌++◌};
ghost use Rattle.std.specs.List.{Contains};
ghost use Rattle.rank_check.specs.Graphs.{IsWalk, IsFair, members_of};
ghost use Rattle.fair_search.specs.Answers.{untils};
ghost use Rattle.fair_search.specs.Passing.{edges, IsFairAt};
ghost use Rattle.fair_search.specs.Paths.{IsPath, IsPathFrom, first_or};
ghost use Rattle.fair_search.specs.Tours.{IsJoined, IsTour, root_untils};

use crate::component::free_node;
use crate::found::FairLasso;
use crate::pass::{Pass, from_place};
use crate::path::path;
use hy_base::{M, NumList, Steps};
use rank_check::Graph;
use std::alloc::Global;
use std::sync::ledger::Ledger;

/// Adds nodes last.
fn append(nodes: &mut NumList, more: &NumList) -> M<()>
    ensures { OnOk result (nodes.new ≡ nodes.old ++ more.now) }
{
    for node in more.as_slice() {
        nodes.push(*node)?;
    }
    Ok(())
}

/// Whether one of the first `count` numbers is this one.
fn is_among(numbers: &NumList, count: usize, number: u32) -> bool
    requires { count ≤ length numbers.now }
    ensures { IsTrue result ↔ Contains (take count numbers.now) number }
{
    numbers.as_slice()[..count].iter().any(|n| *n == number)
}

/// Goes on to a node that does not postpone the until at place `i`, where no earlier place has
/// this until. Answers where the tour is then.
fn visit<L: Ledger>(
    alloc: Global,
    g: &Graph,
    nodes: &[u32],
    i: usize,
    at: u32,
    cycle: &mut NumList,
    steps: &mut Steps<L>,
) -> M<u32>
    requires joined { IsJoined g.now nodes.now }
    requires place { i < length (root_untils g.now nodes.now) }
    requires here { Contains nodes.now at }
    ensures tour { (before : ℕ) → IsTour g.now nodes.now (root_untils g.now nodes.now) i cycle.old
        at before steps.old → IfOk result (λ next. IsTour g.now nodes.now
        (root_untils g.now nodes.now) (i + 1) cycle.new next before steps.new) }
    ensures most { (before : ℕ) → IsTour g.now nodes.now (root_untils g.now nodes.now) i cycle.old
        at before steps.old → steps.new ≤ before + untils g.now * edges g.now }
{
    let root = nodes[0];
    let untils = g.postponed(root);
    let until = *untils.at(i);
    if is_among(untils, i, until) {
        return Ok(at);
    }
    let Some(free) = free_node(g, nodes, until) else {
        return Ok(at);
    };
    let part = path(alloc, g, at, free, steps)?;
    append(cycle, &part)?;
    Ok(free)
}

/// A closed path through nodes that lead to one another, on which each until is somewhere not
/// postponed.
fn tour<L: Ledger>(alloc: Global, g: &Graph, nodes: &[u32], steps: &mut Steps<L>) -> M<NumList>
    requires { IsJoined g.now nodes.now }
    ensures path { IfOk result (IsPathFrom g.now (slice_index nodes.now 0)
        (slice_index nodes.now 0)) }
    ensures fair { IfOk result (IsFair g.now) }
    ensures most { steps.new ≤ steps.old + (untils g.now + 1) * edges g.now }
{
    let root = nodes[0];
    let count = g.postponed(root).len();
    let mut cycle = NumList::new(alloc);
    let mut at = root;
    for i in 0..count {
        at = visit(alloc, g, nodes, i, at, &mut cycle, steps)?;
    }
    let part = path(alloc, g, at, root, steps)?;
    append(&mut cycle, &part)?;
    Ok(cycle)
}

/// A path from the starting group to a node of the stack.
fn approach<L: Ledger>(
    alloc: Global,
    g: &Graph,
    pass: &Pass,
    start: u32,
    steps: &mut Steps<L>,
) -> M<NumList>
    requires { IsFairAt g.now pass.now start }
    ensures path { IfOk result (λ stem. IsPath g.now stem (slice_index pass.now.stack start)) }
    ensures starts { IfOk result (λ stem. Contains (members_of g.now 0)
        (first_or stem (slice_index pass.now.stack start))) }
    ensures most { steps.new ≤ steps.old + edges g.now }
{
    if start == 0 {
        return Ok(NumList::new(alloc));
    }
    let first = *pass.stack.at(0);
    let root = *pass.stack.at(start as usize);
    path(alloc, g, first, root, steps)
}

/// A fair walk whose cycle goes through the last component of a pass, which is fair.
pub(crate) fn fair_lasso<L: Ledger>(
    alloc: Global,
    g: &Graph,
    pass: &Pass,
    start: u32,
    steps: &mut Steps<L>,
) -> M<FairLasso>
    requires { IsFairAt g.now pass.now start }
    ensures lasso { IfOk result (λ l. IsWalk g.now l.stem l.cycle × IsFair g.now l.cycle) }
    ensures most { steps.new ≤ steps.old + (untils g.now + 2) * edges g.now }
{
    let stem = approach(alloc, g, pass, start, steps)?;
    let cycle = tour(alloc, g, from_place(&pass.stack, start), steps)?;
    Ok(FairLasso { stem, cycle })
}
