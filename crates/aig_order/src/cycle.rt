//! Ands that depend on themselves.

ghost use Rattle.std.specs.Prelude.{◌≡◌, ℕ, ◌<◌, ◌↔◌, false, length, IfOk, IfSome, OnOk, IsTrue, slice_index, slice_index_or, ◌+◌, ◌^◌};
ghost use Rattle.aig_order.specs.Gates.{Depends};
ghost use Rattle.aig_order.specs.Takings.{AreSetUp};
ghost use Rattle.aig_order.specs.Reaching.{IsVisited, AreVisited, IsFirstCyclic, AreRanks, IsAbove};

use crate::gate::Gate;
use crate::search::components;
use crate::taking::{Definers, definer};
use hy_base::{List, M};
use std::alloc::Global;

/// The ands on which one depends, as far as they are found.
#[derive(Drop)]
pub struct Reach {
    /// For each and whether it is found.
    pub seen: List<bool>,
    /// Those that are found, in the order in which they were.
    pub found: List<u32>,
}

/// The first and that depends on itself, in time linear in the ands. The search of components is
/// checked; only if it were wrong, each and would be looked at in turn.
pub fn first_cyclic(alloc: Global, gates: &[Gate], definers: &Definers) -> M<Option<u32>>
    requires { AreSetUp gates.now definers.now }
    ensures { IfOk result (λ first. IsFirstCyclic gates.now first) }
{
    let ranks = components(alloc, gates, definers)?;
    if let Some(k) = first_level(gates, definers, &ranks) {
        if is_cyclic(alloc, gates, definers, k)? {
            return Ok(Some(k as u32));
        }
    }
    first_of_all(alloc, gates, definers)
}

/// The first and that is not above all that it uses. None where the ranks are no ranks.
fn first_level(gates: &[Gate], definers: &Definers, ranks: &List<u32>) -> Option<usize>
    requires { AreSetUp gates.now definers.now }
    ensures small { IfSome result (λ k. k < length gates.now) }
    ensures before { IfSome result (λ k. (j : ℕ) → j < k → ¬ Depends gates.now j j) }
{
    if !are_ranks(gates, definers, ranks) {
        return None;
    }
    for k in 0..gates.len() {
        if rank(ranks, k) < least_above(gates, definers, ranks, k) {
            return Some(k);
        }
    }
    None
}

/// Whether no and uses one of a higher rank.
fn are_ranks(gates: &[Gate], definers: &Definers, ranks: &List<u32>) -> bool
    requires { AreSetUp gates.now definers.now }
    ensures { IsTrue result → AreRanks gates.now ranks.now }
{
    for k in 0..gates.len() {
        if rank(ranks, k) + 1 < least_above(gates, definers, ranks, k) {
            return false;
        }
    }
    true
}

/// The least number above the ranks of what the and uses.
fn least_above(gates: &[Gate], definers: &Definers, ranks: &List<u32>, k: usize) -> u64
    requires small { k < length gates.now }
    requires set { AreSetUp gates.now definers.now }
    ensures { IsAbove gates.now ranks.now k result }
{
    let left = above(definer(definers, gates[k].left), ranks);
    let right = above(definer(definers, gates[k].right), ranks);
    left.max(right)
}

fn above(used: Option<u32>, ranks: &List<u32>) -> u64
    ensures { IfSome used (λ j. slice_index ranks.now j < result) }
{
    match used {
        Some(j) => rank(ranks, j as usize) + 1,
        None => 0,
    }
}

/// The rank of the and, 0 where it has none.
fn rank(ranks: &List<u32>, k: usize) -> u64
    ensures value { result ≡ slice_index ranks.now k }
    ensures small { result < 2 ^ 32 }
{
    if k < ranks.len() {
        u64::from(*ranks.at(k))
    } else {
        0
    }
}

/// The first and that depends on itself, in time linear in the ands for each one before it.
fn first_of_all(alloc: Global, gates: &[Gate], definers: &Definers) -> M<Option<u32>>
    requires { AreSetUp gates.now definers.now }
    ensures { IfOk result (λ first. IsFirstCyclic gates.now first) }
{
    for k in 0..gates.len() {
        if is_cyclic(alloc, gates, definers, k)? {
            return Ok(Some(k as u32));
        }
    }
    Ok(None)
}

/// Whether the and depends on itself. In time linear in the ands.
fn is_cyclic(alloc: Global, gates: &[Gate], definers: &Definers, k: usize) -> M<bool>
    requires small { k < length gates.now }
    requires set { AreSetUp gates.now definers.now }
    ensures { IfOk result (λ cyclic. IsTrue cyclic ↔ Depends gates.now k k) }
{
    let mut reach = Reach {
        seen: none_seen(alloc, gates)?,
        found: List::new(alloc),
    };
    visit_sides(gates, definers, k, &mut reach)?;
    for p in 0..gates.len() {
        if p < reach.found.len() {
            let next = *reach.found.at(p);
            visit_sides(gates, definers, next as usize, &mut reach)?;
        }
    }
    Ok(*reach.seen.at(k))
}

fn none_seen(alloc: Global, gates: &[Gate]) -> M<List<bool>>
    ensures long { IfOk result (λ marks. length marks ≡ length gates.now) }
    ensures none { IfOk result (λ marks. (k : ℕ) → slice_index_or marks k false ≡ false) }
{
    let mut marks = List::new(alloc);
    for _ in gates {
        marks.push(false)?;
    }
    Ok(marks)
}

/// Finds what the and uses.
fn visit_sides(gates: &[Gate], definers: &Definers, k: usize, reach: &mut Reach) -> M<()>
    requires small { k < length gates.now }
    requires set { AreSetUp gates.now definers.now }
    requires long { length reach.old.seen ≡ length gates.now }
    ensures { OnOk result
        (AreVisited gates.now k reach.old.seen reach.old.found reach.new.seen reach.new.found) }
{
    visit(definer(definers, gates[k].left), reach)?;
    visit(definer(definers, gates[k].right), reach)?;
    Ok(())
}

/// Finds the and, if it is not found yet.
fn visit(used: Option<u32>, reach: &mut Reach) -> M<()>
    requires { IfSome used (λ j. j < length reach.old.seen) }
    ensures { OnOk result
        (IsVisited used reach.old.seen reach.old.found reach.new.seen reach.new.found) }
{
    let Some(j) = used else {
        return Ok(());
    };
    if *reach.seen.at(j as usize) {
        return Ok(());
    }
    reach.found.push(j)?;
    reach.seen.set(j as usize, true);
    Ok(())
}
