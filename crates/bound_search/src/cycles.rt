//! The clauses of members: that each has a cycle of some length, and that its letters repeat so.

ghost use Rattle.std.specs.Prelude.{◌≡◌, suc, ◌+◌, ◌-◌, ◌<◌, ◌≤◌, ◌++◌, length, OnOk};
ghost use Rattle.chain_check.specs.FewClauses.{for_each, guarded, same_clauses};
ghost use Rattle.bound_search.specs.Bounds.{IsBound};
ghost use Rattle.bound_search.specs.Queries.{cycle_clauses, member_clauses, repeat_clauses, round, some_cycle};

use crate::bound::Bound;
use crate::gates::add_three;
use crate::layout::{cycles, letters};
use crate::wire::Wire;
use chain_check::Clauses;
use hy_base::{List, M, NumList};
use std::alloc::Global;

/// Adds that where `cycle` is true both literals are the same.
fn add_same_where(clauses: &mut Clauses, cycle: Wire, x: Wire, y: Wire) -> M<()>
    ensures { OnOk result (clauses.new ≡ clauses.old ++ guarded cycle (same_clauses x y)) }
{
    add_three(clauses, cycle.opposite(), x, y.opposite())?;
    add_three(clauses, cycle.opposite(), x.opposite(), y)
}

/// Adds that behind the first round of `d` + 1 letters of member `t` the letters are those of the
/// first round, for the name at place `r`.
fn add_repeats(
    clauses: &mut Clauses,
    names: &NumList,
    bound: Bound,
    t: u32,
    d: u32,
    r: usize,
) -> M<()>
    requires bound { IsBound bound }
    requires cycle { d < bound.cycle }
    ensures { OnOk result (clauses.new ≡ clauses.old
        ++ for_each (repeat_clauses names.now bound t d r) (round bound - suc d)) }
{
    let start = letters(names, bound, t, r)? + bound.stem as u32;
    let cycle = Wire::further(cycles(names, bound, t)? + d);
    for j in 0..bound.round() as u32 - (d + 1) {
        let here = Wire::further(start + (d + 1 + j));
        add_same_where(clauses, cycle, here, Wire::further(start + j % (d + 1)))?;
    }
    Ok(())
}

/// Adds that where the cycle of member `t` may have `d` + 1 letters, its letters repeat so.
#[tactic(auto, using(crate::proofs::Adding::loops))]
fn add_cycle(clauses: &mut Clauses, names: &NumList, bound: Bound, t: u32, d: u32) -> M<()>
    requires bound { IsBound bound }
    requires cycle { d < bound.cycle }
    ensures { OnOk result (clauses.new ≡ clauses.old ++ cycle_clauses names.now bound t d) }
{
    for r in 0..names.len() {
        add_repeats(clauses, names, bound, t, d, r)?;
    }
    Ok(())
}

/// Adds that the cycle of member `t` has some length.
fn add_some_cycle(
    alloc: Global,
    clauses: &mut Clauses,
    names: &NumList,
    bound: Bound,
    t: u32,
) -> M<()>
    requires { IsBound bound }
    ensures { OnOk result (clauses.new ≡ clauses.old ++ some_cycle names.now bound t) }
{
    let start = cycles(names, bound, t)?;
    let mut clause = List::new(alloc);
    for d in 0..bound.cycle as u32 {
        clause.push(Wire::further(start + d).number())?;
    }
    clauses.add(clause.as_slice())
}

/// Adds what is said of member `t`.
#[tactic(auto, using(crate::proofs::Adding::loops))]
fn add_member(alloc: Global, clauses: &mut Clauses, names: &NumList, bound: Bound, t: u32) -> M<()>
    requires { IsBound bound }
    ensures { OnOk result (clauses.new ≡ clauses.old ++ member_clauses names.now bound t) }
{
    add_some_cycle(alloc, clauses, names, bound, t)?;
    for d in 0..bound.cycle as u32 {
        add_cycle(clauses, names, bound, t, d)?;
    }
    Ok(())
}

/// Adds what is said of all members.
#[tactic(auto, using(crate::proofs::Adding::loops))]
pub fn add_members(alloc: Global, clauses: &mut Clauses, names: &NumList, bound: Bound) -> M<()>
    requires { IsBound bound }
    ensures { OnOk result (clauses.new ≡ clauses.old
        ++ for_each (member_clauses names.now bound) bound.traces) }
{
    for t in 0..bound.traces as u32 {
        add_member(alloc, clauses, names, bound, t)?;
    }
    Ok(())
}
