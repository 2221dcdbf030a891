//! What is left of facts.

ghost use Rattle.std.specs.Prelude.{◌≡◌, ◌*◌, ◌+◌, ◌<◌, ◌≤◌, ◌^◌, ◌↔◌, [], ◌∷◌, ◌++◌, ℕ, All, Contains, length, IsTrue, IfOk, OnOk};
ghost use Rattle.aig_net.specs.Nets.{Below, latch_variable, literal_value, variables};
ghost use Rattle.hy_base.specs.Rows.{row};
ghost use Rattle.live_safe.specs.declared.safe_net.SafeNet.{SafeNet};
ghost use Rattle.cnf_frames.specs.Facts.{AllIn, HoldsIn, IsIn, IsSafe, any_true};
ghost use Rattle.cnf_frames.specs.Queries.{group_of};
ghost use Rattle.cnf_frames.specs.QueryPaths.{word_of};
ghost use Rattle.invar_find.specs.Parts.{AreThose, IsOutside};

use cnf_frames::{Fact, Inv};
use hy_base::{List, M, Remake};
use live_safe::SafeNet;
use std::alloc::Global;

/// How many latches a safe net has.
pub fn count_latches(safe: &SafeNet) -> u32
    ensures many { result ≡ length safe.now.net.latches }
    ensures few { result < 2 ^ 31 }
{
    safe.net.variables(); // what each net keeps
    safe.net.latches().len() as u32
}

/// The variable of the first latch, behind the constant and the inputs.
fn first_latch(safe: &SafeNet) -> usize
    ensures first { result ≡ 1 + safe.now.net.inputs }
    ensures room { result + length safe.now.net.latches ≤ variables safe.now.net }
{
    safe.net.variables(); // what each net keeps
    1 + safe.net.inputs() as usize
}

/// The latch values after the step of an assignment.
pub fn state_after<'a>(safe: &SafeNet, values: &'a [bool]) -> &'a [bool]
    requires { 2 * variables safe.now.net ≤ length values.now }
    ensures many { length result.now ≡ length safe.now.net.latches }
    ensures state { (j : ℕ) → j < length safe.now.net.latches →
        row result.now j ≡ word_of safe.now values.now 1 (latch_variable safe.now.net j) }
{
    let first = safe.net.variables() as usize + first_latch(safe);
    &values[first..first + safe.net.latches().len()]
}

/// The latch values before the step of an assignment.
pub fn state_before<'a>(safe: &SafeNet, values: &'a [bool]) -> &'a [bool]
    requires { 2 * variables safe.now.net ≤ length values.now }
    ensures many { length result.now ≡ length safe.now.net.latches }
    ensures state { (j : ℕ) → j < length safe.now.net.latches →
        row result.now j ≡ word_of safe.now values.now 0 (latch_variable safe.now.net j) }
{
    let first = first_latch(safe);
    &values[first..first + safe.net.latches().len()]
}

/// The inputs of the step of an assignment.
pub fn inputs_of<'a>(safe: &SafeNet, values: &'a [bool]) -> &'a [bool]
    requires { 2 * variables safe.now.net ≤ length values.now }
    ensures { length result.now ≡ safe.now.net.inputs }
{
    &values[1..first_latch(safe)]
}

/// Whether a literal of latches is true in a state.
fn is_true(state: &[bool], l: u32) -> bool
    requires { Below (length state.now) l }
    ensures { result ≡ literal_value (row state.now) l }
{
    let latch = state[(l / 2) as usize];
    if l % 2 == 0 { latch } else { !latch }
}

/// Whether some of the literals of latches is true in a state.
fn is_any_true(state: &[bool], literals: &[u32]) -> bool
    requires { All (Below (length state.now)) literals.now }
    ensures { result ≡ any_true (row state.now) literals.now }
{
    for l in literals {
        if is_true(state, *l) {
            return true;
        }
    }
    false
}

/// Whether the fact holds in a state.
pub fn holds(state: &[bool], fact: &Fact) -> bool
    requires { IsIn (length state.now) fact.now }
    ensures { IsTrue result ↔ HoldsIn (row state.now) fact.now }
{
    match fact {
        Fact::Zero(j) => !state[*j as usize],
        Fact::One(j) => state[*j as usize],
        Fact::Same(i, j) => state[*i as usize] == state[*j as usize],
        Fact::Differ(i, j) => state[*i as usize] != state[*j as usize],
        Fact::AnyOf(literals) => is_any_true(state, literals.as_slice()),
    }
}

/// Adds an equal fact last.
pub fn push_copy(alloc: Global, facts: &mut Inv, fact: &Fact) -> M<()>
    ensures { OnOk result (facts.new ≡ facts.old ++ fact.now ∷ []) }
{
    let copy = fact.remake(alloc)?;
    facts.push(copy)
}

/// Whether both facts are the same.
fn is_same(fact: &Fact, other: &Fact) -> bool
    ensures { IsTrue result ↔ (fact.now ≡ other.now) }
{
    match fact {
        Fact::Zero(j) => match other {
            Fact::Zero(n) => j == n,
            _ => false,
        },
        Fact::One(j) => match other {
            Fact::One(n) => j == n,
            _ => false,
        },
        Fact::Same(i, j) => match other {
            Fact::Same(m, n) => i == m && j == n,
            _ => false,
        },
        Fact::Differ(i, j) => match other {
            Fact::Differ(m, n) => i == m && j == n,
            _ => false,
        },
        Fact::AnyOf(ls) => match other {
            Fact::AnyOf(ms) => ls.as_slice() == ms.as_slice(),
            _ => false,
        },
    }
}

/// Whether the fact is one of these.
fn is_among(facts: &[Fact], fact: &Fact) -> bool
    ensures { IsTrue result ↔ Contains facts.now fact.now }
{
    for other in facts {
        if is_same(other, fact) {
            return true;
        }
    }
    false
}

/// The facts of a group.
fn members(facts: &Inv, group: u32) -> &[Fact]
    requires { 64 * group < length facts.now }
    ensures { result.now ≡ group_of facts.now group }
{
    let later = &facts.as_slice()[64 * group as usize..];
    &later[..later.len().min(64)]
}

/// The facts that are not of a group, in time linear in the facts.
pub fn outside(alloc: Global, facts: &Inv, group: u32) -> M<Inv>
    requires { 64 * group < length facts.now }
    ensures { IfOk result (AreThose (IsOutside facts.now group) facts.now) }
{
    let members = members(facts, group);
    let mut left = List::new(alloc);
    for fact in facts.as_slice() {
        if !is_among(members, fact) {
            push_copy(alloc, &mut left, fact)?;
        }
    }
    Ok(left)
}
