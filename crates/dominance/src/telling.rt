//! Names whose difference shows that neither of two traces dominates the other.

ghost use Rattle.std.specs.Prelude.{◌≡◌, ◌<◌, ℕ, length, IfOk, IsTrue};
ghost use Rattle.std.specs.FinSet.{contains};
ghost use Rattle.std.specs.List.{Contains};
ghost use Rattle.hy_bits.specs.Binary.{has_one};
ghost use Rattle.hy_finite.specs.declared.lengths.Lengths.{Lengths as Rule};
ghost use Rattle.fin_monitor.specs.Machines.{codes, states_of};
ghost use Rattle.fin_monitor.specs.Seen.{machine_of};
ghost use Rattle.dominance.specs.Dominance.{IsTrace, Dominates};
ghost use Rattle.dominance.specs.Telling.{MustAgree, MustAgreeFrom, IsTold, AreTold, AreNames, AreTelling};

use crate::rejecting::is_rejectable;
use fin_monitor::Monitor;
use hy_base::{List, M, Steps};
use hy_bits::LetterMask;
use std::alloc::Global;
use std::marker::Brand;
use std::sync::ledger::{Blank, Ledger};

/// Names that tell traces apart: of two traces that differ in one of them, at a position of both,
/// neither dominates the other. Not all such names may be found.
///
/// A tuple that violates the body must agree on the name at two places, at each position; and with
/// each trace at the one place some others violate it. In time linear in the monitor's table, for
/// each pair of atoms.
pub fn telling_names(alloc: Global, m: &Monitor) -> M<List<usize>>
    ensures { IfOk result (AreTelling (machine_of m.now).variables (machine_of m.now).body) }
{
    telling_on::<Brand>(alloc, m, Blank::new(1))
}

/// As `telling_names`, with a ledger for the steps of the monitor, which are not asked for.
fn telling_on<L: Ledger>(alloc: Global, m: &Monitor, blank: Blank) -> M<List<usize>>
    requires name { blank.name ≡ L.name }
    requires parts { blank.parts ≡ L.parts }
    requires some { 0 < blank.parts }
    ensures { IfOk result (AreTelling (machine_of m.now).variables (machine_of m.now).body) }
{
    let mut steps = Steps::<L>::new(blank);
    for place in 0..m.vars() {
        let names = told_names(alloc, m, place, &mut steps)?;
        if !names.is_empty() && is_rejectable(alloc, m, place, &mut steps)? {
            return Ok(names);
        }
    }
    Ok(List::new(alloc))
}

/// The names on which a tuple that violates the body must agree at the place with another place.
fn told_names<L: Ledger>(
    alloc: Global,
    m: &Monitor,
    place: u8,
    steps: &mut Steps<L>,
) -> M<List<usize>>
    ensures { IfOk result (AreTold (machine_of m.now) place) }
{
    let mut names = List::new(alloc);
    let atoms = m.atoms();
    for i in 0..atoms.len() {
        if atoms[i].var == place && must_agree_elsewhere(m, i, steps) {
            names.push(atoms[i].name as usize)?;
        }
    }
    Ok(names)
}

/// Whether a tuple that violates the body must agree on an atom with one of another place.
fn must_agree_elsewhere<L: Ledger>(m: &Monitor, i: usize, steps: &mut Steps<L>) -> bool
    requires { i < length (machine_of m.now).atoms }
    ensures { IsTrue result → IsTold (machine_of m.now) i }
{
    let atoms = m.atoms();
    for j in 0..atoms.len() {
        if atoms[j].var != atoms[i].var && must_agree(m, i, j, steps) {
            return true;
        }
    }
    false
}

/// Whether nothing is rejected once two atoms have differed at a position.
fn must_agree<L: Ledger>(m: &Monitor, i: usize, j: usize, steps: &mut Steps<L>) -> bool
    requires i { i < length (machine_of m.now).atoms }
    requires j { j < length (machine_of m.now).atoms }
    ensures { IsTrue result → MustAgree (machine_of m.now) i j }
{
    for q in 0..m.states() {
        if !must_agree_from(m, q, i, j, steps) {
            return false;
        }
    }
    true
}

/// The same from one state.
fn must_agree_from<L: Ledger>(m: &Monitor, q: u32, i: usize, j: usize, steps: &mut Steps<L>) -> bool
    requires state { q < states_of (machine_of m.now) }
    requires i { i < length (machine_of m.now).atoms }
    requires j { j < length (machine_of m.now).atoms }
    ensures { IsTrue result → MustAgreeFrom (machine_of m.now) i j q }
{
    for code in 0..1 << m.atoms().len() {
        if has_bit(code, i) != has_bit(code, j) && !m.is_settled(m.step(q, code, steps)) {
            return false;
        }
    }
    true
}

/// Bit `i` of a code.
fn has_bit(code: u32, i: usize) -> bool
    requires { i < 32 }
    ensures { result ≡ has_one code i }
{
    (code >> i) & 1 == 1
}

/// Whether two traces differ in one of the names at a position of both. Takes no memory, and time
/// linear in the positions up to there, times the names.
pub(crate) fn are_apart(m: &Monitor, names: &[usize], t: &[LetterMask], u: &[LetterMask]) -> bool
    requires telling { AreTelling (machine_of m.now).variables (machine_of m.now).body names.now }
    requires some_t { IsTrace t.now }
    requires some_u { IsTrace u.now }
    ensures { IsTrue result → (rule : Rule)
        → (¬ Dominates rule (machine_of m.now).variables (machine_of m.now).body t.now u.now)
        × (¬ Dominates rule (machine_of m.now).variables (machine_of m.now).body u.now t.now) }
{
    for i in 0..t.len().min(u.len()) {
        if differ(names, t[i], u[i]) {
            return true;
        }
    }
    false
}

/// Whether two letters differ in one of the names.
fn differ(names: &[usize], one: LetterMask, other: LetterMask) -> bool
    requires { AreNames names.now }
    ensures { IsTrue result → (name : ℕ) × Contains names.now name
        × ¬ (contains one name ≡ contains other name) }
{
    for name in names {
        if one.has(*name) != other.has(*name) {
            return true;
        }
    }
    false
}
