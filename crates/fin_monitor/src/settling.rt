//! States from which nothing can be rejected are made one.

ghost use Rattle.std.specs.Prelude.{◌≡◌, ℕ, ◌≤◌, ◌<◌, ◌*◌, ◌+◌, ◌^◌, ◌++◌, map, replicate, length, IfOk, IsTrue, true, slice_index};
ghost use Rattle.fin_monitor.specs.Tables.{AreSettled, IsSettling, IsTableOf, Stays, flag_at, standing};

use crate::automaton::Automaton;
use hy_base::{List, M, NumList};
use std::alloc::Global;

/// After so many passes over the table no state is taken as settled.
const MOST_PASSES: u32 = 64;

/// Whether each state is settled: nothing can be rejected from there. Not all that are such may be
/// found. In time linear in the table.
fn settled(alloc: Global, machine: &Automaton, bits: usize) -> M<List<bool>>
    requires bits { bits ≤ 16 }
    requires table { IsTableOf machine.now (2 ^ bits) }
    ensures { IfOk result (AreSettled machine.now (2 ^ bits)) }
{
    let mut settled = machine.accepting.copy(alloc)?;
    for _pass in 0..MOST_PASSES {
        if is_closed(machine, bits, &settled) {
            return Ok(settled);
        }
        shrink(machine, bits, &mut settled);
    }
    List::filled(alloc, false, machine.accepting.len())
}

/// Whether each settled state leads to such alone.
fn is_closed(machine: &Automaton, bits: usize, settled: &List<bool>) -> bool
    requires bits { bits ≤ 16 }
    requires table { IsTableOf machine.now (2 ^ bits) }
    requires long { length settled.now ≡ length machine.now.accepting }
    ensures { IsTrue result → (q : ℕ) → q < length settled.now → flag_at settled.now q ≡ true
        → Stays machine.now (2 ^ bits) settled.now q }
{
    for q in 0..settled.len() {
        if *settled.at(q) && !stays(machine, bits, settled, q) {
            return false;
        }
    }
    true
}

/// Takes off the states that lead to one that is not settled, the last state first.
fn shrink(machine: &Automaton, bits: usize, settled: &mut List<bool>)
    requires bits { bits ≤ 16 }
    requires table { IsTableOf machine.now (2 ^ bits) }
    requires long { length settled.old ≡ length machine.now.accepting }
    ensures long { length settled.new ≡ length settled.old }
    ensures fewer { (q : ℕ) → flag_at settled.new q ≡ true → flag_at settled.old q ≡ true }
{
    let mut q = settled.len();
    while q > 0 {
        q -= 1;
        if *settled.at(q) && !stays(machine, bits, settled, q) {
            settled.set(q, false);
        }
    }
}

/// Whether a state leads to settled states alone.
fn stays(machine: &Automaton, bits: usize, settled: &List<bool>, q: usize) -> bool
    requires bits { bits ≤ 16 }
    requires table { IsTableOf machine.now (2 ^ bits) }
    requires long { length settled.now ≡ length machine.now.accepting }
    requires state { q < length settled.now }
    ensures { IsTrue result → Stays machine.now (2 ^ bits) settled.now q }
{
    let row = q * (1 << bits);
    for code in 0..1 << bits {
        let next = *machine.table.at(row + code);
        if !*settled.at(next as usize) {
            return false;
        }
    }
    true
}

/// The same machine where one more state stands for the settled ones, the last one.
pub fn settle(alloc: Global, machine: &Automaton, bits: usize) -> M<Automaton>
    requires bits { bits ≤ 16 }
    requires table { IsTableOf machine.now (2 ^ bits) }
    ensures { IfOk result (IsSettling machine.now (2 ^ bits)) }
{
    let settled = settled(alloc, machine, bits)?;
    let table = merged(alloc, machine, bits, &settled)?;
    let mut accepting = machine.accepting.copy(alloc)?;
    accepting.push(true)?;
    Ok(Automaton { table, accepting })
}

/// The table where the last state stands for the settled ones, with its own row.
fn merged(alloc: Global, machine: &Automaton, bits: usize, flags: &List<bool>) -> M<NumList>
    requires bits { bits ≤ 16 }
    requires table { IsTableOf machine.now (2 ^ bits) }
    requires long { length flags.now ≡ length machine.now.accepting }
    ensures { IfOk result (λ table. table
        ≡ map (standing flags.now (length machine.now.accepting)) machine.now.table
        ++ replicate (2 ^ bits) (length machine.now.accepting)) }
{
    let last = machine.accepting.len() as u32;
    let mut table = NumList::new(alloc);
    for next in machine.table.as_slice() {
        table.push(standing(flags, last, *next))?;
    }
    for _code in 0..1usize << bits {
        table.push(last)?;
    }
    Ok(table)
}

/// The state that stands for another one.
fn standing(settled: &List<bool>, last: u32, q: u32) -> u32
    requires { q < length settled.now }
    ensures { result ≡ standing settled.now last q }
{
    if *settled.at(q as usize) { last } else { q }
}
