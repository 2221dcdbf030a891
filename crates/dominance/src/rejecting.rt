//! Whether at a place each trace is one of a tuple that violates the body.

ghost use Rattle.std.specs.Prelude.{◌<◌, IfOk, IsTrue};
ghost use Rattle.fin_monitor.specs.Machines.{codes, states_of};
ghost use Rattle.fin_monitor.specs.Seen.{machine_of};
ghost use Rattle.dominance.specs.Runs.{AreCodesOf};
ghost use Rattle.dominance.specs.Telling.{IsRejectable, AreRejecting, AreClosed, HasParts, MayStay, MayStayBy};

use crate::rows::{row_codes, rows};
use fin_monitor::Monitor;
use hy_base::{List, M, NumList, Steps};
use std::alloc::Global;
use std::sync::ledger::Ledger;

/// After so many passes over the table no place is taken as one where each trace is rejected.
const MOST_PASSES: u32 = 64;

/// Whether with each trace at the place there are others, as long as it, by which the tuple
/// violates the body. Not all such places may be found. In time linear in the table.
pub(crate) fn is_rejectable<L: Ledger>(
    alloc: Global,
    m: &Monitor,
    place: u8,
    steps: &mut Steps<L>,
) -> M<bool>
    requires { place < (machine_of m.now).variables }
    ensures { IfOk result (λ answer. IsTrue answer → IsRejectable (machine_of m.now) place) }
{
    let rows = rows(alloc, m, place)?;
    let codes = row_codes(alloc, m, rows.as_slice())?;
    let parts = parts(alloc, m, place)?;
    let moves = Moves {
        monitor: m,
        parts: parts.as_slice(),
        codes: codes.as_slice(),
    };
    let mut rejecting = rejecting_states(alloc, m)?;
    for _pass in 0..MOST_PASSES {
        if moves.are_closed(&rejecting, steps) {
            return Ok(moves.may_stay(&rejecting, m.start(), steps));
        }
        moves.shrink(&mut rejecting, steps);
    }
    Ok(false)
}

/// The parts of codes that the letters of a place give, each once.
fn parts(alloc: Global, m: &Monitor, place: u8) -> M<NumList>
    requires { place < (machine_of m.now).variables }
    ensures all { IfOk result (HasParts (machine_of m.now) place) }
    ensures below { IfOk result (λ made. AreCodesOf (machine_of m.now) made) }
{
    // no atom has this variable
    let rows = rows(alloc, m, m.vars())?;
    let mut parts = List::new(alloc);
    for row in rows.as_slice() {
        let part = m.part(place, row[place as usize]);
        if part == m.joint(&row[..m.vars() as usize]) {
            parts.push(part)?;
        }
    }
    Ok(parts)
}

/// For each state whether it does not accept.
fn rejecting_states(alloc: Global, m: &Monitor) -> M<List<bool>>
    ensures { IfOk result (AreRejecting (machine_of m.now)) }
{
    let mut rejecting = List::new(alloc);
    for q in 0..m.states() {
        rejecting.push(!m.accepts(q))?;
    }
    Ok(rejecting)
}

/// The parts of codes that a place gives, and the codes of what the other places say.
#[derive(Clone, Copy)]
struct Moves<'a> {
    monitor: &'a Monitor,
    parts: &'a [u32],
    codes: &'a [u32],
}

impl Moves<'_> {
    /// Whether at each of the states each part has a code by which it stays among them.
    fn are_closed<L: Ledger>(&self, among: &List<bool>, steps: &mut Steps<L>) -> bool
        requires parts { AreCodesOf (machine_of self.now.monitor.now) self.now.parts.now }
        requires codes { AreCodesOf (machine_of self.now.monitor.now) self.now.codes.now }
        requires among { AreRejecting (machine_of self.now.monitor.now) among.now }
        ensures { IsTrue result → AreClosed (machine_of self.now.monitor.now) self.now.parts.now
            self.now.codes.now among.now }
    {
        for q in 0..self.monitor.states() {
            if *among.at(q as usize) && !self.may_stay(among, q, steps) {
                return false;
            }
        }
        true
    }

    /// Takes off the states that some part leads away from, the last state first.
    fn shrink<L: Ledger>(&self, among: &mut List<bool>, steps: &mut Steps<L>)
        requires parts { AreCodesOf (machine_of self.now.monitor.now) self.now.parts.now }
        requires codes { AreCodesOf (machine_of self.now.monitor.now) self.now.codes.now }
        requires among { AreRejecting (machine_of self.now.monitor.now) among.old }
        ensures { AreRejecting (machine_of self.now.monitor.now) among.new }
    {
        let mut q = self.monitor.states();
        while q > 0 {
            q -= 1;
            if *among.at(q as usize) && !self.may_stay(among, q, steps) {
                among.set(q as usize, false);
            }
        }
    }

    /// Whether from a state each part has a code that leads to one of the states.
    fn may_stay<L: Ledger>(&self, among: &List<bool>, q: u32, steps: &mut Steps<L>) -> bool
        requires parts { AreCodesOf (machine_of self.now.monitor.now) self.now.parts.now }
        requires codes { AreCodesOf (machine_of self.now.monitor.now) self.now.codes.now }
        requires among { AreRejecting (machine_of self.now.monitor.now) among.now }
        requires state { q < states_of (machine_of self.now.monitor.now) }
        ensures { IsTrue result → MayStay (machine_of self.now.monitor.now) self.now.parts.now
            self.now.codes.now among.now q }
    {
        for part in self.parts {
            if !self.may_stay_by(among, q, *part, steps) {
                return false;
            }
        }
        true
    }

    /// The same by one part.
    fn may_stay_by<L: Ledger>(
        &self,
        among: &List<bool>,
        q: u32,
        part: u32,
        steps: &mut Steps<L>,
    ) -> bool
        requires codes { AreCodesOf (machine_of self.now.monitor.now) self.now.codes.now }
        requires among { AreRejecting (machine_of self.now.monitor.now) among.now }
        requires state { q < states_of (machine_of self.now.monitor.now) }
        requires part { part < codes (machine_of self.now.monitor.now) }
        ensures { IsTrue result → MayStayBy (machine_of self.now.monitor.now) self.now.codes.now
            among.now q part }
    {
        for k in 0..self.codes.len() {
            let code = self.codes[k];
            let next = self.monitor.step(q, part | code, steps);
            if *among.at(next as usize) {
                return true;
            }
        }
        false
    }
}
