//! Whether the order of two traces matters.

ghost use Rattle.std.specs.Prelude.{◌≡◌, ◌↔◌, ◌<◌, length, IfOk, IsTrue};
ghost use Rattle.hy_finite.specs.declared.lengths.Lengths.{Lengths as Rule};
ghost use Rattle.fin_monitor.specs.Seen.{machine_of};
ghost use Rattle.dominance.specs.Dominance.{IsSymmetric};
ghost use Rattle.dominance.specs.Runs.{AreCodesOf, IsFoundOrNot, even_pairing};

use crate::pairing::Pairing;
use crate::rows::{row_codes, rows, turned_codes};
use fin_monitor::Monitor;
use hy_base::{M, Steps};
use hy_finite::Lengths;
use std::alloc::Global;
use std::marker::Brand;
use std::sync::ledger::{Blank, Ledger};

/// Whether the body of a monitor has two variables, and exchanging two traces never changes whether
/// it holds of them; the rule for lengths does not matter.
///
/// In time at most the pairs of states, times 2 to the number of atoms.
pub fn symmetric(alloc: Global, m: &Monitor) -> M<bool>
    ensures { IfOk result (λ answer. (rule : Rule) → IsTrue answer
        ↔ IsSymmetric rule (machine_of m.now).variables (machine_of m.now).body) }
{
    symmetric_on::<Brand>(alloc, m, Blank::new(1))
}

/// As `symmetric`, with a ledger for the steps of the monitor, which are not asked for.
fn symmetric_on<L: Ledger>(alloc: Global, m: &Monitor, blank: Blank) -> M<bool>
    requires name { blank.name ≡ L.name }
    requires parts { blank.parts ≡ L.parts }
    requires some { 0 < blank.parts }
    ensures { IfOk result (λ answer. (rule : Rule) → IsTrue answer
        ↔ IsSymmetric rule (machine_of m.now).variables (machine_of m.now).body) }
{
    let mut steps = Steps::<L>::new(blank);
    if m.vars() != 2 {
        return Ok(false);
    }
    // no atom has variable 2
    let rows = rows(alloc, m, 2)?;
    let codes = row_codes(alloc, m, rows.as_slice())?;
    let turned = turned_codes(alloc, m, rows.as_slice())?;
    let there = apart(alloc, m, codes.as_slice(), turned.as_slice(), &mut steps)?;
    let back = apart(alloc, m, turned.as_slice(), codes.as_slice(), &mut steps)?;
    Ok(!there && !back)
}

/// Whether there are choices, of any number, after whose upper codes the monitor accepts, and after
/// whose lower codes it does not.
fn apart<L: Ledger>(
    alloc: Global,
    m: &Monitor,
    upper_codes: &[u32],
    lower_codes: &[u32],
    steps: &mut Steps<L>,
) -> M<bool>
    requires upper { AreCodesOf (machine_of m.now) upper_codes.now }
    requires lower { AreCodesOf (machine_of m.now) lower_codes.now }
    requires same { length lower_codes.now ≡ length upper_codes.now }
    ensures { IfOk result (IsFoundOrNot
        (even_pairing (machine_of m.now) upper_codes.now lower_codes.now)) }
{
    let pairing = Pairing {
        monitor: m,
        lengths: Lengths::Pad,
        upper: &[],
        lower: &[],
        upper_codes,
        lower_codes,
    };
    match pairing.search(alloc, steps)? {
        Some(_path) => Ok(true),
        None => Ok(false),
    }
}
