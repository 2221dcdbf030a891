//! Whether a trace dominates another.

ghost use Rattle.std.specs.Prelude.{◌≡◌, ◌↔◌, ◌<◌, ◌≤◌, ◌∷◌, [], length, IfOk, IsTrue};
ghost use Rattle.hy_finite.specs.declared.lengths.Lengths.{Lengths as Rule};
ghost use Rattle.hy_finite.specs.Traces.{Meets};
ghost use Rattle.fin_monitor.specs.Seen.{machine_of};
ghost use Rattle.dominance.specs.Answers.{IsComparison, IsAnswerAt};

use crate::column::column;
use crate::others::others;
use crate::pairing::Pairing;
use crate::rows::{row_codes, rows};
use fin_monitor::Monitor;
use hy_base::{List, M, Steps};
use hy_bits::{LetterMask, Letters};
use hy_finite::{Lengths, Trace};
use std::alloc::Global;
use std::marker::Brand;
use std::sync::ledger::{Blank, Ledger};

/// Words one after another, each of letters.
pub type WordList = List<Letters>;

/// Whether a trace dominates another.
#[derive(Drop)]
pub enum Compare {
    /// At each place, whatever finite traces stand at the other places, the tuple with the one
    /// trace violates the body if the tuple with the other one does.
    Yes,
    /// With these words at the other places, one for each in order and none of them empty, the
    /// tuple with the other trace at the place violates the body, and with the one it does not. A
    /// word may be longer than a trace can be.
    No { place: u8, others: WordList },
}

/// Whether `t` dominates `u` for the body of a monitor, where tuples are judged by this rule.
///
/// At each place both traces are run side by side, for all that the other places can say and all
/// their lengths: in time at most the positions of the longer trace, times the pairs of states that
/// are reached there, times 2 to the number of atoms of the other places.
pub fn dominates(alloc: Global, m: &Monitor, t: &Trace, u: &Trace, lengths: Lengths) -> M<Compare>
    ensures { IfOk result (IsComparison lengths (machine_of m.now).variables
        (machine_of m.now).body t.now u.now) }
{
    compare_on::<Brand>(alloc, m, t, u, lengths, Blank::new(1))
}

/// As `dominates`, with a ledger for the steps of the monitor, which are not asked for.
fn compare_on<L: Ledger>(
    alloc: Global,
    m: &Monitor,
    t: &Trace,
    u: &Trace,
    lengths: Lengths,
    blank: Blank,
) -> M<Compare>
    requires name { blank.name ≡ L.name }
    requires parts { blank.parts ≡ L.parts }
    requires some { 0 < blank.parts }
    ensures { IfOk result (IsComparison lengths (machine_of m.now).variables
        (machine_of m.now).body t.now u.now) }
{
    let mut steps = Steps::<L>::new(blank);
    prove!(t.len() > 0 && u.len() > 0);
    let over = t.as_slice();
    let under = u.as_slice();
    if m.vars() == 1 {
        return Ok(alone(alloc, m, over, under, &mut steps));
    }
    for place in 0..m.vars() {
        if let Some(others) = refuting(alloc, m, over, under, lengths, place, &mut steps)? {
            return Ok(Compare::No { place, others });
        }
    }
    Ok(Compare::Yes)
}

/// Words at the places other than `place` by which `t` does not dominate `u`, if there are some.
fn refuting<L: Ledger>(
    alloc: Global,
    m: &Monitor,
    t: &[LetterMask],
    u: &[LetterMask],
    lengths: Lengths,
    place: u8,
    steps: &mut Steps<L>,
) -> M<Option<WordList>>
    requires some_t { 1 ≤ length t.now }
    requires some_u { 1 ≤ length u.now }
    requires two { 2 ≤ (machine_of m.now).variables }
    requires place { place < (machine_of m.now).variables }
    ensures { IfOk result (IsAnswerAt lengths (machine_of m.now).variables
        (machine_of m.now).body place t.now u.now) }
{
    let rows = rows(alloc, m, place)?;
    let codes = row_codes(alloc, m, rows.as_slice())?;
    let upper = column(alloc, m, place, t)?;
    let lower = column(alloc, m, place, u)?;
    let pairing = Pairing {
        monitor: m,
        lengths,
        upper: upper.as_slice(),
        lower: lower.as_slice(),
        upper_codes: codes.as_slice(),
        lower_codes: codes.as_slice(),
    };
    match pairing.search(alloc, steps)? {
        Some(path) => Ok(Some(others(alloc, m.vars(), place, rows.as_slice(), &path)?)),
        None => Ok(None),
    }
}

/// As `dominates`, for one variable.
fn alone<L: Ledger>(
    alloc: Global,
    m: &Monitor,
    t: &[LetterMask],
    u: &[LetterMask],
    steps: &mut Steps<L>,
) -> Compare
    requires one { (machine_of m.now).variables ≡ 1 }
    requires some_t { 1 ≤ length t.now }
    requires some_u { 1 ≤ length u.now }
    ensures { (rule : Rule) → IsComparison rule 1 (machine_of m.now).body t.now u.now result }
{
    if satisfies(m, t, steps) && !satisfies(m, u, steps) {
        Compare::No {
            place: 0,
            others: List::new(alloc),
        }
    } else {
        Compare::Yes
    }
}

/// Whether a trace alone satisfies the body.
pub(crate) fn satisfies<L: Ledger>(m: &Monitor, t: &[LetterMask], steps: &mut Steps<L>) -> bool
    requires one { (machine_of m.now).variables ≡ 1 }
    requires some { 1 ≤ length t.now }
    ensures { (rule : Rule) → IsTrue result ↔ Meets rule (machine_of m.now).body (t.now ∷ []) }
{
    let mut q = m.start();
    for letter in t {
        q = m.step(q, m.joint(&[*letter]), steps);
    }
    m.accepts(q)
}
