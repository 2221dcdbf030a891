//! Residuals without the duties that leave nothing, after any letter, that others do not.

ghost use Rattle.std.specs.Prelude.{◌≤◌, ◌<◌, ◌*◌, length, IfOk, IsTrue};
ghost use Rattle.fin_monitor.specs.Reductions.{Outdoes, OutdoesSome, OutdoesDuty, OutdoneBy, LeaveAlike};

use crate::duty::Duty;
use crate::families::Family;
use hy_base::M;
use ltl_closure::{Closure, Node};
use std::alloc::Global;

/// The duties of a residual, the last one first, without those that an earlier one outdoes: what is
/// left of it after a letter is the same. Not all that could go are found.
pub fn reduced<const W: usize>(
    alloc: Global,
    closure: &Closure,
    residual: &[Duty<W>],
) -> M<Family<W>>
    requires width { W ≤ 16 }
    requires members { length closure.now.nodes ≤ 64 * W }
    ensures { IfOk result (λ made. LeaveAlike closure.now.nodes made.items residual.now) }
{
    let mut made = Vec::new(alloc);
    let mut i = residual.len();
    while i > 0 {
        i -= 1;
        let d = residual[i];
        if !is_outdone(closure, &d, &made) {
            made.push(d)?;
        }
    }
    Ok(made)
}

/// Whether some duty of the list is known to outdo `d`.
fn is_outdone<const W: usize>(closure: &Closure, d: &Duty<W>, list: &[Duty<W>]) -> bool
    requires width { W ≤ 16 }
    requires members { length closure.now.nodes ≤ 64 * W }
    ensures { IsTrue result → OutdoneBy closure.now.nodes d.now list.now }
{
    for e in list {
        if outdoes_duty(closure, e, d) {
            return true;
        }
    }
    false
}

/// Whether each member of a duty outdoes one of the other.
fn outdoes_duty<const W: usize>(closure: &Closure, e: &Duty<W>, d: &Duty<W>) -> bool
    requires width { W ≤ 16 }
    requires members { length closure.now.nodes ≤ 64 * W }
    ensures { IsTrue result → OutdoesDuty closure.now.nodes e.now d.now }
{
    for k in 0..closure.len() {
        if e.has(k) && !outdoes_some(closure, k as u16, d) {
            return false;
        }
    }
    true
}

/// Whether member `k` outdoes one of the duty.
fn outdoes_some<const W: usize>(closure: &Closure, k: u16, d: &Duty<W>) -> bool
    requires width { W ≤ 16 }
    requires members { length closure.now.nodes ≤ 64 * W }
    requires there { k < length closure.now.nodes }
    ensures { IsTrue result → OutdoesSome closure.now.nodes k d.now }
{
    for f in 0..closure.len() {
        if d.has(f) && outdoes(closure, k, f as u16) {
            return true;
        }
    }
    false
}

/// Whether `f` is member `k`, or the right part of an until that is, and so on: where `f` leaves a
/// duty, so does `k`.
fn outdoes(closure: &Closure, k: u16, f: u16) -> bool
    requires { k < length closure.now.nodes }
    ensures { IsTrue result → Outdoes closure.now.nodes k f }
{
    let mut part = k;
    for _step in 0..closure.len() {
        if part == f {
            return true;
        }
        match closure.node(part) {
            Node::Until(_, h) => part = h,
            _ => return false,
        }
    }
    false
}
