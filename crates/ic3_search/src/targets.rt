//! Which states a search is to exclude: those in which all literals of a cube are true. Behind the
//! latches one place more stands for `bad`.

ghost use Rattle.aig_net.specs.Nets.{variables};

use crate::constrained::{mark_any, mark_below};
use crate::cubes::Cube;
use crate::variables::{first_and, first_latch};
use aig_net::Net;
use hy_base::{List, M};
use live_safe::SafeNet;
use std::alloc::Global;

/// The bad states.
pub(crate) fn bad_states(alloc: Global, safe: &SafeNet) -> M<Cube> {
    let behind = first_and(&safe.net) - first_latch(&safe.net);
    let mut target = List::new(alloc);
    target.push(2 * behind)?;
    Ok(target)
}

/// For each variable whether ands alone make it 1 wherever the literal is true, in time linear in
/// the net.
fn implied(alloc: Global, net: &Net, literal: u32) -> M<Vec<bool>> {
    let mut marks = vec![in alloc; false; net.variables() as usize]?;
    mark_any(marks.as_mut_slice(), literal, true);
    mark_below(net, marks.as_mut_slice(), true);
    Ok(marks)
}

/// The states in which all latches are 1 that are so in each bad state: a state was saved, and each
/// until was seen since. Bad states also repeat what was saved, which is left out: what is saved
/// matters to nothing else. In time linear in the net.
pub(crate) fn seen_states(alloc: Global, safe: &SafeNet) -> M<Cube> {
    let marks = implied(alloc, &safe.net, safe.bad)?;
    let first = first_latch(&safe.net);
    let mut target = List::new(alloc);
    for latch in 0..safe.net.latches().len() as u32 {
        if marks.get((first + latch) as usize) == Some(&true) {
            target.push(2 * latch)?;
        }
    }
    Ok(target)
}
