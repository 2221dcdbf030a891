//! Classes of latches: each latch has the number of one of its class.

ghost use Rattle.std.specs.Prelude.{◌≡◌, ◌*◌, ◌<◌, ◌^◌, false, length, IfOk};
ghost use Rattle.hy_base.specs.Rows.{row};
ghost use Rattle.invar_find.specs.Classes.{AreBelow, AreConstant, AreSplit, AreJoined, AreOwn};

use hy_base::{List, M, NumList};
use std::alloc::Global;

/// What stands for no latch.
const NONE: u32 = u32::MAX;

/// Each latch in a class of its own.
pub fn own_classes(alloc: Global, latches: u32) -> M<NumList>
    ensures { IfOk result (AreOwn latches) }
{
    let mut classes = List::new(alloc);
    for j in 0..latches {
        classes.push(j)?;
    }
    Ok(classes)
}

/// Makes the classes of two latches one, in time linear in the latches where they were not.
pub fn join(classes: &mut NumList, i: u32, j: u32)
    requires i { i < length classes.old }
    requires j { j < length classes.old }
    requires below { AreBelow (length classes.old) classes.old }
    ensures { AreJoined i j classes.old classes.new }
{
    let kept = classes.as_slice()[i as usize];
    let gone = classes.as_slice()[j as usize];
    if kept == gone {
        return;
    }
    for k in 0..classes.len() {
        if classes.as_slice()[k] == gone {
            classes.set(k, kept);
        }
    }
}

/// Whether two latches of a class differ in a state.
pub fn differ(classes: &[u32], state: &[bool]) -> bool
    requires many { length classes.now ≡ length state.now }
    requires below { AreBelow (length state.now) classes.now }
    ensures { result ≡ false → AreConstant classes.now (row state.now) }
{
    for (j, class) in classes.iter().enumerate() {
        if state[j] != state[*class as usize] {
            return true;
        }
    }
    false
}

/// Splits each class by the values of its latches in a state, in time linear in the latches. For each
/// class and value `firsts`, which is lent, gets the first latch that has both.
pub fn split(classes: &mut NumList, state: &[bool], firsts: &mut NumList)
    requires many { length classes.old ≡ length state.now }
    requires below { AreBelow (length state.now) classes.old }
    requires room { length firsts.old ≡ 2 * length state.now }
    requires few { length state.now < 2 ^ 31 }
    ensures split { AreSplit (length state.now) classes.old (row state.now) classes.new }
    ensures room { length firsts.new ≡ length firsts.old }
{
    for k in 0..firsts.len() {
        firsts.set(k, NONE);
    }
    for j in 0..state.len() {
        let k = 2 * classes.as_slice()[j] as usize + usize::from(state[j]);
        if firsts.as_slice()[k] == NONE {
            firsts.set(k, j as u32);
        }
        classes.set(j, firsts.as_slice()[k]);
    }
}
