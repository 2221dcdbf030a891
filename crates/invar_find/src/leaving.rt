//! What is left of a list of facts.

ghost use Rattle.std.specs.Prelude.{◌≡◌, ◌<◌, ◌^◌, ◌↔◌, true, length, IsTrue, IfOk};
ghost use Rattle.cnf_frames.specs.Facts.{AllIn, IsIn, IsSafe};
ghost use Rattle.hy_base.specs.Rows.{row};
ghost use Rattle.invar_find.specs.Parts.{AreThose};
ghost use Rattle.invar_find.specs.Standing as facts;
ghost use Rattle.invar_find.specs.Standing.{AreLeft, IsOf, Stands, StandsAt, others_of};

use crate::left::{count_latches, push_copy};
use crate::seen::Seen;
use crate::sifting::sift;
use crate::walking::Walker;
use cnf_frames::{Fact, Inv};
use hy_base::{List, M};
use live_safe::SafeNet;
use std::alloc::Global;

/// Whether a fact says neither that a latch is 0 nor that two are equal.
fn is_other(fact: &Fact) -> bool
    ensures { result ≡ facts.is_other fact.now }
{
    !matches!(fact, Fact::Zero(_) | Fact::Same(_, _))
}

/// Whether a fact is left, which stands at this place if it is one of the others.
fn stands(seen: &Seen, fact: &Fact, place: usize) -> bool
    requires of { IsOf (length seen.now.ones) seen.now }
    requires inside { IsIn (length seen.now.ones) fact.now }
    requires place { facts.is_other fact.now ≡ true → place < length seen.now.others }
    ensures { IsTrue result ↔ StandsAt seen.now place fact.now }
{
    let classes = seen.classes.as_slice();
    match fact {
        Fact::Zero(j) => !seen.ones.as_slice()[*j as usize],
        Fact::Same(i, j) => classes[*i as usize] == classes[*j as usize],
        _ => seen.alive.as_slice()[place],
    }
}

/// The facts of a list that are left, where these were there before any state. In time linear in them.
fn left_of(alloc: Global, facts: &Inv, seen: &Seen) -> M<Inv>
    requires of { IsOf (length seen.now.ones) seen.now }
    requires inside { AllIn (length seen.now.ones) facts.now }
    requires others { seen.now.others ≡ others_of facts.now }
    ensures { IfOk result (AreThose (Stands seen.now) facts.now) }
{
    let mut left = List::new(alloc);
    let mut place = 0;
    for fact in facts.as_slice() {
        if stands(seen, fact, place) {
            push_copy(alloc, &mut left, fact)?;
        }
        place += usize::from(is_other(fact));
    }
    Ok(left)
}

/// Of facts those that hold in a state, and that walks from it by inputs like these leave.
pub fn walked(alloc: Global, safe: &SafeNet, facts: &Inv, state: &[bool], inputs: &[bool]) -> M<Inv>
    requires safe { IsSafe safe.now }
    requires inside { AllIn (length safe.now.net.latches) facts.now }
    requires state { length state.now ≡ length safe.now.net.latches }
    ensures { IfOk result (AreLeft safe.now.net facts.now (row state.now)) }
{
    let mut seen = Seen::of_facts(alloc, facts, count_latches(safe))?;
    seen.meet(state);
    let mut walker = Walker::new(alloc, safe, 0)?;
    walker.begin(state, inputs);
    walker.walk(alloc, safe, &mut seen)?;
    left_of(alloc, facts, &seen)
}

/// Of facts those that hold in a state, and of which small queries find no step that breaks them.
pub fn sifted(alloc: Global, safe: &SafeNet, facts: &Inv, state: &[bool], conflicts: u32) -> M<Inv>
    requires safe { IsSafe safe.now }
    requires inside { AllIn (length safe.now.net.latches) facts.now }
    requires state { length state.now ≡ length safe.now.net.latches }
    requires conflicts { conflicts < 2 ^ 31 }
    ensures { IfOk result (AreLeft safe.now.net facts.now (row state.now)) }
{
    let mut seen = Seen::of_facts(alloc, facts, count_latches(safe))?;
    seen.meet(state);
    sift(alloc, safe, &mut seen, conflicts)?;
    left_of(alloc, facts, &seen)
}
