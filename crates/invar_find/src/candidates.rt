//! The facts that are tried.

ghost use Rattle.std.specs.Prelude.{◌≡◌, ◌<◌, ◌≤◌, ◌++◌, [], length, IfOk, OnOk};
ghost use Rattle.invar_find.specs.Candidates as facts;
ghost use Rattle.invar_find.specs.Candidates.{pairs_with};
ghost use Rattle.invar_find.specs.Parts.{AreThose};
ghost use Rattle.invar_find.specs.Standing.{AddsThose, IsOf, Stands};

use crate::seen::Seen;
use cnf_frames::{Fact, Inv};
use hy_base::{List, M};
use std::alloc::Global;

/// How many latches are compared with each other.
pub const PAIRED: u32 = 512;

/// Of the candidates, which are for each latch that it is 0, and that it is 1, and for each two of the
/// first 512 that they are equal, and that they differ, those that are left. In time linear in the
/// candidates, and in memory linear in those that are left.
pub fn candidates_in(alloc: Global, seen: &Seen) -> M<Inv>
    requires of { IsOf (length seen.now.ones) seen.now }
    requires none { seen.now.others ≡ [] }
    ensures { IfOk result (AreThose (Stands seen.now) (facts.candidates (length seen.now.ones))) }
{
    let latches = seen.ones.len() as u32;
    let mut made = List::new(alloc);
    for j in 0..latches {
        let one = seen.ones.as_slice()[j as usize];
        if !one {
            made.push(Fact::Zero(j))?;
        }
    }
    for j in 0..latches.min(PAIRED) {
        add_pairs(&mut made, seen, j)?;
    }
    Ok(made)
}

/// For each latch before `j` that both are equal, if that is left.
fn add_pairs(made: &mut Inv, seen: &Seen, j: u32) -> M<()>
    requires of { IsOf (length seen.now.ones) seen.now }
    requires none { seen.now.others ≡ [] }
    requires latch { j < length seen.now.ones }
    ensures { OnOk result (AddsThose (Stands seen.now) (pairs_with j) made.old made.new) }
{
    let classes = seen.classes.as_slice();
    let class = classes[j as usize];
    for i in 0..j {
        let other = classes[i as usize];
        if other == class {
            made.push(Fact::Same(i, j))?;
        }
    }
    Ok(())
}
