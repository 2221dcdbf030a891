//! What is given out.

ghost use Rattle.std.specs.Prelude.{◌≡◌, ◌<◌, ◌^◌, IsTrue, IfOk, All};
ghost use Rattle.cnf_frames.specs.Facts.{AllIn};
ghost use Rattle.ic3_search.specs.LatchClauses.{IsLatchClause, IsLatchFact};

use crate::cubes::Cube;
use aig_net::opposite_of;
use cnf_frames::{Fact, Inv};
use hy_base::{List, M, NumList};
use std::alloc::Global;

/// Whether this is a clause over so many latches that is true at the start, in time linear in it.
fn is_latch_clause(clause: &[u32], latches: usize) -> bool
    ensures { IsTrue result → IsLatchClause latches clause.now }
{
    let mut least = 0;
    let mut starts = false;
    for literal in clause {
        let latch = *literal as usize / 2;
        if latch < least || latches <= latch {
            return false;
        }
        least = latch + 1;
        starts = starts || *literal % 2 == 1;
    }
    starts
}

/// The clause that no state of the cube makes true, and all others do.
fn clause_of(alloc: Global, cube: &[u32]) -> M<NumList> {
    let mut clause = List::new(alloc);
    for literal in cube {
        clause.push(opposite_of(*literal))?;
    }
    Ok(clause)
}

/// The clauses that exclude the cubes; a cube that has no such clause over the latches is left out.
pub fn clauses_of(alloc: Global, cubes: &[Cube], latches: usize) -> M<Inv>
    ensures clauses { IfOk result (λ clauses. All (IsLatchFact latches) clauses) }
    ensures inside { IfOk result (AllIn latches) }
{
    let mut clauses = List::new(alloc);
    for cube in cubes {
        let clause = clause_of(alloc, cube.as_slice())?;
        if is_latch_clause(clause.as_slice(), latches) {
            clauses.push(Fact::AnyOf(clause))?;
        }
    }
    Ok(clauses)
}
