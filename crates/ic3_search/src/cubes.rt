//! Cubes: sets of states, each given by literals of latches that are all true in it.

use hy_base::{List, M, NumList};
use std::alloc::Global;

/// Literals of latches, ascending, each latch once: literal 2A says that latch A is 1, and 2A + 1
/// that it is 0.
pub type Cube = NumList;

/// Whether some latch is 1 in all states of the cube, so that the start is none of them.
pub(crate) fn excludes_start(cube: &[u32]) -> bool {
    cube.iter().any(|literal| *literal % 2 == 0)
}

/// Whether each literal of one cube is one of the other.
pub(crate) fn is_part(some: &[u32], all: &[u32]) -> bool {
    some.iter()
        .all(|literal| all.binary_search(literal).is_ok())
}

/// The cube without a literal, in time linear in it.
pub(crate) fn without(alloc: Global, cube: &[u32], literal: u32) -> M<Cube> {
    let mut left = List::new(alloc);
    for other in cube {
        if *other != literal {
            left.push(*other)?;
        }
    }
    Ok(left)
}

/// The literals for which the test holds, and if these leave no latch that is 1, the first literal
/// that says so of one.
pub(crate) fn part_of(alloc: Global, cube: &[u32], named: &[bool]) -> M<Cube> {
    let mut part = List::new(alloc);
    let mut lacks = !cube
        .iter()
        .zip(named)
        .any(|(literal, is_named)| *is_named && *literal % 2 == 0);
    for (literal, is_named) in cube.iter().zip(named) {
        if *is_named || lacks && *literal % 2 == 0 {
            part.push(*literal)?;
            lacks = lacks && *literal % 2 != 0;
        }
    }
    Ok(part)
}
