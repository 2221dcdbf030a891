//! Facts about states.

use hy_base::{List, M, NumList, Remake};
use std::alloc::Global;

/// What a state may have: latches are named by their places, counted from 0.
#[derive(Drop)]
pub enum Fact {
    /// The latch is 0.
    Zero(u32),
    /// The latch is 1.
    One(u32),
    /// Both latches are equal.
    Same(u32, u32),
    /// The latches differ.
    Differ(u32, u32),
    /// Some of the literals is true: 2 * A says that latch A is 1, 2 * A + 1 that it is 0.
    AnyOf(NumList),
}

/// Facts, as those that each state on a path from the start has.
pub type Inv = List<Fact>;

impl Remake for Fact {
    fn remake(&self, alloc: Global) -> M<Self> {
        match self {
            Fact::Zero(a) => Ok(Fact::Zero(*a)),
            Fact::One(a) => Ok(Fact::One(*a)),
            Fact::Same(a, b) => Ok(Fact::Same(*a, *b)),
            Fact::Differ(a, b) => Ok(Fact::Differ(*a, *b)),
            Fact::AnyOf(literals) => Ok(Fact::AnyOf(literals.copy(alloc)?)),
        }
    }
}
