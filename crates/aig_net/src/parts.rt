//! What a net is made of.

use hy_base::{List, M, NumList, Remake, Text};
use std::alloc::Global;

/// The value of a latch at the start.
#[derive(Clone, Copy, Debug, PartialEq, Eq)]
pub enum Reset {
    Zero,
    One,
    /// Either value: the latch is uninitialised.
    Free,
}

/// The and of two literals, of which the larger is `left`.
#[derive(Clone, Copy, Debug, PartialEq, Eq)]
pub struct And {
    pub left: u32,
    pub right: u32,
}

/// One reset for each latch.
pub type ResetList = List<Reset>;

/// Ands in the order of their variables.
pub type AndList = List<And>;

/// Names; the empty text is no name.
pub type NameList = List<Text>;

impl Remake for Reset {
    fn remake(&self, _alloc: Global) -> M<Self> {
        Ok(*self)
    }
}

impl Remake for And {
    fn remake(&self, _alloc: Global) -> M<Self> {
        Ok(*self)
    }
}

/// The parts of a net. Variable 0 is false; from 1 on come the variables of the inputs, then of
/// the latches, then of the ands. Literal 2v says that variable v is true, 2v + 1 that it is false.
#[derive(Drop)]
pub struct NetParts {
    /// How many inputs there are.
    pub inputs: u32,
    /// For each latch the literal that gives its next value.
    pub latches: NumList,
    /// For each latch its value at the start.
    pub resets: ResetList,
    pub ands: AndList,
    /// Literals.
    pub outputs: NumList,
    /// Literals that are true in each step.
    pub constraints: NumList,
    /// Literals that are true again and again.
    pub fairs: NumList,
    pub input_names: NameList,
    pub latch_names: NameList,
    pub output_names: NameList,
}
