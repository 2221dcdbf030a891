ghost use Rattle.std.specs.Prelude.{◌<◌};

use hy_base::{M, Remake};
use std::alloc::Global;

/// Says that the name of number `name` is in the present letter of the trace of variable `var`.
/// Names are numbered below 64, variables by the place of their quantifier.
#[derive(Clone, Copy, Debug, PartialEq, Eq, Hash)]
pub struct Atom {
    pub name: u8,
    pub var: u8,
    pub ghost name_in_range: { name < 64 },
}

impl Remake for Atom {
    fn remake(&self, _alloc: Global) -> M<Self> {
        Ok(*self)
    }
}
