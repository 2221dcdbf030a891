//! What the letters of one variable give of a code.

ghost use Rattle.std.specs.Prelude.{◌≡◌, length};

use crate::name_bit::NameBit;
use hy_base::{List, NumList};

/// How many names a letter's part is looked up by: the lowest ones.
pub const LOW_NAMES: u8 = 8;

/// Names of atoms of one variable.
pub type NameBits = List<NameBit>;

/// The parts of a code that the letters of one variable give.
#[derive(Drop)]
pub struct VariableParts {
    /// For each set of the names below `LOW_NAMES` its part, at the number whose bits they are.
    pub(crate) low: NumList,
    /// The other names of the variable's atoms.
    pub(crate) high: NameBits,
    pub ghost long: { length low ≡ 256 },
}
