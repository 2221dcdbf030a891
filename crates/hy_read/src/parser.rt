ghost use Rattle.std.specs.Prelude.{◌≤◌, length};

use hy_formula::NameTable;
use std::alloc::Global;

/// What the parser reads, and what the atoms mean.
#[derive(Drop)]
pub struct Parser<'a> {
    pub alloc: Global,
    pub text: &'a [u8],
    /// The variables of the quantifiers.
    pub variables: &'a [&'a [u8]],
    /// The numbers of the names; without them each atom is read as `true`, which leaves the heights.
    pub names: Option<&'a NameTable>,
    pub ghost few: { length variables.now ≤ 8 },
}
