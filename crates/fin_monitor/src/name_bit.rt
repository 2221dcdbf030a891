//! A name with its bit.

ghost use Rattle.std.specs.Prelude.{◌<◌};

/// A name that an atom asks, and the place of the bit of a code that says whether it is there.
#[derive(Clone, Copy)]
pub struct NameBit {
    pub name: u8,
    pub place: u8,
    pub ghost name_in_range: { name < 64 },
    pub ghost place_in_range: { place < 16 },
}
