//! The part of a code that one letter gives.

ghost use Rattle.std.specs.Prelude.{◌≡◌, ◌<◌, ◌+◌, ◌^◌, cond};
ghost use Rattle.std.specs.FinSet.{contains};
ghost use Rattle.fin_monitor.specs.Parts.{bits_of, low_number, part_in};

use crate::name_bit::NameBit;
use crate::variable_parts::{LOW_NAMES, VariableParts};
use hy_bits::LetterMask;

impl VariableParts {
    /// The part of a letter. In time linear in the names from `LOW_NAMES` on.
    #[inline(always)]
    pub fn of(&self, letter: LetterMask) -> u32
        requires { part_in self.now letter < 65536 }
        ensures { result ≡ part_in self.now letter }
    {
        let low = *self.low.at(low_number(letter) as usize);
        if self.high.is_empty() {
            return low;
        }
        low + bits_in(self.high.as_slice(), letter)
    }
}

/// The number whose bits are the names of a letter below `LOW_NAMES`.
#[inline(always)]
fn low_number(letter: LetterMask) -> u32
    ensures number { result ≡ low_number 8 letter }
    ensures within { result < 256 }
{
    let mut number = 0;
    for k in 0..LOW_NAMES {
        number = with_name(number, letter, &NameBit { name: k, place: k });
    }
    number
}

/// The sum of the bits of the names that a letter has. In time linear in the names. It stays out of
/// the loops over letters, which seldom need it.
#[inline(never)]
pub fn bits_in(names: &[NameBit], letter: LetterMask) -> u32
    requires { bits_of names.now letter < 65536 }
    ensures { result ≡ bits_of names.now letter }
{
    let mut bits = 0;
    for n in names {
        bits = with_name(bits, letter, n);
    }
    bits
}

/// The bits, and that of a name besides, if the letter has it. No branch depends on the letter.
#[inline(always)]
fn with_name(bits: u32, letter: LetterMask, n: &NameBit) -> u32
    requires { bits + cond (contains letter n.now.name) (2 ^ n.now.place) 0 < 65536 }
    ensures { result ≡ bits + cond (contains letter n.now.name) (2 ^ n.now.place) 0 }
{
    bits + (u32::from(letter.has(n.name as usize)) << n.place)
}
