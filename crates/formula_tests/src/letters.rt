//! Letters of one name, and traces of letters.

ghost use Rattle.std.specs.Prelude.{◌<◌};

use hy_base::List;
use hy_bits::LetterMask;
use hy_finite::Trace;
use std::alloc::Global;
use std::test::Fail;

/// The letter of one name.
pub(crate) fn letter_of(name: usize) -> LetterMask
    requires { name < 64 }
{
    LetterMask::empty().with(name)
}

/// The trace of these letters.
pub(crate) fn trace_of(alloc: Global, letters: &[LetterMask]) -> Result<Trace, Fail> {
    let mut list = List::new(alloc);
    for letter in letters {
        list.push(*letter)?;
    }
    Ok(Trace::new(list).ok_or("no trace")?)
}
