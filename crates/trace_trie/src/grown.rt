//! What stands behind a letter.

ghost use Rattle.std.specs.Prelude.{◌≡◌, drop};

use crate::forest::Forest;
use crate::numbers::Numbers;
use hy_bits::LetterMask;
use hy_finite::Trace;
use std::rc::Rc;

/// What stands behind a letter.
#[derive(Clone, Copy)]
pub(crate) enum Grown<'a> {
    /// A node: the numbers of the traces that end there, and its children.
    Node(&'a Numbers, &'a Forest),
    /// The trace with this number alone, from this place on.
    Tail(u32, &'a Rc<Trace>, usize),
}

/// What is left of a trace from a place on; past its end nothing. Takes no memory, and constant
/// time.
pub(crate) fn left(trace: &Trace, at: usize) -> &[LetterMask]
    ensures { result.now ≡ drop at trace.now }
{
    let letters = trace.as_slice();
    if at <= letters.len() {
        &letters[at..]
    } else {
        &[]
    }
}
