//! The trace of a number, which no program asks for.

use crate::letters::trace_of;
use hy_bits::LetterMask;
use std::alloc::Global;
use std::test::Fail;
use trace_trie::Version;

/// Whether the trace that is put into an empty version has its letters there.
fn is_kept(alloc: Global, number: u32, letters: &[LetterMask]) -> Result<bool, Fail> {
    let version = Version::new(alloc)?.insert(number, &trace_of(alloc, letters)?)?;
    match version.trace(number)? {
        Some(trace) => Ok(trace.as_slice() == letters),
        None => Ok(false),
    }
}

#[test]
fn traces_by_number(rt: HostRuntime) -> Result<(), Fail> {
    let none = LetterMask::empty();
    assert!(rt; is_kept(rt.alloc(), 7, &[none.with(0), none])?);
    Ok(())
}
