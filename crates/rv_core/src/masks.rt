//! What a spec sees of traces.

ghost use Rattle.std.specs.Prelude.{◌≡◌, ◌↔◌, IfOk, IsTrue};
ghost use Rattle.trace_trie.specs.Numbered.{IsHeld};
ghost use Rattle.rv_core.specs.Held.{spec_of};
ghost use Rattle.rv_core.specs.Masks.{masked, masked_letter};

use crate::watch::Watch;
use hy_base::M;
use hy_bits::{LetterMask, Letters};
use hy_finite::Trace;
use std::alloc::Global;
use trace_trie::Version;

impl Watch {
    ghost use Rattle.rv_core.specs.Seen.{watched};

    /// The names of a letter that stand in the body.
    fn masked_letter(&self, letter: LetterMask) -> LetterMask
        ensures { result ≡ masked_letter (spec_of (watched self.now)) letter }
    {
        self.names.of_letter(letter)
    }

    /// Whether a trace is as it is where no other names than those of the body are left of it.
    pub(crate) fn sees_all(&self, trace: &[LetterMask]) -> bool
        ensures { IsTrue result → masked (spec_of (watched self.now)) trace.now ≡ trace.now }
    {
        for letter in trace {
            if !self.names.have(*letter) {
                return false;
            }
        }
        true
    }

    /// A trace with the names alone that stand in the body. In time as `Names::of_letter` for each
    /// letter.
    pub(crate) fn masked(&self, alloc: Global, trace: &Trace) -> M<Trace>
        ensures { IfOk result (λ made. made ≡ masked (spec_of (watched self.now)) trace.now) }
    {
        let mut letters = Letters::from_vec(Vec::with_capacity(alloc, trace.len())?);
        let whole = trace.as_slice();
        for letter in whole {
            letters.push(self.masked_letter(*letter))?;
        }
        Ok(Trace::new(letters).unwrap())
    }

    /// Whether some trace of the version is this one with the names alone that stand in the body.
    /// Takes no memory, and for each letter at most 64 steps and the time of `Names::of_letter`.
    pub(crate) fn holds(&self, kept: &Version, trace: &[LetterMask]) -> bool
        ensures { IsTrue result ↔ IsHeld (masked (spec_of (watched self.now)) trace.now) kept.now }
    {
        let mut cursor = kept.root();
        for letter in trace {
            match cursor.child_of(self.masked_letter(*letter)) {
                Some(child) => cursor = child,
                None => return false,
            }
        }
        cursor.first().is_some()
    }
}
