//! Finite traces.

ghost use Rattle.std.specs.Prelude.{◌≡◌, ◌<◌, ◌≤◌, length, slice_get, slice_index_or, Some, None, IfSome, IfNone, ◌⊎◌};
ghost use Rattle.std.specs.FinSet.{empty};

use hy_base::{List, M, Remake};
use hy_bits::{LetterMask, Letters};
use std::alloc::Global;
use std::marker::Model;

/// Most letters of a trace.
pub const MOST_LETTERS: usize = 1024;

/// A finite trace: 1 to 1,024 letters, which contracts see as a list.
#[derive(Drop)]
pub struct Trace {
    letters: Letters,
}

impl Model for Trace {
    ghost use Rattle.std.specs.Prelude.{List, ◌≤◌, length};
    ghost use Rattle.std.specs.Coded.{coded_ℕ, coded_list};
    ghost use Rattle.std.specs.FinSet as set;
    ghost use Rattle.hy_bits.specs.Letter.{Letter};

    ghost Value = { List Letter };

    ghost coded = { coded_list (set.code coded_ℕ) };

    ghost view = { λ t. t.letters };

    ghost invariant = { λ t. (1 ≤ length t.letters) × (length t.letters ≤ 1024) };
}

impl Remake for Trace {
    fn remake(&self, alloc: Global) -> M<Self> {
        let letters = &self.letters;
        Ok(Trace {
            letters: letters.copy(alloc)?,
        })
    }
}

/// Traces, in the order of their arrival.
pub type TraceList = List<Trace>;

impl Trace {
    /// The trace of these letters. `None` exactly where there is no letter or more than 1,024.
    pub fn new(letters: Letters) -> Option<Trace>
        ensures made { IfSome result (λ t. t ≡ letters) }
        ensures short { IfSome result (λ t. (1 ≤ length letters) × (length letters ≤ 1024)) }
        ensures refused { IfNone result ((length letters ≡ 0) ⊎ (1024 < length letters)) }
    {
        if letters.is_empty() || letters.len() > MOST_LETTERS {
            return None;
        }
        Some(Trace { letters })
    }

    /// How many letters there are: 1 to 1,024.
    pub fn len(&self) -> usize
        ensures len { result ≡ length self.now }
        ensures some { 1 ≤ result }
        ensures few { result ≤ 1024 }
    {
        let letters = &self.letters;
        letters.len()
    }

    /// The letter at place `i`, counted from 0.
    pub fn at(&self, i: usize) -> LetterMask
        requires { i < length self.now }
        ensures { slice_get self.now i ≡ Some result }
    {
        *self.letters.at(i)
    }

    /// The letter at place `i`; past the end the empty one.
    pub fn letter_at(&self, i: usize) -> LetterMask
        ensures { result ≡ slice_index_or self.now i empty }
    {
        let letters = &self.letters;
        if i < letters.len() {
            *letters.at(i)
        } else {
            LetterMask::empty()
        }
    }

    /// The letters, as a list of their own.
    pub fn into_letters(self) -> Letters
        ensures { result ≡ self }
    {
        let Trace { letters } = self;
        letters
    }

    /// The letters as a slice.
    pub fn as_slice(&self) -> &[LetterMask]
        ensures { result.now ≡ self.now }
    {
        self.letters.as_slice()
    }
}
