//! The generator of letters and traces.

ghost use Rattle.std.specs.Prelude.{◌≡◌, ◌+◌, ◌<◌, ◌≤◌, ◌^◌, ℕ, suc, List, IfOk, OnOk};
ghost use Rattle.hy_text.specs.Sets.{with_member};

use hy_base::M;
use hy_bits::{LetterMask, Letters};
use hy_finite::Trace;
use hy_formula::NameTable;
use std::alloc::Global;

/// The number with which the sequence starts.
const SEED: u64 = 1;
/// What the next number is made by: times the factor and plus the summand, below the modulus.
const FACTOR: u64 = 1_103_515_245;

const SUMMAND: u64 = 12_345;

const MODULUS: u64 = 2_147_483_648;
/// Of the number without its lower sixteen bits the lowest bit decides the letter.
const LOWER_BITS: u64 = 65_536;

/// Makes letters, one after another, for a table of names.
#[derive(Drop)]
pub struct Generator {
    /// The number that gave the last letter, or the seed.
    last: u64,
    /// The letter of both signals, as far as the table names them.
    both: LetterMask,
    ghost small: { last < 2 ^ 31 },
}

impl Generator {
    ghost use Rattle.made_traces.specs.MadeTraces.{letter_by, letters_from, number};
    ghost use Rattle.made_traces.specs.Progress.{HasMade};

    /// The generator that has made no letter. Names that the table lacks are passed over.
    pub fn new(names: &NameTable) -> Generator
        ensures { HasMade names.now 0 result }
    {
        let none = LetterMask::empty();
        Generator {
            last: SEED,
            both: with_name(with_name(none, b"i", names), b"o", names),
        }
    }

    /// The next letter, in constant time.
    fn next(&mut self) -> LetterMask
        ensures letter { (table : List (List ℕ)) (k : ℕ) → HasMade table k self.old
            → result ≡ letter_by table (number (suc k)) }
        ensures made { (table : List (List ℕ)) (k : ℕ) → HasMade table k self.old
            → HasMade table (suc k) self.new }
    {
        self.last = (self.last * FACTOR + SUMMAND) % MODULUS;
        if self.last / LOWER_BITS % 2 == 1 {
            self.both
        } else {
            LetterMask::empty()
        }
    }

    /// The trace of the next letters, 1 to 4 of them.
    pub fn next_trace(&mut self, alloc: Global, length: usize) -> M<Trace>
        requires some { 1 ≤ length }
        requires few { length ≤ 4 }
        ensures trace { IfOk result (λ trace. (table : List (List ℕ)) (k : ℕ)
            → HasMade table k self.old → trace ≡ letters_from table k length) }
        ensures made { OnOk result ((table : List (List ℕ)) (k : ℕ) → HasMade table k self.old
            → HasMade table (k + length) self.new) }
    {
        let mut letters = Letters::new(alloc);
        for _letter in 0..length {
            letters.push(self.next())?;
        }
        let Some(trace) = Trace::new(letters) else {
            unreachable!()
        };
        Ok(trace)
    }
}

/// The letter with the number of a name, where the table has it.
fn with_name(letter: LetterMask, name: &[u8], names: &NameTable) -> LetterMask
    ensures { result ≡ with_member names.now letter name.now }
{
    match names.find(name) {
        Some(number) => letter.with(number as usize),
        None => letter,
    }
}
