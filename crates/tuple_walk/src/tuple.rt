//! Tuples of traces by number.

ghost use Rattle.std.specs.Prelude.{◌≡◌, ◌≤◌, length, take};

use smallvec::SmallVec;
use std::alloc::Global;
use std::marker::Model;

/// Trace numbers, one for each variable, which contracts see as a list: at most four. It takes no
/// memory.
#[derive(Drop)]
pub struct Tuple {
    numbers: SmallVec<u32, 4>,
}

impl Model for Tuple {
    ghost use Rattle.std.specs.Prelude.{ℕ, List};

    ghost Value = { List ℕ };

    ghost view = { λ t. t.numbers.items };
}

impl Tuple {
    /// The first `count` of the numbers: at most four.
    pub fn new(alloc: Global, numbers: [u32; 4], count: usize) -> Tuple
        requires { count ≤ 4 }
        ensures { result ≡ take count numbers }
    {
        Tuple {
            numbers: SmallVec::from_buf_and_len(alloc, numbers, count),
        }
    }

    /// The numbers, that of the first variable first.
    pub fn as_slice(&self) -> &[u32]
        ensures { result.now ≡ self.now }
    {
        self.numbers.as_slice()
    }
}
