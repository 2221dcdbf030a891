//! New numbers for the variables of a text.

ghost use Rattle.std.specs.Prelude.{◌≡◌, ℕ, ◌+◌, ◌*◌, ◌/◌, ◌%◌, ◌≤◌, ◌^◌, nat_eq, length, slice_index, slice_index_or, IfOk};
ghost use Rattle.std.specs.List.{position_or_len};

use hy_base::{List, M, NumList};
use std::alloc::Global;

/// The place of each variable in a list, which is its new number; how long the list is for any that
/// is not in it.
#[derive(Drop)]
pub struct Numbering {
    /// For each variable up to the greatest.
    pub places: NumList,
    /// How long the list is.
    pub count: u32,
    pub ghost small: { (v : ℕ) → slice_index_or places v count ≤ 2 ^ 30 },
}

impl Numbering {
    ghost use Rattle.aiger_read.specs.Numbers.{numbered};

    /// Numbers the variables by their places in the list, in time linear in it and in the greatest.
    pub fn new(alloc: Global, variables: &[u32]) -> M<Self>
        requires { length variables.now ≤ 2 ^ 30 }
        ensures { IfOk result (λ made. (v : ℕ) →
            numbered made v ≡ position_or_len (nat_eq v) variables.now) }
    {
        let count = variables.len() as u32;
        let most = greatest(variables) as usize;
        let mut places = List::filled(alloc, count, most + 1)?;
        for i in 0..variables.len() {
            let place = variables.len() - 1 - i;
            places.set(variables[place] as usize, place as u32);
        }
        Ok(Numbering { places, count })
    }

    /// The literal with the new number of its variable.
    pub fn literal(&self, l: u32) -> u32
        ensures { result ≡ 2 * numbered self.now (l / 2) + l % 2 }
    {
        2 * self.place(l / 2) + l % 2
    }

    fn place(&self, v: u32) -> u32
        ensures place { result ≡ numbered self.now v }
        ensures small { result ≤ 2 ^ 30 }
    {
        if (v as usize) < self.places.len() {
            *self.places.at(v as usize)
        } else {
            self.count
        }
    }
}

/// The greatest of the numbers, 0 where there is none.
fn greatest(numbers: &[u32]) -> u32
    ensures { (i : ℕ) → slice_index numbers.now i ≤ result }
{
    let mut most = 0;
    for n in numbers {
        most = most.max(*n);
    }
    most
}
