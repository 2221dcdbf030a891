//! For each literal a list of numbers.

ghost use Rattle.std.specs.Prelude.{◌≡◌, ◌+◌, ◌-◌, ◌*◌, ◌<◌, ◌^◌, ◌∷◌, ◌++◌, [], unsigned_abs, length, replicate, take, slice_index_or, slice_set, IfOk, OnOk};
ghost use Rattle.sat_core.specs.Lists.{place_of};

use chain_check::Literal;
use hy_base::{M, NumList};
use std::alloc::Global;
use std::marker::Model;
use std::mem;

/// For each literal a list of numbers.
#[derive(Drop)]
pub struct Lists {
    lists: Vec<NumList>,
}

impl Model for Lists {
    ghost use Rattle.std.specs.Prelude.{ℕ, List};

    ghost Value = { List (List ℕ) };

    ghost view = { λ l. l.lists.items };
}

impl Lists {
    /// Empty lists for the literals of as many variables.
    pub fn new(alloc: Global, variables: usize) -> M<Lists>
        requires { variables < 2 ^ 31 }
        ensures { IfOk result (λ lists. lists ≡ replicate (2 * variables + 2) []) }
    {
        let mut lists = Vec::new(alloc);
        for _place in 0..2 * variables + 2 {
            lists.push(NumList::new(alloc))?;
        }
        Ok(Lists { lists })
    }

    /// Adds a number last to the list of `l`.
    pub fn push(&mut self, l: Literal, number: u32) -> M<()>
        requires few { unsigned_abs l < 2 ^ 31 }
        requires inside { place_of l < length self.old }
        ensures { OnOk result (self.new ≡ slice_set self.old (place_of l)
            (slice_index_or self.old (place_of l) [] ++ number ∷ [])) }
    {
        self.lists[place_of(l)].push(number)
    }

    /// Takes the list of `l` out.
    pub fn take(&mut self, alloc: Global, l: Literal) -> NumList
        requires few { unsigned_abs l < 2 ^ 31 }
        requires inside { place_of l < length self.old }
        ensures taken { result ≡ slice_index_or self.old (place_of l) [] }
        ensures left { self.new ≡ slice_set self.old (place_of l) [] }
    {
        mem::replace(&mut self.lists[place_of(l)], NumList::new(alloc))
    }

    /// Makes `list` the list of `l`.
    pub fn put(&mut self, l: Literal, list: NumList)
        requires few { unsigned_abs l < 2 ^ 31 }
        requires inside { place_of l < length self.old }
        ensures { self.new ≡ slice_set self.old (place_of l) list }
    {
        self.lists[place_of(l)] = list;
    }
}

/// The place of a literal among all.
fn place_of(l: Literal) -> usize
    requires { unsigned_abs l < 2 ^ 31 }
    ensures { result ≡ place_of l }
{
    let place = 2 * l.variable();
    if l.number() < 0 { place + 1 } else { place }
}

/// Lets the number at place `i` go; the last one takes its place.
pub fn remove_at(list: &mut NumList, i: usize)
    requires { i < length list.old }
    ensures { list.new ≡ take (length list.old - 1)
        (slice_set list.old i (slice_index_or list.old (length list.old - 1) 0)) }
{
    let last = list.len() - 1;
    let number = *list.at(last);
    list.set(i, number);
    list.truncate(last);
}
