ghost use Rattle.std.specs.Prelude.{◌≡◌, ◌↔◌, ◌≤◌, ◌<◌, [], length, slice_get, slice_index_or, Some, None, ◌++◌, ◌∷◌, IsTrue, IsErrOf, IfSome, IfOk, OnOk, OnErr, position};
ghost use Rattle.hy_formula.specs.Names.{place_of, with_name, are_distinct};
ghost use Rattle.hy_formula.specs.KeptNames.{is_named};
ghost use Rattle.hy_formula.specs.declared.name_table.NameError.TheVariants.{Memory as OutOfMemory};

use hy_base::{M, Memory};
use indexmap::IndexSet;
use std::alloc::Global;
use std::error::Error;
use std::fmt;
use std::marker::Model;

/// The most names that a table holds.
const MAX_NAMES: usize = 64;

/// Up to so many names are compared one by one: with one name that takes a third of the instructions
/// of a look by hash. From how many on a hash takes fewer was not measured.
const FEW_NAMES: usize = 8;

/// A name was not added.
#[derive(Clone, Copy, Debug, PartialEq, Eq)]
pub enum NameError {
    /// The name is new, and 64 names are there.
    Limit,
    Memory,
}

impl fmt::Display for NameError {
    fn fmt<W: fmt::Write>(&self, f: &mut fmt::Formatter<W>) -> fmt::Result {
        match self {
            NameError::Limit => write!(f, "more than {MAX_NAMES} names"),
            NameError::Memory => write!(f, "{Memory}"),
        }
    }
}

impl Error for NameError {}

impl From<Memory> for NameError {
    ghost from_gives = { λ _ e. e ≡ OutOfMemory };

    fn from(_e: Memory) -> NameError {
        NameError::Memory
    }
}

/// At most 64 distinct names, each known by its place, the first at 0. Contracts see them as a list
/// of names, and a name as a list of bytes.
#[derive(Drop)]
pub struct NameTable {
    names: IndexSet<Vec<u8>>,
}

impl Model for NameTable {
    ghost use Rattle.std.specs.Prelude.{ℕ, List, ◌≤◌, IsTrue, length};
    ghost use Rattle.hy_formula.specs.Names.{are_distinct};
    ghost use Rattle.hy_formula.specs.KeptNames.{kept_names};

    ghost Value = { List (List ℕ) };

    ghost view = { λ t. kept_names t.names.keys };

    ghost invariant = { λ t. IsTrue (are_distinct (kept_names t.names.keys)) × (length (kept_names t.names.keys) ≤ 64) };
}

impl NameTable {
    /// The table without names. Takes no memory.
    pub fn new(alloc: Global) -> M<NameTable>
        ensures { result ≡ Ok [] }
    {
        Ok(NameTable {
            names: IndexSet::new(alloc),
        })
    }

    /// How many names there are: at most 64.
    pub fn len(&self) -> usize
        ensures len { result ≡ length self.now }
        ensures few { length self.now ≤ 64 }
        ensures distinct { IsTrue (are_distinct self.now) }
    {
        self.names.len()
    }

    /// The place of `name`, or `None` where it is not there. In time linear in the name.
    pub fn find(&self, name: &[u8]) -> Option<u8>
        ensures place { result ≡ place_of name.now self.now }
        ensures within { IfSome result (λ k. k < 64) }
    {
        let place = self.place(name)?;
        Some(place as u8)
    }

    /// As `find`. Few names are looked at one after another.
    fn place(&self, name: &[u8]) -> Option<usize>
        ensures place { result ≡ place_of name.now self.now }
        ensures within { IfSome result (λ k. k < 64) }
    {
        let names = self.names.as_slice();
        if names.len() <= FEW_NAMES {
            return place_in(names, name);
        }
        self.names.get_index_of(name)
    }

    /// The name at place `i`.
    pub fn at(&self, i: u8) -> &[u8]
        requires { i < length self.now }
        ensures { slice_get self.now i ≡ Some result.now }
    {
        self.names.as_slice()[i as usize].as_slice()
    }

    /// The name of this number, the first being 0; no bytes where the table has no more than so many
    /// names.
    pub fn text(&self, number: u8) -> &[u8]
        ensures { result.now ≡ slice_index_or self.now number [] }
    {
        if usize::from(number) < self.len() {
            self.at(number)
        } else {
            &[]
        }
    }

    /// The place of `name`, which is added last where it is not there. In time linear in the name,
    /// but for growth.
    pub fn add(&mut self, alloc: Global, name: &[u8]) -> Result<u8, NameError>
        ensures added { OnOk result (self.new ≡ with_name name.now self.old) }
        ensures place { IfOk result (λ k. place_of name.now self.new ≡ Some k) }
        ensures within { IfOk result (λ k. k < 64) }
        ensures limit { IsErrOf result NameError.Limit ↔ ((place_of name.now self.old ≡ None) × (length self.old ≡ 64)) }
        ensures refused { OnErr result (self.new ≡ self.old) }
        ensures few { length self.new ≤ 64 }
        ensures distinct { IsTrue (are_distinct self.new) }
    {
        let place = self.len();
        if let Some(known) = self.find(name) {
            return Ok(known);
        }
        if place == MAX_NAMES {
            return Err(NameError::Limit);
        }
        self.push(alloc, name)?;
        Ok(place as u8)
    }

    /// Adds a name that is new. Refused for memory it changes nothing.
    fn push(&mut self, alloc: Global, name: &[u8]) -> M<()>
        requires new { place_of name.now self.old ≡ None }
        requires room { length self.old < 64 }
        ensures added { OnOk result (self.new ≡ self.old ++ name.now ∷ []) }
        ensures refused { OnErr result (self.new ≡ self.old) }
    {
        let mut owned = Vec::new(alloc);
        owned.extend_from_slice(name)?;
        self.names.insert(owned)?;
        Ok(())
    }
}

/// The place of the first of the names that is this one, in time linear in the names.
fn place_in(names: &[Vec<u8>], name: &[u8]) -> Option<usize>
    ensures place { result ≡ position (is_named name.now) names.now }
    ensures within { IfSome result (λ k. k < length names.now) }
{
    names.iter().position(|held| held.as_slice() == name)
}
