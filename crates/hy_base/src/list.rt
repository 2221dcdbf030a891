ghost use Rattle.std.specs.Prelude.{◌≡◌, ◌+◌, ◌-◌, ◌<◌, ◌≤◌, [], ◌∷◌, ◌++◌, length, OnOk, OnErr, IfOk, slice_get, slice_set, take, drop, replicate, reverse, Some, None, IfSome, nat_eq};

use crate::memory::M;
use std::alloc::Global;
use std::marker::Model;
use std::mem;

/// A list of values, which contracts see as a list.
#[derive(Drop)]
pub struct List<T> {
    items: Vec<T>,
}

impl<T> Model for List<T> {
    ghost use Rattle.std.specs.Prelude.{List as Sequence};

    ghost Value = { Sequence T };

    ghost view = { λ l. l.items.items };
}

/// Bytes: a name, a file, a text to print.
pub type Text = List<u8>;

/// Numbers.
pub type NumList = List<u32>;

/// A value of which an equal one can be made.
pub trait Remake {
    /// An equal value. Memory is the only refusal.
    fn remake(&self, alloc: Global) -> M<Self>
        ensures { IfOk result (λ made. made ≡ self.now) };
}

impl Remake for u8 {
    fn remake(&self, _alloc: Global) -> M<Self> {
        Ok(*self)
    }
}

impl Remake for bool {
    fn remake(&self, _alloc: Global) -> M<Self> {
        Ok(*self)
    }
}

impl Remake for u32 {
    fn remake(&self, _alloc: Global) -> M<Self> {
        Ok(*self)
    }
}

impl Remake for i32 {
    fn remake(&self, _alloc: Global) -> M<Self> {
        Ok(*self)
    }
}

impl<T> List<T> {
    /// The empty list. Takes no memory.
    pub fn new(alloc: Global) -> Self
        ensures { result ≡ [] }
    {
        List {
            items: Vec::new(alloc),
        }
    }

    /// The values of a vector. Takes no memory.
    pub fn from_vec(items: Vec<T>) -> Self
        ensures { result ≡ items.items }
    {
        List { items }
    }

    /// How many values there are.
    pub fn len(&self) -> usize
        ensures { result ≡ length self.now }
    {
        self.items.len()
    }

    /// Whether there is no value.
    pub fn is_empty(&self) -> bool
        ensures { result ≡ nat_eq (length self.now) 0 }
    {
        self.items.is_empty()
    }

    /// The value at place `i`, counted from 0.
    pub fn at(&self, i: usize) -> &T
        requires { i < length self.now }
        ensures { slice_get self.now i ≡ Some result.now }
    {
        &self.items[i]
    }

    /// The values as a slice.
    pub fn as_slice(&self) -> &[T]
        ensures { result.now ≡ self.now }
    {
        self.items.as_slice()
    }

    /// Puts `x` at place `i`, counted from 0.
    pub fn set(&mut self, i: usize, x: T)
    where
        T: Drop,
        requires { i < length self.old }
        ensures { self.new ≡ slice_set self.old i x }
    {
        self.items[i] = x;
    }

    /// Puts `x` at place `i`, counted from 0, and gives the value that was there.
    pub fn replace(&mut self, i: usize, x: T) -> T
        requires { i < length self.old }
        ensures old { slice_get self.old i ≡ Some result }
        ensures new { self.new ≡ slice_set self.old i x }
    {
        mem::replace(&mut self.items[i], x)
    }

    /// Adds `x` last, in constant time but for growth. Refused for memory it changes nothing.
    pub fn push(&mut self, x: T) -> M<()>
    where
        T: Drop,
        ensures added { OnOk result (self.new ≡ self.old ++ x ∷ []) }
        ensures refused { OnErr result (self.new ≡ self.old) }
    {
        self.items.push(x)?;
        Ok(())
    }

    /// Takes the last value off, in constant time.
    pub fn pop(&mut self) -> Option<T>
    where
        T: Drop,
        ensures taken { IfSome result (λ x. self.old ≡ self.new ++ x ∷ []) }
        ensures none { result ≡ None → self.old ≡ [] }
    {
        self.items.pop()
    }

    /// Turns the order round, in time linear in the length.
    pub fn reverse(&mut self)
    where
        T: Drop,
        ensures { self.new ≡ reverse self.old }
    {
        self.items.reverse();
    }

    /// Puts the last `n` values before the others, in time linear in the list.
    pub fn rotate_right(&mut self, n: usize)
        requires { n ≤ length self.old }
        ensures { self.new ≡ drop (length self.old - n) self.old ++ take (length self.old - n) self.old }
    {
        self.items.rotate_right(n);
    }

    /// Keeps the first `n` values.
    pub fn truncate(&mut self, n: usize)
    where
        T: Drop,
        ensures { self.new ≡ take n self.old }
    {
        self.items.truncate(n);
    }
}

impl<T: Remake + Drop> Remake for List<T> {
    fn remake(&self, alloc: Global) -> M<Self> {
        self.copy(alloc)
    }
}

impl<T: Remake + Drop> List<T> {
    /// An equal list, in time linear in its length.
    pub fn copy(&self, alloc: Global) -> M<Self>
        ensures { IfOk result (λ made. made ≡ self.now) }
    {
        let mut made = List::new(alloc);
        for x in self.as_slice() {
            made.push(x.remake(alloc)?)?;
        }
        Ok(made)
    }
}

impl<T: Copy + Drop> List<T> {
    /// `n` times `x`, in time linear in `n`.
    pub fn filled(alloc: Global, x: T, n: usize) -> M<Self>
        ensures { IfOk result (λ made. made ≡ replicate n x) }
    {
        let mut made = List::new(alloc);
        for _copy in 0..n {
            made.push(x)?;
        }
        Ok(made)
    }
}

impl List<u8> {
    /// Adds `bytes` last, in time linear in them. Refused for memory it changes nothing.
    pub fn extend(&mut self, bytes: &[u8]) -> M<()>
        ensures added { OnOk result (self.new ≡ self.old ++ bytes.now) }
        ensures refused { OnErr result (self.new ≡ self.old) }
    {
        self.items.extend_from_slice(bytes)?;
        Ok(())
    }
}
