//! Children of a node with one trace more, put in in place.

ghost use Rattle.std.specs.Prelude.{◌≡◌, ◌+◌, ◌<◌, ◌≤◌, ◌^◌, length, drop, IfOk, OnOk, OnErr};
ghost use Rattle.hy_formula.specs.Quantifiers.{Each};
ghost use Rattle.trace_trie.specs.Numbered.{Numbered};
ghost use Rattle.trace_trie.specs.Kids.{AreKids, IsMore, spread};

use crate::forest::{Branch, Forest};
use crate::letters::same;
use crate::node::Node;
use hy_base::{M, Memory};
use hy_finite::Trace;
use std::alloc::{AllocError, Global};
use std::rc::Rc;

impl Clone for Forest {
    ghost is_clone = { λ f copy. copy ≡ f };

    /// Equal children that share their nodes, in constant time.
    fn clone(&self) -> Result<Forest, AllocError> {
        match self.share() {
            Ok(copy) => Ok(copy),
            Err(_) => Err(AllocError),
        }
    }
}

impl Forest {
    /// Puts in what is left of a trace from place `at` on. Its number is above all. In time and
    /// memory linear in how much of it another trace has too; what another version shares is copied
    /// first. Refused, for memory or from 2^64 - 2 children on, it changes nothing.
    pub(crate) fn plant(
        &mut self,
        alloc: Global,
        number: u32,
        trace: &Rc<Trace>,
        at: usize,
    ) -> M<()>
        requires within { at < length trace.now.value }
        requires above { Each (λ (p : Numbered). p.0 < number) (spread self.old) }
        ensures planted { OnOk result
            (IsMore (number, drop at trace.now.value) (spread self.old) (spread self.new)) }
        ensures few { length self.new ≤ length self.old + 1 }
        ensures unchanged { OnErr result (self.new ≡ self.old) }
    {
        let end = trace.len();
        let letter = trace.at(at);
        match &mut self.tree {
            Branch::Fork(name, count, first, second) => {
                if *count >= usize::MAX - 1 {
                    return Err(Memory);
                }
                if letter.has(*name) {
                    Rc::make_mut(second)?.plant(alloc, number, trace, at)?;
                    *count = counted(first, second);
                    return Ok(());
                }
                Rc::make_mut(first)?.plant(alloc, number, trace, at)?;
                *count = counted(first, second);
                Ok(())
            }
            Branch::Child(held, ends, children) if same(letter, *held) => {
                if at + 1 == end {
                    ends.add(alloc, number, trace)?;
                    return Ok(());
                }
                Rc::make_mut(children)?.plant(alloc, number, trace, at + 1)
            }
            _ => {
                *self = self.with(alloc, number, trace, at)?;
                Ok(())
            }
        }
    }

    /// The children with what is left of a trace from place `at` on. Its number is above all. In
    /// time and memory linear in how much of it another trace has too.
    fn with(&self, alloc: Global, number: u32, trace: &Rc<Trace>, at: usize) -> M<Forest>
        requires within { at < length trace.now.value }
        requires above { Each (λ (p : Numbered). p.0 < number) (spread self.now) }
        ensures planted { IfOk result (λ made.
            IsMore (number, drop at trace.now.value) (spread self.now) (spread made)) }
        ensures few { IfOk result (λ made. length made ≤ length self.now + 1) }
    {
        let end = trace.len();
        let letter = trace.at(at);
        match self.get(letter) {
            None => {
                let tail = Forest::tail(number, trace.clone()?, at);
                self.put(alloc, letter, tail)
            }
            Some(grown) => {
                let Node { mut ends, children } = Node::behind(grown)?;
                if at + 1 == end {
                    ends.add(alloc, number, trace)?;
                    self.swap(alloc, letter, ends, children)
                } else {
                    let children = children.with(alloc, number, trace, at + 1)?;
                    self.swap(alloc, letter, ends, children)
                }
            }
        }
    }
}

/// How many children two lists have. There is room for one more. Takes no memory.
fn counted(first: &Forest, second: &Forest) -> usize
    requires { length first.now + length second.now + 1 < 2 ^ 64 }
    ensures fits { result + 1 < 2 ^ 64 }
    ensures sum { result ≡ length first.now + length second.now }
    ensures first { AreKids first.now }
    ensures second { AreKids second.now }
{
    first.kids_differ();
    second.kids_differ();
    first.len() + second.len()
}
