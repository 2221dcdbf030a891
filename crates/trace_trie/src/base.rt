//! Traces that were put together: by number, and as a trie.

ghost use Rattle.std.specs.Prelude.{◌≡◌, List, [], ◌∷◌, ◌++◌, Some, None, IfOk, IfSome, IfNone, OnOk, OnErr};
ghost use Rattle.hy_formula.specs.Quantifiers.{Each};
ghost use Rattle.trace_trie.specs.Numbered.{Numbered, rest_from, with_number, without_number};
ghost use Rattle.trace_trie.specs.Cursors.{left_waiting, rests_at};
ghost use Rattle.trace_trie.specs.Newests.{waiting, IsLast};

use crate::cursor::Cursor;
use crate::newest::Newest;
use crate::node::{Node, uprooted};
use crate::numbers::Numbers;
use hy_base::M;
use hy_bits::LetterMask;
use hy_finite::Trace;
use std::alloc::{AllocError, Global};
use std::marker::Model;

/// Traces with their numbers, which ascend; contracts see the list of these pairs. The trie has them
/// all; of those by number the last may wait, so that one is put in whole or not at all.
#[derive(Drop)]
pub(crate) struct Base {
    numbers: Numbers,
    last: Option<Newest>,
    node: Node,
}

impl Model for Base {
    ghost use Rattle.std.specs.Prelude.{ℕ, List, ◌++◌};
    ghost use Rattle.std.specs.Coded.{coded_ℕ, coded_list, coded×};
    ghost use Rattle.std.specs.FinSet as set;
    ghost use Rattle.hy_bits.specs.Letter.{Letter};
    ghost use Rattle.trace_trie.specs.Bases.{IsBase};
    ghost use Rattle.trace_trie.specs.Forests.{passing};
    ghost use Rattle.trace_trie.specs.Newests.{waiting};

    ghost Value = { List (ℕ × List Letter) };

    ghost coded = { coded_list (coded× coded_ℕ (coded_list (set.code coded_ℕ))) };

    ghost view = { λ b. b.numbers ++ waiting b.last };

    ghost invariant = { λ b. IsBase b.numbers b.last (passing b.node.ends b.node.children) };
}

impl Base {
    /// No trace.
    pub(crate) fn new() -> Base
        ensures { result ≡ [] }
    {
        Base {
            numbers: Numbers::new(),
            last: None,
            node: Node::new(),
        }
    }

    /// Equal traces that share their nodes, in constant time. Takes memory where they are a bucket.
    fn share(&self) -> M<Base>
        ensures { IfOk result (λ made. made ≡ self.now) }
    {
        let numbers = self.numbers.share()?;
        let last = Newest::share(&self.last)?;
        let node = self.node.share()?;
        Ok(Base {
            numbers,
            last,
            node,
        })
    }

    /// The trace with the number, where there is one. Takes no memory.
    pub(crate) fn get(&self, number: u32) -> Option<&Trace>
        ensures some { IfSome result (λ t. with_number number self.now ≡ Some t.now) }
        ensures none { IfNone result (with_number number self.now ≡ None) }
    {
        match self.numbers.get(number) {
            Some(trace) => Some(trace),
            None => Newest::get(&self.last, number),
        }
    }

    /// The trace with the least number from `from` on, with its number. Takes no memory.
    pub(crate) fn next(&self, from: u32) -> Option<(u32, &Trace)>
        ensures some { IfSome result (λ p. (more : List Numbered)
            × (rest_from from self.now ≡ (p.0, p.1.now) ∷ more)) }
        ensures none { IfNone result (rest_from from self.now ≡ []) }
    {
        match self.numbers.next(from) {
            Some(found) => Some(found),
            None => Newest::next(&self.last, from),
        }
    }

    /// The traces without that of a number, which is this one. In time and memory linear in its
    /// letters, at most 64 times as much, and logarithmic in the number of traces.
    pub(crate) fn without(&self, alloc: Global, number: u32, trace: &Trace) -> M<Base>
        requires { Each (λ (p : Numbered). p.0 ≡ number → p.1 ≡ trace.now) self.now }
        ensures { IfOk result (λ made. made ≡ without_number number self.now) }
    {
        let numbers = self.numbers.without(alloc, number)?;
        let last = Newest::without(&self.last, number)?;
        let node = uprooted(alloc, self.node.share()?, number, trace, 0)?;
        Ok(Base {
            numbers,
            last,
            node,
        })
    }

    /// Puts in a trace more, where one waits. In time and memory as `Node::plant` and
    /// `Numbers::add`. Refused it changes nothing.
    pub(crate) fn take_in(&mut self, alloc: Global, newest: &Option<Newest>) -> M<()>
        requires { IsLast newest.now self.old }
        ensures taken { OnOk result (self.new ≡ self.old ++ waiting newest.now) }
        ensures unchanged { OnErr result (self.new ≡ self.old) }
    {
        let last = Newest::share(newest)?;
        put(&mut self.numbers, alloc, &self.last)?;
        self.last = None;
        self.node.take_in(alloc, newest)?;
        self.last = last;
        Ok(())
    }

    /// The node that all pass, and one more that waits beside them. Takes no memory.
    pub(crate) fn root<'a>(&'a self, newest: Option<(u32, &'a [LetterMask])>) -> Cursor<'a>
        ensures { rests_at result ≡ self.now ++ left_waiting newest.entry }
    {
        Cursor::of(&self.node.ends, &self.node.children, newest)
    }
}

impl Clone for Base {
    ghost is_clone = { λ b copy. copy ≡ b };

    /// As `share`.
    fn clone(&self) -> Result<Base, AllocError> {
        match self.share() {
            Ok(copy) => Ok(copy),
            Err(_) => Err(AllocError),
        }
    }
}

/// Puts the trace that waits, where there is one, with the others. Refused it changes nothing.
fn put(numbers: &mut Numbers, alloc: Global, newest: &Option<Newest>) -> M<()>
    requires { IsLast newest.now numbers.old }
    ensures added { OnOk result (numbers.new ≡ numbers.old ++ waiting newest.now) }
    ensures unchanged { OnErr result (numbers.new ≡ numbers.old) }
{
    match newest {
        None => Ok(()),
        Some(newest) => numbers.add(alloc, newest.number, &newest.trace),
    }
}
