//! Traces by number, in versions that share their nodes.

ghost use Rattle.std.specs.Prelude.{◌≡◌, ◌≢◌, ℕ, ◌<◌, ◌≤◌, List, [], ◌∷◌, ◌++◌, length, IfOk, IfSome, IfNone, OnOk, OnErr, Some, None, nat_eq};
ghost use Rattle.hy_formula.specs.Quantifiers.{Each};
ghost use Rattle.trace_trie.specs.Numbered.{Numbered, first_number, rest_from, with_number, without_number};

use crate::bucket::{Bucket, MOST_IN_BUCKET};
use hy_base::M;
use hy_finite::Trace;
use std::alloc::{AllocError, Global};
use std::marker::Model;
use std::rc::Rc;

/// Traces with their numbers, which ascend. Contracts see it as the list of these pairs.
#[cycle(numbers)]
#[derive(Drop)]
pub(crate) struct Numbers {
    tree: NumberTree,
}

/// Traces by number.
#[cycle(numbers)]
#[derive(Drop)]
enum NumberTree {
    Nothing,
    One(u32, Rc<Trace>),
    /// At least one trace.
    Few(Bucket),
    /// The numbers of the first part are below the split, and those of the second are not. The
    /// count is about how many there are.
    Two(u32, u32, Rc<Numbers>, Rc<Numbers>),
}

impl Model for Numbers {
    ghost use Rattle.std.specs.Prelude.{ℕ, List, length};
    ghost use Rattle.std.specs.Coded.{coded_ℕ, coded_list, coded×};
    ghost use Rattle.std.specs.FinSet as set;
    ghost use Rattle.hy_bits.specs.Letter.{Letter};

    ghost Value = { List (ℕ × List Letter) };

    ghost coded = { coded_list (coded× coded_ℕ (coded_list (set.code coded_ℕ))) };

    ghost use Rattle.trace_trie.specs.NumberTrees.{pairs, IsSplit};

    ghost view = { λ a. pairs a.tree };

    ghost invariant = { λ a. IsSplit a.tree };

    ghost size = { length };

    ghost use Rattle.trace_trie.specs.NumberTreesFall.{depth_le-length-pairs};

    ghost size_decreases = { λ a h. depth_le-length-pairs a.tree h };
}

impl Numbers {
    /// No trace.
    pub(crate) fn new() -> Numbers
        ensures { result ≡ [] }
    {
        Numbers {
            tree: NumberTree::Nothing,
        }
    }

    /// An equal list that shares its nodes, in constant time; at most 16 traces are copied, which
    /// takes memory.
    pub(crate) fn share(&self) -> M<Numbers>
        ensures { IfOk result (λ made. made ≡ self.now) }
    {
        let tree = match &self.tree {
            NumberTree::Nothing => NumberTree::Nothing,
            NumberTree::One(number, trace) => NumberTree::One(*number, trace.clone()?),
            NumberTree::Few(bucket) => NumberTree::Few(bucket.share()?),
            NumberTree::Two(split, count, first, second) => {
                NumberTree::Two(*split, *count, first.clone()?, second.clone()?)
            }
        };
        Ok(Numbers { tree })
    }

    /// One trace.
    pub(crate) fn one(number: u32, trace: Rc<Trace>) -> Numbers
        ensures { result ≡ (number, trace.value) ∷ [] }
    {
        Numbers {
            tree: NumberTree::One(number, trace),
        }
    }

    /// The trace with its number, where there is one and no other. Takes no memory, and constant
    /// time.
    pub(crate) fn only(&self) -> Option<(u32, &Rc<Trace>)>
        ensures some { IfSome result (λ p. self.now ≡ (p.0, p.1.now.value) ∷ []) }
        ensures none { IfNone result (length self.now ≢ 1) }
    {
        match &self.tree {
            NumberTree::Nothing => None,
            NumberTree::One(number, trace) => Some((*number, trace)),
            NumberTree::Few(bucket) => bucket.only(),
            NumberTree::Two(_, _, _, _) => None,
        }
    }

    /// The least number. Takes no memory.
    pub(crate) fn first(&self) -> Option<u32>
        ensures { result ≡ first_number self.now }
    {
        match &self.tree {
            NumberTree::Nothing => None,
            NumberTree::One(number, _) => Some(*number),
            NumberTree::Few(bucket) => bucket.first(),
            NumberTree::Two(_, _, first, _) => first.first(),
        }
    }

    /// The trace with the number, where there is one. Takes no memory.
    pub(crate) fn get(&self, number: u32) -> Option<&Trace>
        ensures some { IfSome result (λ t. with_number number self.now ≡ Some t.now) }
        ensures none { IfNone result (with_number number self.now ≡ None) }
    {
        match &self.tree {
            NumberTree::Nothing => None,
            NumberTree::One(held, trace) => { if *held == number { Some(trace) } else { None } }
            NumberTree::Few(bucket) => bucket.get(number),
            NumberTree::Two(split, _, first, second) => {
                if number < *split {
                    first.get(number)
                } else {
                    second.get(number)
                }
            }
        }
    }

    /// The trace with the least number from `from` on, with its number. Takes no memory.
    pub(crate) fn next(&self, from: u32) -> Option<(u32, &Trace)>
        ensures some { IfSome result (λ p. (more : List Numbered)
            × (rest_from from self.now ≡ (p.0, p.1.now) ∷ more)) }
        ensures none { IfNone result (rest_from from self.now ≡ []) }
    {
        match &self.tree {
            NumberTree::Nothing => None,
            NumberTree::One(number, trace) => {
                let trace: &Trace = trace;
                if *number < from {
                    None
                } else {
                    Some((*number, trace))
                }
            }
            NumberTree::Few(bucket) => bucket.next(from),
            NumberTree::Two(split, _, first, second) => {
                if *split <= from {
                    return second.next(from);
                }
                match first.next(from) {
                    Some(found) => Some(found),
                    None => second.next(from),
                }
            }
        }
    }

    /// About how many traces there are.
    fn count(&self) -> u32 {
        match &self.tree {
            NumberTree::Nothing => 0,
            NumberTree::One(_, _) => 1,
            NumberTree::Few(bucket) => bucket.len() as u32,
            NumberTree::Two(_, count, _, _) => *count,
        }
    }

    /// The traces of two lists, where the split is between their numbers.
    fn joined(split: u32, first: Rc<Numbers>, second: Rc<Numbers>) -> M<Numbers>
        requires below { Each (λ (p : Numbered). p.0 < split) first.value }
        requires above { Each (λ (p : Numbered). split ≤ p.0) second.value }
        ensures { IfOk result (λ made. made ≡ first.value ++ second.value) }
    {
        if first.is_empty() {
            return second.share();
        }
        if second.is_empty() {
            return first.share();
        }
        let count = first.count().saturating_add(second.count());
        Ok(Numbers {
            tree: NumberTree::Two(split, count, first, second),
        })
    }

    /// As `joined`, with another first list.
    fn with_first(alloc: Global, split: u32, first: Numbers, second: &Rc<Numbers>) -> M<Numbers>
        requires below { Each (λ (p : Numbered). p.0 < split) first }
        requires above { Each (λ (p : Numbered). split ≤ p.0) second.now.value }
        ensures { IfOk result (λ made. made ≡ first ++ second.now.value) }
    {
        let first = Rc::new(alloc, first)?;
        let second = second.clone()?;
        Numbers::joined(split, first, second)
    }

    /// As `joined`, with another second list.
    fn with_second(alloc: Global, split: u32, first: &Rc<Numbers>, second: Numbers) -> M<Numbers>
        requires below { Each (λ (p : Numbered). p.0 < split) first.now.value }
        requires above { Each (λ (p : Numbered). split ≤ p.0) second }
        ensures { IfOk result (λ made. made ≡ first.now.value ++ second) }
    {
        let first = first.clone()?;
        let second = Rc::new(alloc, second)?;
        Numbers::joined(split, first, second)
    }

    /// One trace more, whose number is above all. In time logarithmic in their number where none
    /// is taken away. It takes a place in a bucket, and for one trace in 16 two nodes; what another
    /// version shares is copied first. Refused it changes nothing.
    pub(crate) fn add(&mut self, alloc: Global, number: u32, trace: &Rc<Trace>) -> M<()>
        requires { Each (λ (p : Numbered). p.0 < number) self.old }
        ensures added { OnOk result (self.new ≡ self.old ++ (number, trace.now.value) ∷ []) }
        ensures unchanged { OnErr result (self.new ≡ self.old) }
    {
        match &mut self.tree {
            NumberTree::Two(_, count, first, second) if second.count() < first.count() => {
                Rc::make_mut(second)?.add(alloc, number, trace)?;
                *count = count.saturating_add(1);
                Ok(())
            }
            NumberTree::Few(bucket) if bucket.len() < MOST_IN_BUCKET => bucket.push(number, trace),
            _ => {
                *self = self.beside(alloc, number, trace)?;
                Ok(())
            }
        }
    }

    /// The list with one trace more, whose number is above all: a trace alone goes into a bucket
    /// with it, and any other list is the first part beside it.
    fn beside(&self, alloc: Global, number: u32, trace: &Rc<Trace>) -> M<Numbers>
        requires { Each (λ (p : Numbered). p.0 < number) self.now }
        ensures { IfOk result (λ made. made ≡ self.now ++ (number, trace.now.value) ∷ []) }
    {
        match &self.tree {
            NumberTree::Nothing => Ok(Numbers::one(number, trace.clone()?)),
            NumberTree::One(least, other) => {
                let mut bucket = Bucket::new(alloc);
                bucket.push(*least, other)?;
                bucket.push(number, trace)?;
                Ok(Numbers {
                    tree: NumberTree::Few(bucket),
                })
            }
            _ => {
                let last = Numbers::one(number, trace.clone()?);
                let all = Rc::new(alloc, self.share()?)?;
                Numbers::with_second(alloc, number, &all, last)
            }
        }
    }

    /// The traces of a bucket. Takes no memory, and constant time.
    fn of_bucket(bucket: Bucket) -> Numbers
        ensures { result ≡ bucket }
    {
        if bucket.len() == 0 {
            return Numbers::new();
        }
        Numbers {
            tree: NumberTree::Few(bucket),
        }
    }

    /// Whether there is no trace.
    pub(crate) fn is_empty(&self) -> bool
        ensures { result ≡ nat_eq (length self.now) 0 }
    {
        match &self.tree {
            NumberTree::Nothing => true,
            NumberTree::One(_, _) => false,
            NumberTree::Few(_) => false,
            NumberTree::Two(_, _, _, _) => false,
        }
    }

    /// The list without a number. In time as `add`, and as much memory: the nodes on the way and
    /// one bucket are made anew.
    pub(crate) fn without(&self, alloc: Global, number: u32) -> M<Numbers>
        ensures { IfOk result (λ made. made ≡ without_number number self.now) }
    {
        match &self.tree {
            NumberTree::Nothing => Ok(Numbers::new()),
            NumberTree::One(held, _) => {
                if *held == number {
                    Ok(Numbers::new())
                } else {
                    self.share()
                }
            }
            NumberTree::Few(bucket) => Ok(Numbers::of_bucket(bucket.without(alloc, number)?)),
            NumberTree::Two(split, _, first, second) => {
                if number < *split {
                    let rest = first.without(alloc, number)?;
                    Numbers::with_first(alloc, *split, rest, second)
                } else {
                    let rest = second.without(alloc, number)?;
                    Numbers::with_second(alloc, *split, first, rest)
                }
            }
        }
    }
}

impl Clone for Numbers {
    ghost is_clone = { λ n copy. copy ≡ n };

    /// As `share`.
    fn clone(&self) -> Result<Numbers, AllocError> {
        match self.share() {
            Ok(made) => Ok(made),
            Err(_) => Err(AllocError),
        }
    }
}
