//! Buckets: a few traces by number.

ghost use Rattle.std.specs.Prelude.{◌≡◌, ◌≢◌, ◌<◌, ◌≤◌, List, [], ◌∷◌, ◌++◌, length, IfOk, IfSome, IfNone, OnOk, OnErr, Some, None};
ghost use Rattle.trace_trie.specs.Numbered.{Numbered, first_number, rest_from, with_number, without_number};

use hy_base::M;
use hy_finite::Trace;
use std::alloc::{AllocError, Global};
use std::marker::Model;
use std::rc::Rc;

/// The most traces of a bucket.
pub(crate) const MOST_IN_BUCKET: usize = 16;

/// Up to 16 traces by number in a list of their own, so that most traces need no node of the tree.
/// Contracts see it as the list of their pairs. Each call takes time linear in them at most.
#[derive(Drop)]
pub(crate) struct Bucket {
    traces: Vec<Held>,
}

/// A trace with its number. Contracts see the pair.
#[derive(Drop)]
struct Held {
    number: u32,
    trace: Rc<Trace>,
}

impl Model for Held {
    ghost use Rattle.std.specs.Prelude.{ℕ, List};
    ghost use Rattle.std.specs.Coded.{coded_ℕ, coded_list, coded×};
    ghost use Rattle.std.specs.FinSet as set;
    ghost use Rattle.hy_bits.specs.Letter.{Letter};

    ghost Value = { ℕ × List Letter };

    ghost coded = { coded× coded_ℕ (coded_list (set.code coded_ℕ)) };

    ghost view = { λ h. (h.number, h.trace.value) };
}

impl Model for Bucket {
    ghost use Rattle.std.specs.Prelude.{ℕ, ◌≤◌, List, length};
    ghost use Rattle.std.specs.Coded.{coded_ℕ, coded_list, coded×};
    ghost use Rattle.std.specs.FinSet as set;
    ghost use Rattle.hy_bits.specs.Letter.{Letter};

    ghost Value = { List (ℕ × List Letter) };

    ghost coded = { coded_list (coded× coded_ℕ (coded_list (set.code coded_ℕ))) };

    ghost view = { λ b. b.traces.items };

    ghost invariant = { λ b. length b.traces.items ≤ 16 };
}

impl Bucket {
    /// No trace. Takes no memory.
    pub(crate) fn new(alloc: Global) -> Bucket
        ensures { result ≡ [] }
    {
        Bucket {
            traces: Vec::new(alloc),
        }
    }

    /// An equal bucket. Takes memory for a list of as many traces.
    pub(crate) fn share(&self) -> M<Bucket>
        ensures { IfOk result (λ made. made ≡ self.now) }
    {
        let alloc = *self.traces.allocator();
        let traces = Vec::from_clones(alloc, self.traces.as_slice())?;
        Ok(Bucket { traces })
    }

    /// How many traces there are.
    pub(crate) fn len(&self) -> usize
        ensures count { result ≡ length self.now }
        ensures limit { result ≤ 16 }
    {
        self.traces.len()
    }

    /// The trace with its number, where there is one and no other.
    pub(crate) fn only(&self) -> Option<(u32, &Rc<Trace>)>
        ensures some { IfSome result (λ p. self.now ≡ (p.0, p.1.now.value) ∷ []) }
        ensures none { IfNone result (length self.now ≢ 1) }
    {
        if self.traces.len() == 1 {
            let held = &self.traces[0];
            Some((held.number, &held.trace))
        } else {
            None
        }
    }

    /// The first number.
    pub(crate) fn first(&self) -> Option<u32>
        ensures { result ≡ first_number self.now }
    {
        if self.traces.is_empty() {
            return None;
        }
        let held = &self.traces[0];
        Some(held.number)
    }

    /// The trace with the number, where there is one.
    pub(crate) fn get(&self, number: u32) -> Option<&Trace>
        ensures some { IfSome result (λ t. with_number number self.now ≡ Some t.now) }
        ensures none { IfNone result (with_number number self.now ≡ None) }
    {
        for held in &self.traces {
            if held.number == number {
                return Some(&held.trace);
            }
        }
        None
    }

    /// The first trace whose number is not below `from`, with its number.
    pub(crate) fn next(&self, from: u32) -> Option<(u32, &Trace)>
        ensures some { IfSome result (λ p. (more : List Numbered)
            × (rest_from from self.now ≡ (p.0, p.1.now) ∷ more)) }
        ensures none { IfNone result (rest_from from self.now ≡ []) }
    {
        for held in &self.traces {
            if from <= held.number {
                let trace: &Trace = &held.trace;
                return Some((held.number, trace));
            }
        }
        None
    }

    /// One trace more. Refused it changes nothing.
    pub(crate) fn push(&mut self, number: u32, trace: &Rc<Trace>) -> M<()>
        requires { length self.old < 16 }
        ensures added { OnOk result (self.new ≡ self.old ++ (number, trace.now.value) ∷ []) }
        ensures unchanged { OnErr result (self.new ≡ self.old) }
    {
        let held = Held {
            number,
            trace: trace.clone()?,
        };
        self.traces.push(held)?;
        Ok(())
    }

    /// A copy without a number.
    pub(crate) fn without(&self, alloc: Global, number: u32) -> M<Bucket>
        ensures { IfOk result (λ made. made ≡ without_number number self.now) }
    {
        let mut traces = Vec::new(alloc);
        for held in &self.traces {
            if held.number != number {
                traces.push(held.clone()?)?;
            }
        }
        Ok(Bucket { traces })
    }
}

impl Clone for Held {
    ghost is_clone = { λ held copy. copy ≡ held };

    fn clone(&self) -> Result<Held, AllocError> {
        Ok(Held {
            number: self.number,
            trace: self.trace.clone()?,
        })
    }
}
