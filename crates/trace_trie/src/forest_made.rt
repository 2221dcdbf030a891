//! How children of a node are made of their parts.

ghost use Rattle.std.specs.Prelude.{◌≡◌, ◌<◌, [], ◌∷◌, ◌++◌, length, drop, IfOk, IfSome, Some, None, true, false, not, if◌then◌else◌};
ghost use Rattle.std.specs.FinSet.{contains};
ghost use Rattle.hy_formula.specs.Quantifiers.{Each};
ghost use Rattle.trace_trie.specs.Kids.{Kid};
ghost use Rattle.trace_trie.specs.Forests.{passing, kids_alone};

use crate::forest::{Branch, Forest};
use crate::letters::same;
use crate::numbers::Numbers;
use hy_base::{M, Memory};
use hy_bits::LetterMask;
use hy_finite::Trace;
use std::alloc::Global;
use std::rc::Rc;

impl Forest {
    /// One child: what is left of a trace from a place on, with its letter there.
    pub(crate) fn tail(number: u32, trace: Rc<Trace>, at: usize) -> Forest
        requires { at < length trace.value }
        ensures { result ≡ kids_alone number (drop at trace.value) }
    {
        Forest {
            tree: Branch::Tail(number, trace, at),
        }
    }

    /// One child, which some trace passes. Where one trace alone does, and has the letter there, it
    /// is kept as a tail.
    pub(crate) fn one(
        alloc: Global,
        letter: LetterMask,
        ends: Numbers,
        children: Forest,
    ) -> M<Forest>
        requires { 0 < length (passing ends children) }
        ensures { IfOk result (λ made. made ≡ (letter, passing ends children) ∷ []) }
    {
        match Forest::longer(letter, &ends, &children)? {
            Some(tail) => Ok(tail),
            None => {
                let children = Rc::new(alloc, children)?;
                Ok(Forest {
                    tree: Branch::Child(letter, ends, children),
                })
            }
        }
    }

    /// As `one`, where that is a tail.
    fn longer(letter: LetterMask, ends: &Numbers, children: &Forest) -> M<Option<Forest>>
        ensures { IfOk result (λ found. IfSome found (λ made.
            made ≡ (letter, passing ends.now children.now) ∷ [])) }
    {
        match Forest::alone(ends, children) {
            None => Ok(None),
            Some((number, trace, at)) => {
                if at > 0 && same(letter, trace.at(at - 1)) {
                    let trace = trace.clone()?;
                    Ok(Some(Forest::tail(number, trace, at - 1)))
                } else {
                    Ok(None)
                }
            }
        }
    }

    /// The children of two lists, where no letter of the first has the name, and all letters of the
    /// second do. Refused also where there are 2^64 - 1 children or more.
    fn joined(name: usize, first: Rc<Forest>, second: Rc<Forest>) -> M<Forest>
        requires name { name < 64 }
        requires lack { Each (λ (k : Kid). contains k.0 name ≡ false) first.value }
        requires have { Each (λ (k : Kid). contains k.0 name ≡ true) second.value }
        ensures { IfOk result (λ made. made ≡ first.value ++ second.value) }
    {
        let before = first.len();
        let after = second.len();
        if before == 0 {
            return second.share();
        }
        if after == 0 {
            return first.share();
        }
        first.kids_differ();
        second.kids_differ();
        match before.checked_add(after) {
            Some(count) if count < usize::MAX => Ok(Forest {
                tree: Branch::Fork(name, count, first, second),
            }),
            _ => Err(Memory),
        }
    }

    /// As `joined`, with another first list.
    pub(crate) fn with_first(
        alloc: Global,
        name: usize,
        first: Forest,
        second: &Rc<Forest>,
    ) -> M<Forest>
        requires name { name < 64 }
        requires lack { Each (λ (k : Kid). contains k.0 name ≡ false) first }
        requires have { Each (λ (k : Kid). contains k.0 name ≡ true) second.now.value }
        ensures { IfOk result (λ made. made ≡ first ++ second.now.value) }
    {
        let first = Rc::new(alloc, first)?;
        let second = second.clone()?;
        Forest::joined(name, first, second)
    }

    /// As `joined`, with another second list.
    pub(crate) fn with_second(
        alloc: Global,
        name: usize,
        first: &Rc<Forest>,
        second: Forest,
    ) -> M<Forest>
        requires name { name < 64 }
        requires lack { Each (λ (k : Kid). contains k.0 name ≡ false) first.now.value }
        requires have { Each (λ (k : Kid). contains k.0 name ≡ true) second }
        ensures { IfOk result (λ made. made ≡ first.now.value ++ second) }
    {
        let first = first.clone()?;
        let second = Rc::new(alloc, second)?;
        Forest::joined(name, first, second)
    }

    /// The children of both lists. Those of the one have the name where the other ones lack it.
    pub(crate) fn forked(
        alloc: Global,
        name: usize,
        has: bool,
        others: Forest,
        one: Forest,
    ) -> M<Forest>
        requires name { name < 64 }
        requires others { Each (λ (k : Kid). contains k.0 name ≡ not has) others }
        requires one { Each (λ (k : Kid). contains k.0 name ≡ has) one }
        ensures { IfOk result (λ made. made ≡ (if has then others ++ one else one ++ others)) }
    {
        if has {
            let others = Rc::new(alloc, others)?;
            Forest::with_second(alloc, name, &others, one)
        } else {
            let others = Rc::new(alloc, others)?;
            Forest::with_first(alloc, name, one, &others)
        }
    }
}
