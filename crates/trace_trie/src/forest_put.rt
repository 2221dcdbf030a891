//! Children of a node with one more or less: only what leads to it is built.

ghost use Rattle.std.specs.Prelude.{◌≡◌, [], ◌∷◌, IfOk, Some, None};
ghost use Rattle.trace_trie.specs.Kids.{IsSwapped, behind};
ghost use Rattle.trace_trie.specs.Forests.{passing};

use crate::forest::{Branch, Forest};
use crate::letters::{differing, same};
use crate::numbers::Numbers;
use hy_base::M;
use hy_bits::LetterMask;
use std::alloc::Global;

impl Forest {
    /// The child of this letter is the given one, where some trace passes it, and there is none
    /// otherwise. The others are as they were. In time and memory as `get`.
    pub(crate) fn swap(
        &self,
        alloc: Global,
        letter: LetterMask,
        ends: Numbers,
        children: Forest,
    ) -> M<Forest>
        ensures { IfOk result (λ made. IsSwapped letter (passing ends children) self.now made) }
    {
        if ends.is_empty() && children.len() == 0 {
            return self.without(alloc, letter);
        }
        children.kids_differ();
        let one = Forest::one(alloc, letter, ends, children)?;
        self.put(alloc, letter, one)
    }

    /// The child of this letter is the given one, and the others are as they were. In time and
    /// memory as `get`.
    pub(crate) fn put(&self, alloc: Global, letter: LetterMask, one: Forest) -> M<Forest>
        requires { one ≡ (letter, behind letter one) ∷ [] }
        ensures { IfOk result (λ made. IsSwapped letter (behind letter one) self.now made) }
    {
        match &self.tree {
            Branch::Bare => {
                one.kids_differ();
                Ok(one)
            }
            Branch::Child(held, _, _) => self.beside(alloc, *held, letter, one),
            Branch::Tail(_, trace, at) => self.beside(alloc, trace.at(*at), letter, one),
            Branch::Fork(name, _, first, second) => {
                if letter.has(*name) {
                    let more = second.put(alloc, letter, one)?;
                    Forest::with_second(alloc, *name, first, more)
                } else {
                    let more = first.put(alloc, letter, one)?;
                    Forest::with_first(alloc, *name, more, second)
                }
            }
        }
    }

    /// As `put`, where the only child has the letter `held`.
    fn beside(&self, alloc: Global, held: LetterMask, letter: LetterMask, one: Forest) -> M<Forest>
        requires only { self.now ≡ (held, behind held self.now) ∷ [] }
        requires one { one ≡ (letter, behind letter one) ∷ [] }
        ensures { IfOk result (λ made. IsSwapped letter (behind letter one) self.now made) }
    {
        self.kids_differ();
        one.kids_differ();
        match differing(letter, held) {
            None => Ok(one),
            Some(name) => Forest::forked(alloc, name, letter.has(name), self.share()?, one),
        }
    }

    /// There is no child of this letter, and the others are as they were. In time and memory as
    /// `get`.
    pub(crate) fn without(&self, alloc: Global, letter: LetterMask) -> M<Forest>
        ensures { IfOk result (λ made. IsSwapped letter [] self.now made) }
    {
        match &self.tree {
            Branch::Bare => Ok(Forest::new()),
            Branch::Child(held, _, _) => self.rest(*held, letter),
            Branch::Tail(_, trace, at) => self.rest(trace.at(*at), letter),
            Branch::Fork(name, _, first, second) => {
                if letter.has(*name) {
                    let rest = second.without(alloc, letter)?;
                    Forest::with_second(alloc, *name, first, rest)
                } else {
                    let rest = first.without(alloc, letter)?;
                    Forest::with_first(alloc, *name, rest, second)
                }
            }
        }
    }

    /// As `without`, where the only child has the letter `held`.
    fn rest(&self, held: LetterMask, letter: LetterMask) -> M<Forest>
        requires { self.now ≡ (held, behind held self.now) ∷ [] }
        ensures { IfOk result (λ made. IsSwapped letter [] self.now made) }
    {
        self.kids_differ();
        if same(letter, held) {
            Ok(Forest::new())
        } else {
            self.share()
        }
    }
}
