//! The children of a node of a trie by their letters, in versions that share their nodes.

ghost use Rattle.std.specs.Prelude.{◌≡◌, ℕ, ◌+◌, ◌^◌, ◌<◌, List, [], length, slice_get, IfOk, IfSome, IfNone, Some, None};
ghost use Rattle.trace_trie.specs.Numbered.{without_number};
ghost use Rattle.std.specs.List.{Contains};
ghost use Rattle.hy_bits.specs.Letter.{Letter};
ghost use Rattle.trace_trie.specs.Kids.{AreKids, behind, spread};
ghost use Rattle.trace_trie.specs.Forests.{passing, IsAlone};
ghost use Rattle.trace_trie.specs.Grown.{left_in};

use crate::grown::Grown;
use crate::letters::same;
use crate::numbers::Numbers;
use hy_base::M;
use hy_bits::LetterMask;
use hy_finite::Trace;
use std::marker::Model;
use std::rc::Rc;

/// The children of a node. Contracts see the list of their letters, each with what is left behind
/// it of the traces that pass the child.
#[cycle(forest)]
#[derive(Drop)]
pub(crate) struct Forest {
    pub(crate) tree: Branch,
}

/// Children by letter. A fork has the name that the letters of its first part lack and those of its
/// second part have, and the count of its children: so none has more than 64 forks above it.
#[cycle(forest)]
#[derive(Drop)]
pub(crate) enum Branch {
    Bare,
    Child(LetterMask, Numbers, Rc<Forest>),
    /// The child that the trace with this number alone passes, by its letter at this place.
    Tail(u32, Rc<Trace>, usize),
    Fork(usize, usize, Rc<Forest>, Rc<Forest>),
}

impl Model for Forest {
    ghost use Rattle.std.specs.Prelude.{ℕ, List};
    ghost use Rattle.std.specs.Coded.{coded_ℕ, coded_list, coded×};
    ghost use Rattle.std.specs.FinSet as set;
    ghost use Rattle.hy_bits.specs.Letter.{Letter};
    ghost use Rattle.trace_trie.specs.Numbered.{letters_in};
    ghost use Rattle.trace_trie.specs.Kids.{spread};

    ghost Value = { List (Letter × List (ℕ × List Letter)) };

    ghost coded = { coded_list (coded× (set.code coded_ℕ)
        (coded_list (coded× coded_ℕ (coded_list (set.code coded_ℕ))))) };

    ghost use Rattle.trace_trie.specs.Forests.{kids_of, IsForest};

    ghost view = { λ a. kids_of a.tree };

    ghost invariant = { λ a. IsForest a.tree };

    ghost size = { λ kids. letters_in (spread kids) };

    ghost use Rattle.trace_trie.specs.ForestsFall.{depth_le-letters};

    ghost size_decreases = { λ a h. depth_le-letters a.tree h };
}

impl Forest {
    /// No child.
    pub(crate) fn new() -> Forest
        ensures { result ≡ [] }
    {
        Forest { tree: Branch::Bare }
    }

    /// Equal children that share their nodes, in constant time.
    pub(crate) fn share(&self) -> M<Forest>
        ensures { IfOk result (λ made. made ≡ self.now) }
    {
        let tree = match &self.tree {
            Branch::Bare => Branch::Bare,
            Branch::Child(letter, ends, children) => {
                Branch::Child(*letter, ends.share()?, children.clone()?)
            }
            Branch::Tail(number, trace, at) => Branch::Tail(*number, trace.clone()?, *at),
            Branch::Fork(name, count, first, second) => {
                Branch::Fork(*name, *count, first.clone()?, second.clone()?)
            }
        };
        Ok(Forest { tree })
    }

    /// How many children there are. Takes no memory.
    pub(crate) fn len(&self) -> usize
        ensures { result ≡ length self.now }
    {
        match &self.tree {
            Branch::Bare => 0,
            Branch::Child(_, _, _) => 1,
            Branch::Tail(_, _, _) => 1,
            Branch::Fork(_, count, _, _) => *count,
        }
    }

    /// The letters differ, and some trace passes each child.
    pub(crate) fn kids_differ(&self)
        ensures { AreKids self.now }
    {
        let _tree = &self.tree;
    }

    /// The number of children leaves room for one more.
    pub(crate) fn len_fits(&self)
        ensures { length self.now + 1 < 2 ^ 64 }
    {
        let _tree = &self.tree;
    }

    /// Child `i`, counted from 0: its letter, and what stands behind it. Takes no memory, and time
    /// logarithmic in the number of children mostly, at most 64 steps.
    pub(crate) fn at(&self, i: usize) -> (LetterMask, Grown<'_>)
        requires { i < length self.now }
        ensures { slice_get self.now i ≡ Some (result.0, left_in result.1) }
    {
        match &self.tree {
            Branch::Bare => unreachable!(),
            Branch::Child(letter, ends, children) => (*letter, Grown::Node(ends, children)),
            Branch::Tail(number, trace, at) => {
                trace.len();
                (trace.at(*at), Grown::Tail(*number, trace, *at + 1))
            }
            Branch::Fork(_, _, first, second) => {
                let before = first.len();
                if i < before {
                    first.at(i)
                } else {
                    second.at(i - before)
                }
            }
        }
    }

    /// The number of some trace that passes a child, where there is one. Takes no memory, and at
    /// most 64 steps for each letter that is left.
    pub(crate) fn any(&self) -> Option<u32>
        ensures some { IfSome result (λ n. (t : List Letter) × Contains (spread self.now) (n, t)) }
        ensures none { IfNone result (self.now ≡ []) }
    {
        match &self.tree {
            Branch::Bare => None,
            Branch::Child(_, ends, children) => match ends.first() {
                Some(number) => Some(number),
                None => children.any(),
            },
            Branch::Tail(number, _, _) => Some(*number),
            Branch::Fork(_, _, first, _) => first.any(),
        }
    }

    /// The child of a letter, where there is one. Takes no memory, and at most 64 steps.
    pub(crate) fn get(&self, letter: LetterMask) -> Option<Grown<'_>>
        ensures some { IfSome result (λ grown. behind letter self.now ≡ left_in grown) }
        ensures passed { IfSome result (λ grown. 0 < length (left_in grown)) }
        ensures none { IfNone result (behind letter self.now ≡ []) }
    {
        match &self.tree {
            Branch::Bare => None,
            Branch::Child(held, ends, children) => {
                if same(letter, *held) {
                    Some(Grown::Node(ends, children))
                } else {
                    None
                }
            }
            Branch::Tail(number, trace, at) => {
                trace.len();
                if same(letter, trace.at(*at)) {
                    Some(Grown::Tail(*number, trace, *at + 1))
                } else {
                    None
                }
            }
            Branch::Fork(name, _, first, second) => {
                if letter.has(*name) {
                    second.get(letter)
                } else {
                    first.get(letter)
                }
            }
        }
    }

    /// The child of a letter, where more passes it than a tail of the trace with the number. As
    /// `get`.
    pub(crate) fn get_other(&self, letter: LetterMask, number: u32) -> Option<Grown<'_>>
        ensures some { IfSome result (λ grown. behind letter self.now ≡ left_in grown) }
        ensures none { IfNone result (without_number number (behind letter self.now) ≡ []) }
    {
        match self.get(letter) {
            Some(Grown::Tail(held, _, _)) if held == number => None,
            found => found,
        }
    }

    /// The only trace that passes a node, with the place from which on it is left, where it ends
    /// there or goes on to a tail. Takes no memory, and constant time.
    pub(crate) fn alone<'a>(
        ends: &'a Numbers,
        children: &'a Forest,
    ) -> Option<(u32, &'a Rc<Trace>, usize)>
        ensures { IfSome result (λ p. IsAlone p.0 p.1.now.value p.2
            (passing ends.now children.now)) }
    {
        match &children.tree {
            Branch::Bare => match ends.only() {
                Some((number, trace)) => Some((number, trace, trace.len())),
                None => None,
            },
            Branch::Tail(number, trace, at) => {
                if ends.is_empty() {
                    Some((*number, trace, *at))
                } else {
                    None
                }
            }
            _ => None,
        }
    }
}
