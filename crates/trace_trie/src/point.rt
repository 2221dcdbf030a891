//! Points of a trie, one after another down a trace.

ghost use Rattle.std.specs.Prelude.{◌≡◌, ◌+◌, ◌^◌, ◌<◌, List, [], ◌∷◌, length, slice_get, Option, Some, None, IfSome, IfNone, is_some, true};
ghost use Rattle.std.specs.List.{Contains};
ghost use Rattle.hy_bits.specs.Letter.{Letter};
ghost use Rattle.hy_formula.specs.Quantifiers.{Each};
ghost use Rattle.trace_trie.specs.Numbered.{Numbered, under, in_order};
ghost use Rattle.trace_trie.specs.Forests.{passing};
ghost use Rattle.trace_trie.specs.Grown.{left_in};
ghost use Rattle.trace_trie.specs.Points.{kid_letters_of, rests_of, is_alone_at};
ghost use Rattle.trace_trie.specs.Cursors.{AreLetters};

use crate::forest::Forest;
use crate::grown::{Grown, left};
use crate::letters::same;
use crate::numbers::Numbers;
use hy_bits::LetterMask;

/// A point of a trie. Contracts see the list of what is left of the traces that pass, with their
/// numbers, which ascend; and the letters of the children in their order.
#[derive(Clone, Copy)]
pub(crate) enum Point<'a> {
    /// A node: the numbers of the traces that end there, and its children.
    Node(&'a Numbers, &'a Forest),
    /// What is left of the trace with this number, which passes alone.
    Alone(u32, &'a [LetterMask]),
}

impl<'a> Point<'a> {
    /// The node of these.
    pub(crate) fn of(ends: &'a Numbers, children: &'a Forest) -> Point<'a>
        ensures { rests_of result ≡ in_order (passing ends.now children.now) }
    {
        match Forest::alone(ends, children) {
            Some((number, trace, at)) => Point::of_one(number, left(trace, at)),
            None => Point::Node(ends, children),
        }
    }

    /// What stands behind a letter.
    fn behind(grown: Grown<'a>) -> Point<'a>
        ensures { rests_of result ≡ in_order (left_in grown.entry) }
    {
        match grown {
            Grown::Node(ends, children) => Point::Node(ends, children),
            Grown::Tail(number, trace, at) => Point::of_one(number, left(trace, at)),
        }
    }

    /// The place that one trace alone passes, with its number and what is left of it. Takes no
    /// memory, and constant time.
    pub(crate) fn of_one(number: u32, rest: &'a [LetterMask]) -> Point<'a>
        ensures rests { rests_of result ≡ (number, rest.now) ∷ [] }
        ensures alone { is_alone_at result ≡ true }
    {
        Point::Alone(number, rest)
    }

    /// The only trace that passes, and what is left of it. `Some` at the root and behind each
    /// letter wherever one trace alone passes, and at what `of_one` gave. Takes no memory, and
    /// constant time.
    pub(crate) fn alone(&self) -> Option<(u32, &'a [LetterMask])>
        ensures only { IfSome result (λ p. rests_of self.now ≡ (p.0, p.1.now) ∷ []) }
        ensures kept { is_some result ≡ is_alone_at self.now }
    {
        match self {
            Point::Node(_, _) => None,
            Point::Alone(number, rest) => Some((*number, *rest)),
        }
    }

    /// How many children there are. Takes no memory.
    pub(crate) fn len(&self) -> usize
        ensures { result ≡ length (kid_letters_of self.now) }
    {
        match self {
            Point::Node(_, children) => children.len(),
            Point::Alone(_, rest) => { if rest.is_empty() { 0 } else { 1 } }
        }
    }

    /// The number of children leaves room for one more.
    pub(crate) fn len_fits(&self)
        ensures { length (kid_letters_of self.now) + 1 < 2 ^ 64 }
    {
        match self {
            Point::Node(_, children) => children.len_fits(),
            Point::Alone(_, _) => {}
        }
    }

    /// The letters of the children differ, and are the first letters of the rests that go on.
    pub(crate) fn letters_differ(&self)
        ensures { AreLetters (kid_letters_of self.now) (rests_of self.now) }
    {
        match self {
            Point::Node(_, children) => children.kids_differ(),
            Point::Alone(_, _) => {}
        }
    }

    /// Child `i`, counted from 0: its letter, and what is left behind it of the traces that pass it.
    /// Takes no memory, and at most 64 steps.
    pub(crate) fn at(&self, i: usize) -> (LetterMask, Point<'a>)
        requires { i < length (kid_letters_of self.now) }
        ensures letter { slice_get (kid_letters_of self.now) i ≡ Some result.0 }
        ensures child { rests_of result.1 ≡ under result.0 (rests_of self.now) }
    {
        match self {
            Point::Node(_, children) => {
                children.kids_differ();
                let (letter, grown) = children.at(i);
                (letter, Point::behind(grown))
            }
            Point::Alone(number, rest) => (rest[0], Point::of_one(*number, &rest[1..])),
        }
    }

    /// The child of a letter, as `at`; `None` where no trace goes on by it. Takes no memory, and
    /// at most 64 steps.
    pub(crate) fn child_of(&self, letter: LetterMask) -> Option<Point<'a>>
        ensures some { IfSome result (λ child.
            rests_of child ≡ under letter (rests_of self.now)) }
        ensures passed { IfSome result (λ child. 0 < length (rests_of child)) }
        ensures none { IfNone result (under letter (rests_of self.now) ≡ []) }
    {
        match self {
            Point::Node(_, children) => {
                children.kids_differ();
                match children.get(letter) {
                    Some(grown) => Some(Point::behind(grown)),
                    None => None,
                }
            }
            Point::Alone(number, rest) => {
                if !rest.is_empty() && same(letter, rest[0]) {
                    Some(Point::of_one(*number, &rest[1..]))
                } else {
                    None
                }
            }
        }
    }

    /// A trace that ends here, where there is one. Takes no memory.
    pub(crate) fn first(&self) -> Option<u32>
        ensures some { IfSome result (λ n. Contains (rests_of self.now) (n, [])) }
        ensures none { IfNone result (Each (λ (p : Numbered). 0 < length p.1) (rests_of self.now)) }
    {
        match self {
            Point::Node(ends, _) => ends.first(),
            Point::Alone(number, rest) => { if rest.is_empty() { Some(*number) } else { None } }
        }
    }

    /// A trace that passes here, where there is one. Takes no memory, and time linear in the most
    /// letters that are left, at most 64 steps for each.
    pub(crate) fn below(&self) -> Option<u32>
        ensures some { IfSome result (λ n. (t : List Letter)
            × Contains (rests_of self.now) (n, t)) }
        ensures none { IfNone result (rests_of self.now ≡ []) }
    {
        match self {
            Point::Node(ends, children) => match ends.first() {
                Some(number) => Some(number),
                None => children.any(),
            },
            Point::Alone(number, _) => Some(*number),
        }
    }
}
