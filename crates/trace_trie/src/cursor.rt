//! Points of a version, one after another down a trace.

ghost use Rattle.std.specs.Prelude.{◌≡◌, ℕ, ◌<◌, ◌≤◌, List, [], ◌∷◌, ◌++◌, length, slice_get, Option, Some, None, IfSome, IfNone, is_some, true};
ghost use Rattle.std.specs.List.{Contains};
ghost use Rattle.hy_bits.specs.Letter.{Letter};
ghost use Rattle.hy_formula.specs.Quantifiers.{Each};
ghost use Rattle.trace_trie.specs.Numbered.{Numbered, under, in_order};
ghost use Rattle.trace_trie.specs.Forests.{passing};
ghost use Rattle.trace_trie.specs.Points.{rests_of};
ghost use Rattle.trace_trie.specs.Cursors.{letters_of, rests_at, is_alone, left_waiting, new_letter, AreLetters};

use crate::forest::Forest;
use crate::letters::same;
use crate::numbers::Numbers;
use crate::point::Point;
use hy_bits::LetterMask;

/// Where a walk down a version stands. Contracts see the list of what is left of the traces that
/// pass, with their numbers, which ascend; and the letters of the children in their order.
#[derive(Clone, Copy)]
pub struct Cursor<'a> {
    point: Point<'a>,
    /// The newest trace's number and what is left of it, where it waits and passes here beside
    /// others.
    newest: Option<(u32, &'a [LetterMask])>,
}

impl<'a> Cursor<'a> {
    /// The node of these, and beside it the newest trace, where it waits.
    pub(crate) fn of(
        ends: &'a Numbers,
        children: &'a Forest,
        newest: Option<(u32, &'a [LetterMask])>,
    ) -> Cursor<'a>
        ensures { rests_at result ≡ in_order (passing ends.now children.now)
            ++ left_waiting newest.entry }
    {
        match newest {
            Some((number, rest)) if ends.is_empty() && children.len() == 0 => {
                Cursor::of_one(number, rest)
            }
            _ => Cursor {
                point: Point::of(ends, children),
                newest,
            },
        }
    }

    /// The place that one trace alone passes, with its number and what is left of it. Takes no
    /// memory, and constant time.
    pub fn of_one(number: u32, rest: &'a [LetterMask]) -> Cursor<'a>
        ensures rests { rests_at result ≡ (number, rest.now) ∷ [] }
        ensures alone { is_alone result ≡ true }
    {
        Cursor {
            point: Point::of_one(number, rest),
            newest: None,
        }
    }

    /// The only trace that passes, and what is left of it. `Some` at the root and behind each
    /// letter wherever one trace alone passes, and at what `of_one` gave. Takes no memory, and
    /// constant time.
    pub fn alone(&self) -> Option<(u32, &'a [LetterMask])>
        ensures only { IfSome result (λ p. rests_at self.now ≡ (p.0, p.1.now) ∷ []) }
        ensures kept { is_some result ≡ is_alone self.now }
    {
        match &self.newest {
            None => self.point.alone(),
            Some(_) => None,
        }
    }

    /// How many children there are. Takes no memory.
    pub fn len(&self) -> usize
        ensures { result ≡ length (letters_of self.now) }
    {
        match &self.newest {
            None => self.point.len(),
            Some((_, rest)) => {
                self.point.len_fits();
                self.point.len() + more(&self.point, rest)
            }
        }
    }

    /// The letters of the children differ, and are the first letters of the rests that go on.
    pub fn letters_differ(&self)
        ensures { AreLetters (letters_of self.now) (rests_at self.now) }
    {
        self.point.letters_differ();
    }

    /// Child `i`, counted from 0: its letter, and what is left behind it of the traces that pass it.
    /// Takes no memory, and at most 64 steps.
    pub fn at(&self, i: usize) -> (LetterMask, Cursor<'a>)
        requires { i < length (letters_of self.now) }
        ensures letter { slice_get (letters_of self.now) i ≡ Some result.0 }
        ensures child { rests_at result.1 ≡ under result.0 (rests_at self.now) }
    {
        match &self.newest {
            Some((number, rest)) if i >= self.point.len() => {
                (rest[0], Cursor::of_one(*number, &rest[1..]))
            }
            Some((number, rest)) => {
                let (letter, point) = self.point.at(i);
                let newest = behind(letter, *number, rest);
                (letter, Cursor { point, newest })
            }
            None => {
                let (letter, point) = self.point.at(i);
                let newest = None;
                (letter, Cursor { point, newest })
            }
        }
    }

    /// The child of a letter, as `at`; `None` where no trace goes on by it. Takes no memory, and
    /// at most 64 steps.
    pub fn child_of(&self, letter: LetterMask) -> Option<Cursor<'a>>
        ensures some { IfSome result (λ child.
            rests_at child ≡ under letter (rests_at self.now)) }
        ensures none { IfNone result (under letter (rests_at self.now) ≡ []) }
    {
        match &self.newest {
            None => match self.point.child_of(letter) {
                Some(point) => Some(Cursor {
                    point,
                    newest: None,
                }),
                None => None,
            },
            Some((number, rest)) => {
                match (self.point.child_of(letter), behind(letter, *number, rest)) {
                    (Some(point), newest) => Some(Cursor { point, newest }),
                    (None, Some((number, rest))) => Some(Cursor::of_one(number, rest)),
                    (None, None) => None,
                }
            }
        }
    }

    /// A trace that ends here, where there is one. Takes no memory.
    pub fn first(&self) -> Option<u32>
        ensures some { IfSome result (λ n. Contains (rests_at self.now) (n, [])) }
        ensures none { IfNone result (Each (λ (p : Numbered). 0 < length p.1) (rests_at self.now)) }
    {
        match self.point.first() {
            Some(number) => Some(number),
            None => match &self.newest {
                Some((number, rest)) if rest.is_empty() => Some(*number),
                _ => None,
            },
        }
    }

    /// A trace that passes here, where there is one. Takes no memory, and time linear in the most
    /// letters that are left, at most 64 steps for each.
    pub fn below(&self) -> Option<u32>
        ensures some { IfSome result (λ n. (t : List Letter)
            × Contains (rests_at self.now) (n, t)) }
        ensures none { IfNone result (rests_at self.now ≡ []) }
    {
        match self.point.below() {
            Some(number) => Some(number),
            None => match &self.newest {
                Some((number, _)) => Some(*number),
                None => None,
            },
        }
    }
}

/// What is left of a trace behind a letter, where it goes on by it.
fn behind<'a>(
    letter: LetterMask,
    number: u32,
    rest: &'a [LetterMask],
) -> Option<(u32, &'a [LetterMask])>
    ensures { left_waiting result ≡ under letter ((number, rest.now) ∷ []) }
{
    if !rest.is_empty() && same(letter, rest[0]) {
        Some((number, &rest[1..]))
    } else {
        None
    }
}

/// How many children there are more for a trace with this rest: one where it goes on by a letter by
/// which none of the others goes on, else none.
fn more(point: &Point<'_>, rest: &[LetterMask]) -> usize
    ensures more { result ≡ length (new_letter (rests_of point.now) rest.now) }
    ensures one { result ≤ 1 }
{
    if rest.is_empty() {
        return 0;
    }
    match point.child_of(rest[0]) {
        Some(_) => 0,
        None => 1,
    }
}
