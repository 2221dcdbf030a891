//! What may still come at a place of a walk.

ghost use Rattle.std.specs.Prelude.{◌≡◌, ◌<◌, ℕ, [], ◌∷◌, length, slice_get, Some, None, IfSome, IfNone};
ghost use Rattle.std.specs.Bool.{OnTrue};
ghost use Rattle.std.specs.List.{Contains};
ghost use Rattle.hy_bits.specs.Letter.{Letter as NameSet};
ghost use Rattle.hy_finite.specs.declared.lengths.Lengths.{Lengths};
ghost use Rattle.hy_finite.specs.declared.lengths.Lengths.TheVariants.{Pad};
ghost use Rattle.hy_finite.specs.Traces.{Trace};
ghost use Rattle.trace_trie.specs.Cursors.{rests_at, AreLetters};
ghost use Rattle.trace_trie.specs.Numbered.{Numbered, under, led_by};
ghost use Rattle.tuple_walk.specs.Alone.{IsAloneAt};
ghost use Rattle.tuple_walk.specs.declared.place.Taken.TheVariants.{Letter};
ghost use Rattle.tuple_walk.specs.Places.{rests_of, letters_at, whole_of, HasEnded, IsMoved, IsWay};
ghost use Rattle.tuple_walk.specs.Serving.{Agrees};

use crate::place::{Place, Taken};
use hy_bits::LetterMask;
use trace_trie::Cursor;

/// What may still come at a place.
#[derive(Clone, Copy)]
pub(crate) enum Spot<'a> {
    /// What is left of the trace with this number.
    Alone(u32, &'a [LetterMask]),
    /// What is left of the traces that pass a node.
    Node(Cursor<'a>),
}

impl<'a> Spot<'a> {
    /// The spot at a node.
    pub(crate) fn of(node: Cursor<'a>) -> Spot<'a>
        ensures { rests_of result ≡ rests_at node.entry }
    {
        match node.alone() {
            Some((number, rest)) => Spot::Alone(number, rest),
            None => Spot::Node(node),
        }
    }

    /// Whether one trace alone is left, by its letters.
    pub(crate) fn is_alone(&self) -> bool
        ensures { OnTrue result (IsAloneAt self.now) }
    {
        match self {
            Spot::Alone(_, _) => true,
            Spot::Node(_) => false,
        }
    }

    /// What is left of the trace that is alone.
    pub(crate) fn rest(&self) -> &'a [LetterMask]
        requires { IsAloneAt self.now }
        ensures { (n : ℕ) × (rests_of self.now ≡ (n, result.now) ∷ []) }
    {
        match self {
            Spot::Alone(_, rest) => rest,
            Spot::Node(_) => unreachable!(),
        }
    }

    /// The number of a trace that ends here.
    pub(crate) fn ended(&self) -> Option<u32>
        ensures some { IfSome result (λ n. Contains (rests_of self.now) (n, [])) }
        ensures none { IfNone result (¬ HasEnded (rests_of self.now)) }
    {
        match self {
            Spot::Alone(number, rest) => { if rest.is_empty() { Some(*number) } else { None } }
            Spot::Node(cursor) => cursor.first(),
        }
    }

    /// The number of a trace that ends here or, where there is none, of one that passes.
    pub(crate) fn any(&self) -> Option<u32>
        ensures some { IfSome result (λ n. (t : Trace) × Contains (rests_of self.now) (n, t)
            × (HasEnded (rests_of self.now) → t ≡ [])) }
        ensures none { IfNone result (rests_of self.now ≡ []) }
    {
        match self.ended() {
            Some(number) => Some(number),
            None => match self {
                Spot::Alone(number, _) => Some(*number),
                Spot::Node(cursor) => cursor.below(),
            },
        }
    }

    /// How many letters may come next.
    pub(crate) fn len(&self) -> usize
        ensures { result ≡ length (letters_at self.now) }
    {
        match self {
            Spot::Alone(_, rest) => { if rest.is_empty() { 0 } else { 1 } }
            Spot::Node(cursor) => cursor.len(),
        }
    }

    /// These letters differ, and are the first letters of the rests that go on.
    pub(crate) fn letters_differ(&self)
        ensures { AreLetters (letters_at self.now) (rests_of self.now) }
    {
        match self {
            Spot::Alone(_, _) => {}
            Spot::Node(cursor) => cursor.letters_differ(),
        }
    }

    /// The place behind letter `i` of these.
    pub(crate) fn letter(&self, i: usize) -> Place<'a>
        requires { i < length (letters_at self.now) }
        ensures moved { (rule : Lengths) → IsMoved rule result }
        ensures way { (a : NameSet) → slice_get (letters_at self.now) i ≡ Some a
            → IsWay (rests_of self.now) (Some a) (whole_of result) }
        ensures kept { (p : Numbered) → Agrees result.taken p.1 → Contains (rests_of self.now) p
            → Contains (whole_of result) p }
    {
        match self {
            Spot::Alone(number, rest) => Place {
                taken: Taken::Letter(rest[0]),
                spot: Spot::Alone(*number, &rest[1..]),
            },
            Spot::Node(cursor) => {
                cursor.letters_differ();
                let (letter, child) = cursor.at(i);
                Place {
                    taken: Taken::Letter(letter),
                    spot: Spot::of(child),
                }
            }
        }
    }

    /// The place behind a letter, if some of the rests go on by it.
    pub(crate) fn behind(&self, letter: LetterMask) -> Option<Place<'a>>
        ensures moved { IfSome result (λ p. (rule : Lengths) → IsMoved rule p) }
        ensures taken { IfSome result (λ p. p.taken ≡ Letter letter) }
        ensures way { IfSome result (λ p. whole_of p ≡ led_by letter (under letter (rests_of self.now))) }
        ensures none { IfNone result (under letter (rests_of self.now) ≡ []) }
    {
        let child = self.node().child_of(letter)?;
        Some(Place {
            taken: Taken::Letter(letter),
            spot: Spot::of(child),
        })
    }

    /// The node at the spot.
    pub(crate) fn node(&self) -> Cursor<'a>
        ensures { rests_at result ≡ rests_of self.now }
    {
        match self {
            Spot::Alone(number, rest) => Cursor::of_one(*number, rest),
            Spot::Node(cursor) => *cursor,
        }
    }

    /// The place past the end of a trace, where one ends here.
    pub(crate) fn gap(&self) -> Option<Place<'a>>
        ensures moved { IfSome result (IsMoved Pad) }
        ensures way { IfSome result (λ p. IsWay (rests_of self.now) None (whole_of p)) }
        ensures none { IfNone result (¬ HasEnded (rests_of self.now)) }
    {
        match self.ended() {
            Some(number) => Some(Place {
                taken: Taken::Gap,
                spot: Spot::Alone(number, &[]),
            }),
            None => None,
        }
    }
}
