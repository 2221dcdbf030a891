//! Bodies by how they are made of their parts.

ghost use Rattle.std.specs.Prelude.{◌≡◌};
ghost use Rattle.bound_search.specs.Shapes.{body_shape, parts_shape};

use crate::connectives::{Binary, Unary};
use hy_formula::{Atom, Body};

/// The outermost operator of a body, and its parts.
#[derive(Clone, Copy)]
pub enum Parts<'a> {
    Constant(bool),
    Atom(Atom),
    One(Unary, &'a Body),
    Two(Binary, &'a Body, &'a Body),
}

/// What a body is made of.
pub fn parts_of(body: &Body) -> Parts<'_>
    ensures { body_shape body.now ≡ parts_shape result }
{
    match body {
        Body::True => Parts::Constant(true),
        Body::False => Parts::Constant(false),
        Body::Atom(a) => Parts::Atom(*a),
        Body::Not(f) => Parts::One(Unary::Not, f),
        Body::Next(f) => Parts::One(Unary::Next, f),
        Body::Finally(f) => Parts::One(Unary::Finally, f),
        Body::Globally(f) => Parts::One(Unary::Globally, f),
        Body::And(f, g) => Parts::Two(Binary::And, f, g),
        Body::Or(f, g) => Parts::Two(Binary::Or, f, g),
        Body::Implies(f, g) => Parts::Two(Binary::Implies, f, g),
        Body::Iff(f, g) => Parts::Two(Binary::Iff, f, g),
        Body::Until(f, g) => Parts::Two(Binary::Until, f, g),
        Body::Release(f, g) => Parts::Two(Binary::Release, f, g),
        Body::Weak(f, g) => Parts::Two(Binary::Weak, f, g),
    }
}
