ghost use Rattle.std.specs.Prelude.{◌≡◌, not};
ghost use Rattle.ltl_closure.specs.Plain.{plain_node, constant, conjunction, next_of, until_of};

use hy_formula::Atom;

/// A member of a closure: a normal form, its operands by their numbers.
#[derive(Clone, Copy, Debug, PartialEq, Eq, Hash)]
pub enum Node {
    True,
    False,
    /// The atom holds where `positive`, and does not hold otherwise.
    Lit { atom: Atom, positive: bool },
    And(u16, u16),
    Or(u16, u16),
    Next(u16),
    /// As `Next`, and true at the last position of a finite word.
    WeakNext(u16),
    Until(u16, u16),
    Release(u16, u16),
}

impl Node {
    pub(crate) fn constant(value: bool) -> Node
        ensures { plain_node result ≡ constant value }
    {
        if value { Node::True } else { Node::False }
    }

    /// `And`, or `Or` where not `positive`.
    pub(crate) fn conjunction(positive: bool, g: u16, h: u16) -> Node
        ensures { plain_node result ≡ conjunction positive g h }
    {
        if positive {
            Node::And(g, h)
        } else {
            Node::Or(g, h)
        }
    }

    /// `Next`, or `WeakNext` where not `positive`.
    pub(crate) fn next(positive: bool, g: u16) -> Node
        ensures { plain_node result ≡ next_of positive g }
    {
        if positive {
            Node::Next(g)
        } else {
            Node::WeakNext(g)
        }
    }

    /// `Until`, or `Release` where not `positive`.
    pub(crate) fn until(positive: bool, g: u16, h: u16) -> Node
        ensures { plain_node result ≡ until_of positive g h }
    {
        if positive {
            Node::Until(g, h)
        } else {
            Node::Release(g, h)
        }
    }
}
