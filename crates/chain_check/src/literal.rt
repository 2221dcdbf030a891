//! A literal as a value of its own: no proof above this file sees how a signed number is kept in bits.

ghost use Rattle.std.specs.Prelude.{◌≡◌, ◌<◌, ◌^◌, ◌↔◌, ℤ, neg_ℤ, unsigned_abs, IsTrue};
ghost use Rattle.chain_check.specs.Clauses.{IsLiteral};

use std::marker::Model;

/// A variable counts from 1, and its negative number is the opposite literal. 0 is none.
#[derive(Clone, Copy)]
pub struct Literal {
    number: i32,
}

impl Model for Literal {
    ghost Value = { ℤ };

    ghost view = { λ l. l.number };

    ghost inverse = { λ z. record { number = z } };
}

impl Literal {
    /// The literal of this number.
    pub fn new(number: i32) -> Literal
        ensures { result ≡ number }
    {
        Literal { number }
    }

    /// The number of the literal.
    pub fn number(self) -> i32
        ensures { result ≡ self }
    {
        self.number
    }

    /// The opposite literal.
    pub fn opposite(self) -> Literal
        requires { unsigned_abs self < 2 ^ 31 }
        ensures { result ≡ neg_ℤ self }
    {
        Literal {
            number: -self.number,
        }
    }

    /// The number of the variable.
    pub fn variable(self) -> usize
        ensures { result ≡ unsigned_abs self }
    {
        self.number.unsigned_abs() as usize
    }

    /// Whether both are the same literal.
    pub fn is(self, other: Literal) -> bool
        ensures { IsTrue result ↔ (self ≡ other) }
    {
        self.number == other.number
    }

    /// Whether it is a literal of one of the variables.
    pub fn is_of(self, variables: usize) -> bool
        ensures { IsTrue result ↔ IsLiteral variables self }
    {
        let variable = self.variable();
        0 < variable && variable <= variables
    }
}
