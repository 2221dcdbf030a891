//! Literals that have an opposite in the same machine word.

ghost use Rattle.std.specs.Prelude.{◌≡◌, ◌-◌, ◌<◌, ◌^◌, neg_ℤ};
ghost use Rattle.chain_check.specs.FewClauses.{further};

use chain_check::Literal;
use std::marker::Model;

/// A literal of a query.
#[derive(Clone, Copy)]
pub struct Wire {
    literal: Literal,
}

impl Model for Wire {
    ghost use Rattle.std.specs.Prelude.{◌<◌, ◌^◌, ℤ, unsigned_abs};

    ghost Value = { ℤ };

    ghost view = { λ w. w.literal };

    ghost inverse = { λ z. record { literal = z } };

    ghost invariant = { λ w. unsigned_abs w.literal < 2 ^ 31 };
}

impl Wire {
    /// The literal that a variable is true; variables are counted from 0.
    pub fn further(variable: u32) -> Wire
        requires { variable < 2 ^ 31 - 1 }
        ensures { result ≡ further variable }
    {
        Wire {
            literal: Literal::new((variable + 1) as i32),
        }
    }

    /// The opposite literal.
    #[tactic(auto, using(crate::proofs::Making::same_size))]
    pub fn opposite(self) -> Wire
        ensures { result ≡ neg_ℤ self }
    {
        Wire {
            literal: self.literal.opposite(),
        }
    }

    /// The number of the literal.
    pub fn number(self) -> i32
        ensures { result ≡ self }
    {
        self.literal.number()
    }
}
