//! A count of steps that contracts see. It takes no bytes and no time.

ghost use Rattle.std.specs.Prelude.{◌≡◌, ◌+◌, ◌<◌};

use std::marker::Model;
use std::sync::ledger::{Blank, Book, Ledger, Share};

/// How many steps were made, over a ledger that no other counter has.
///
/// No code reads the number, so it has no last value, and none can set it back.
#[derive(Drop)]
pub struct Steps<L: Ledger> {
    made: Book<L>,
    mine: Share<L>,
}

impl<L: Ledger> Model for Steps<L> {
    ghost use Rattle.std.specs.Prelude.{ℕ, ◌<◌};

    ghost Value = { ℕ };

    ghost view = { λ s. s.made.total };

    ghost invariant = { λ s. 0 < s.mine.parts };
}

impl<L: Ledger> Steps<L> {
    /// No step yet. The ledger is one of at least one part.
    pub fn new(blank: Blank) -> Steps<L>
        requires name { blank.name ≡ L.name }
        requires parts { blank.parts ≡ L.parts }
        requires some { 0 < blank.parts }
        ensures { result ≡ 0 }
    {
        let (made, mine) = blank.open::<L>();
        Steps { made, mine }
    }

    /// Makes one step.
    pub fn tick(&mut self)
        ensures { self.new ≡ self.old + 1 }
    {
        let Steps { made, mine } = self;
        made.add(mine, 1);
    }
}
