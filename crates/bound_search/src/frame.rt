//! What the rows of a query have in common.

ghost use Rattle.std.specs.Prelude.{◌≡◌};
ghost use Rattle.bound_search.specs.Making.{IsFrame, first_place};

/// How many members may be chosen, by how many quantifiers, and the places of a row: `places` in
/// all, of which the first `stem` stand before the round.
#[derive(Clone, Copy)]
pub struct Frame {
    pub traces: usize,
    pub quantifiers: usize,
    pub stem: usize,
    pub places: usize,
}

impl Frame {
    /// Where rows have their first place alone.
    pub fn first_place(self) -> Frame
        requires { IsFrame self }
        ensures frame { result ≡ first_place self }
        ensures right { IsFrame result }
    {
        Frame {
            stem: 0,
            places: 1,
            ..self
        }
    }
}
