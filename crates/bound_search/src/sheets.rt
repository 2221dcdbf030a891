//! Sheets: the rows of a part of a body, one for each choice of members for its variables.

ghost use Rattle.std.specs.Prelude.{◌≡◌, ◌<◌, ◌^◌, ◌++◌, ◌∷◌, [], All, length, IfOk};
ghost use Rattle.bound_search.specs.Making.{IsFrame, IsSheet, first_place};
ghost use Rattle.bound_search.specs.Sheets.{constant_sheet, first_places, row_of};

use crate::connectives::{Binary, Unary};
use crate::frame::Frame;
use crate::gates::Gates;
use crate::names::with_all;
use crate::rows::{Row, constant, first_place};
use crate::tuples::{choices, place_among, tuple_at};
use hy_base::{List, M, NumList};
use std::alloc::Global;

/// The variables of a part, and a row for each choice of members for these.
#[derive(Drop)]
pub struct Sheet {
    pub variables: NumList,
    pub rows: List<Row>,
}

impl Sheet {
    /// The sheet of a body without variables, which holds or not.
    pub fn constant(alloc: Global, frame: Frame, value: bool) -> M<Sheet>
        ensures sheet { IfOk result (λ made. made ≡ constant_sheet frame value) }
        ensures right { IfOk result (IsSheet frame) }
    {
        let mut rows = List::new(alloc);
        rows.push(constant(alloc, value, frame.places)?)?;
        Ok(Sheet {
            variables: List::new(alloc),
            rows,
        })
    }

    /// The first places of its rows alone.
    pub fn first_places(&self, alloc: Global, frame: Frame) -> M<Sheet>
        requires frame { IsFrame frame }
        requires right { IsSheet frame self.now }
        ensures sheet { IfOk result (λ made. made ≡ first_places self.now) }
        ensures right { IfOk result (IsSheet (first_place frame)) }
    {
        let mut rows = List::new(alloc);
        for row in self.rows.as_slice() {
            rows.push(first_place(alloc, row)?)?;
        }
        Ok(Sheet {
            variables: self.variables.copy(alloc)?,
            rows,
        })
    }

    /// The row for the members that a tuple has.
    pub fn row(&self, frame: Frame, tuple: &NumList) -> &Row
        requires frame { IsFrame frame }
        requires right { IsSheet frame self.now }
        requires members { All (λ k. k < frame.traces) tuple.now }
        ensures row { result.now ≡ row_of frame self.now tuple.now }
        ensures long { length result.now ≡ frame.places }
    {
        self.rows.at(place_among(frame, &self.variables, tuple))
    }
}

impl Gates {
    ghost use Rattle.bound_search.specs.Making.{Draws};
    ghost use Rattle.bound_search.specs.Rows.{row_by_one, row_by_two};
    ghost use Rattle.bound_search.specs.Sheets.{by_choice, by_row};

    /// The sheet of an operator by that of its part.
    pub fn by_row(&mut self, alloc: Global, frame: Frame, op: Unary, part: &Sheet) -> M<Sheet>
        requires frame { IsFrame frame }
        requires right { IsSheet frame part.now }
        ensures drawn { IfOk result (λ made.
            Draws (by_row (row_by_one op frame.stem) part.now) self.old self.new made) }
        ensures right { IfOk result (IsSheet frame) }
    {
        let mut rows = List::new(alloc);
        for row in part.rows.as_slice() {
            rows.push(self.row_by_one(alloc, op, frame.stem, row)?)?;
        }
        Ok(Sheet {
            variables: part.variables.copy(alloc)?,
            rows,
        })
    }

    /// The sheet of an operator by those of its parts.
    pub fn by_choice(
        &mut self,
        alloc: Global,
        frame: Frame,
        op: Binary,
        left: &Sheet,
        right: &Sheet,
    ) -> M<Sheet>
        requires frame { IsFrame frame }
        requires left { IsSheet frame left.now }
        requires right { IsSheet frame right.now }
        ensures drawn { IfOk result (λ made. Draws
            (by_choice frame (row_by_two op frame.stem) left.now right.now)
            self.old self.new made) }
        ensures right { IfOk result (IsSheet frame) }
    {
        let variables = with_all(alloc, &left.variables, &right.variables)?;
        let mut rows = List::new(alloc);
        for place in 0..choices(frame, variables.len())? {
            let tuple = tuple_at(alloc, frame, &variables, place)?;
            let l = left.row(frame, &tuple);
            let r = right.row(frame, &tuple);
            rows.push(self.row_by_two(alloc, op, frame.stem, l, r)?)?;
        }
        Ok(Sheet { variables, rows })
    }
}
