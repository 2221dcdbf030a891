//! What is asked of the members of a list.

ghost use Rattle.std.specs.Prelude.{◌≡◌, ◌<◌, ◌≤◌, length, IfOk};
ghost use Rattle.bound_search.specs.Bounds.{IsBound};
ghost use Rattle.bound_search.specs.Making.{IsFrame, IsSheet};
ghost use Rattle.bound_search.specs.Queries.{letters_row, places};
ghost use Rattle.bound_search.specs.Sheets.{atom_sheet};
ghost use Rattle.bound_search.specs.Tuples.{asked_frame};

use crate::bound::Bound;
use crate::frame::Frame;
use crate::layout::letters;
use crate::names::place_of;
use crate::rows::Row;
use crate::sheets::Sheet;
use crate::wire::Wire;
use hy_base::{List, M, NumList};
use hy_formula::{Atom, Formula};
use std::alloc::Global;

/// A formula, and where the variables of its query stand.
#[derive(Clone, Copy)]
pub struct Asked<'a> {
    pub formula: &'a Formula,
    pub names: &'a NumList,
    pub bound: Bound,
}

impl Asked<'_> {
    /// What the rows have in common.
    pub fn frame(&self) -> Frame
        requires bound { IsBound self.now.bound }
        ensures frame { result ≡ asked_frame self.now }
        ensures right { IsFrame result }
    {
        Frame {
            traces: self.bound.traces as usize,
            quantifiers: self.formula.prefix.len(),
            stem: self.bound.stem as usize,
            places: self.bound.places(),
        }
    }

    /// Whether the letter of member `t` has the name, at each place.
    fn letters_row(&self, alloc: Global, name: u32, t: u32) -> M<Row>
        requires bound { IsBound self.now.bound }
        ensures values { IfOk result (λ row. row ≡
            letters_row self.now.names.now self.now.bound name t) }
        ensures long { IfOk result (λ row. length row ≡ places self.now.bound) }
    {
        let start = letters(self.names, self.bound, t, place_of(name, self.names))?;
        let mut row = List::new(alloc);
        for i in 0..self.bound.places() as u32 {
            row.push(Wire::further(start + i))?;
        }
        Ok(row)
    }

    /// The sheet of an atom.
    pub fn atom(&self, alloc: Global, a: Atom) -> M<Sheet>
        requires bound { IsBound self.now.bound }
        ensures sheet { IfOk result (λ made. made ≡ atom_sheet (asked_frame self.now)
            (letters_row self.now.names.now self.now.bound a.name) a.var) }
        ensures right { IfOk result (IsSheet (asked_frame self.now)) }
    {
        let mut rows = List::new(alloc);
        for t in 0..self.bound.traces as u32 {
            rows.push(self.letters_row(alloc, a.name as u32, t)?)?;
        }
        Ok(Sheet {
            variables: List::filled(alloc, a.var as u32, 1)?,
            rows,
        })
    }
}
