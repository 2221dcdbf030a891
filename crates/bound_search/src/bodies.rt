//! What a body says, part by part, drawn by gates.

ghost use Rattle.std.specs.Prelude.{IfOk};
ghost use Rattle.bound_search.specs.Bounds.{IsBound};
ghost use Rattle.bound_search.specs.Making.{IsSheet, first_place};
ghost use Rattle.bound_search.specs.Shapes.{body_shape};

use crate::asked::Asked;
use crate::gates::Gates;
use crate::parts::{Parts, parts_of};
use crate::sheets::Sheet;
use hy_base::M;
use hy_formula::Body;
use std::alloc::Global;

impl Gates {
    ghost use Rattle.bound_search.specs.Making.{Draws};
    ghost use Rattle.bound_search.specs.Tuples.{asked_first_sheet, asked_frame, asked_sheet};

    /// The sheet of a body, from its parts upwards.
    pub fn sheet(&mut self, alloc: Global, asked: &Asked, body: &Body) -> M<Sheet>
        requires { IsBound asked.now.bound }
        ensures drawn { IfOk result (λ made.
            Draws (asked_sheet asked.now (body_shape body.now)) self.old self.new made) }
        ensures right { IfOk result (IsSheet (asked_frame asked.now)) }
    {
        let frame = asked.frame();
        match parts_of(body) {
            Parts::Constant(value) => Sheet::constant(alloc, frame, value),
            Parts::Atom(a) => asked.atom(alloc, a),
            Parts::One(op, f) => {
                let part = self.sheet(alloc, asked, f)?;
                self.by_row(alloc, frame, op, &part)
            }
            Parts::Two(op, f, g) => {
                let left = self.sheet(alloc, asked, f)?;
                let right = self.sheet(alloc, asked, g)?;
                self.by_choice(alloc, frame, op, &left, &right)
            }
        }
    }

    /// The first places of the sheet of a body. Above the temporal operators no other is needed.
    pub fn first_sheet(&mut self, alloc: Global, asked: &Asked, body: &Body) -> M<Sheet>
        requires { IsBound asked.now.bound }
        ensures drawn { IfOk result (λ made.
            Draws (asked_first_sheet asked.now (body_shape body.now)) self.old self.new made) }
        ensures right { IfOk result (IsSheet (first_place (asked_frame asked.now))) }
    {
        let whole = asked.frame();
        let frame = whole.first_place();
        match parts_of(body) {
            Parts::One(op, f) if !op.is_temporal() => {
                let part = self.first_sheet(alloc, asked, f)?;
                self.by_row(alloc, frame, op, &part)
            }
            Parts::Two(op, f, g) if !op.is_temporal() => {
                let left = self.first_sheet(alloc, asked, f)?;
                let right = self.first_sheet(alloc, asked, g)?;
                self.by_choice(alloc, frame, op, &left, &right)
            }
            _ => {
                let part = self.sheet(alloc, asked, body)?;
                part.first_places(alloc, whole)
            }
        }
    }
}
