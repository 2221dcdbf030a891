//! The operators of bodies, and the rows that are drawn by them.

ghost use Rattle.std.specs.Prelude.{◌≡◌, ◌<◌, length, IfOk};
ghost use Rattle.bound_search.specs.Shapes.{is_temporal_one, is_temporal_two};

use crate::gates::Gates;
use crate::operator::Operator;
use crate::rows::{Row, next_row, turned};
use hy_base::M;
use std::alloc::Global;

/// The operators of one part.
#[derive(Clone, Copy)]
pub enum Unary {
    Not,
    Next,
    Finally,
    Globally,
}

/// The operators of two parts.
#[derive(Clone, Copy)]
pub enum Binary {
    And,
    Or,
    Implies,
    Iff,
    Until,
    Release,
    Weak,
}

impl Unary {
    /// Whether it speaks of more than one position.
    pub fn is_temporal(self) -> bool
        ensures { result ≡ is_temporal_one self }
    {
        !matches!(self, Unary::Not)
    }
}

impl Binary {
    /// Whether it speaks of more than one position.
    pub fn is_temporal(self) -> bool
        ensures { result ≡ is_temporal_two self }
    {
        matches!(self, Binary::Until | Binary::Release | Binary::Weak)
    }
}

impl Gates {
    ghost use Rattle.bound_search.specs.Making.{Draws};
    ghost use Rattle.bound_search.specs.Rows.{row_by_one, row_by_two};

    /// The row of an operator by that of its part, where behind the last place stands the one at
    /// `s`.
    pub fn row_by_one(&mut self, alloc: Global, op: Unary, s: usize, row: &Row) -> M<Row>
        requires { s < length row.now }
        ensures drawn { IfOk result (λ made.
            Draws (row_by_one op s row.now) self.old self.new made) }
        ensures long { IfOk result (λ made. length made ≡ length row.now) }
    {
        match op {
            Unary::Not => turned(alloc, row),
            Unary::Next => next_row(alloc, s, row),
            Unary::Finally => self.finally_row(alloc, s, row),
            Unary::Globally => self.globally_row(alloc, s, row),
        }
    }

    /// The row of an operator by those of its parts, where behind the last place stands the one at
    /// `s`.
    pub fn row_by_two(
        &mut self,
        alloc: Global,
        op: Binary,
        s: usize,
        left: &Row,
        right: &Row,
    ) -> M<Row>
        requires even { length left.now ≡ length right.now }
        requires inside { s < length left.now }
        ensures drawn { IfOk result (λ row.
            Draws (row_by_two op s left.now right.now) self.old self.new row) }
        ensures long { IfOk result (λ row. length row ≡ length left.now) }
    {
        match op {
            Binary::And => self.pairs(alloc, Operator::Both, left, right),
            Binary::Or => self.pairs(alloc, Operator::Either, left, right),
            Binary::Implies => {
                let no_left = turned(alloc, left)?;
                self.pairs(alloc, Operator::Either, &no_left, right)
            }
            Binary::Iff => self.pairs(alloc, Operator::Alike, left, right),
            Binary::Until => self.until_row(alloc, s, left, right),
            Binary::Release => self.release_row(alloc, s, left, right),
            Binary::Weak => {
                let one = self.pairs(alloc, Operator::Either, left, right)?;
                self.release_row(alloc, s, right, &one)
            }
        }
    }
}
