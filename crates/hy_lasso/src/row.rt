//! Truth values of bodies at the positions of a stem and a cycle.

ghost use Rattle.std.specs.Prelude.{◌≡◌, ℕ, suc, ◌+◌, ◌<◌, not, ◌&&◌, ◌||◌, ◌⊎◌, length, replicate, IfOk, IsTrue, EachIndex};
ghost use Rattle.std.specs.Bool.{beq, Decides};
ghost use Rattle.hy_formula.specs.Temporal.{endless, IsUntil, IsRelease};
ghost use Rattle.hy_lasso.specs.Rows.{value_at, around, Says, Tells};

use hy_base::{List, M};
use std::alloc::Global;

/// Truth values, one for each position of a stem and a cycle. From the place `stem` on the row is
/// gone round for ever, so it says what holds at each position.
///
/// The operations work in place, in time linear in the row.
pub type Row = List<bool>;

/// The same truth value at each of `places` places.
pub fn constant(alloc: Global, value: bool, places: usize) -> M<Row>
    ensures { IfOk result (λ row. row ≡ replicate places value) }
{
    let mut row = List::new(alloc);
    for _place in 0..places {
        row.push(value)?;
    }
    Ok(row)
}

/// The truth value at place `i`.
fn value(row: &Row, i: usize) -> bool
    requires { i < length row.now }
    ensures { result ≡ value_at row.now i }
{
    *row.at(i)
}

/// Negates each value.
pub fn negate(mut row: Row) -> Row
    ensures long { length result ≡ length row }
    ensures values { EachIndex row (λ i. value_at result i ≡ not (value_at row i)) }
{
    for i in 0..row.len() {
        let here = !value(&row, i);
        row.set(i, here);
    }
    row
}

/// What holds at each place where both hold.
pub fn and(mut left: Row, right: &Row) -> Row
    requires { length left ≡ length right.now }
    ensures long { length result ≡ length left }
    ensures values { EachIndex left
        (λ i. value_at result i ≡ (value_at left i && value_at right.now i)) }
{
    for i in 0..left.len() {
        let here = value(&left, i) && value(right, i);
        left.set(i, here);
    }
    left
}

/// What holds at each place where either holds.
pub fn or(mut left: Row, right: &Row) -> Row
    requires { length left ≡ length right.now }
    ensures long { length result ≡ length left }
    ensures values { EachIndex left
        (λ i. value_at result i ≡ (value_at left i || value_at right.now i)) }
{
    for i in 0..left.len() {
        let here = value(&left, i) || value(right, i);
        left.set(i, here);
    }
    left
}

/// What holds at each place where both hold or neither does.
pub fn iff(mut left: Row, right: &Row) -> Row
    requires { length left ≡ length right.now }
    ensures long { length result ≡ length left }
    ensures values { EachIndex left
        (λ i. value_at result i ≡ beq (value_at left i) (value_at right.now i)) }
{
    for i in 0..left.len() {
        let here = value(&left, i) == value(right, i);
        left.set(i, here);
    }
    left
}

/// Next: each value is the one at the next place, and behind the last stands that at `stem`.
pub fn next(mut row: Row, stem: usize) -> Row
    requires { stem < length row }
    ensures { Tells stem (length row) result (λ i. Says stem row (i + 1)) }
{
    let last = row.len() - 1;
    let behind = value(&row, stem);
    for i in 0..last {
        let here = value(&row, i + 1);
        row.set(i, here);
    }
    row.set(last, behind);
    row
}

/// Whether until holds at a position: whether its right side holds there, its left side does, and
/// until holds at the next.
fn until_here(right: bool, left: bool, later: bool) -> bool
    ensures { result ≡ (right || (left && later)) }
{
    right || (left && later)
}

/// Until: `right` holds at some position from here on, and `left` at each position before that one.
/// Goes round the cycle once to know what holds behind the last place, and then from the last place
/// to the first.
pub fn until(left: &Row, mut right: Row, stem: usize) -> Row
    requires cycle { stem < length right }
    requires even { length left.now ≡ length right }
    ensures { Tells stem (length right) result
        (IsUntil endless (Says stem left.now) (Says stem right)) }
{
    let mut later = until_at_seam(left, &right, stem);
    for i in (0..right.len()).rev() {
        later = until_here(value(&right, i), value(left, i), later);
        right.set(i, later);
    }
    right
}

/// Whether until holds at the place `stem`, which also stands behind the last one.
fn until_at_seam(left: &Row, right: &Row, stem: usize) -> bool
    requires cycle { stem < length right.now }
    requires even { length left.now ≡ length right.now }
    ensures { Decides result (IsUntil endless (Says stem left.now) (Says stem right.now) stem) }
{
    let mut later = false;
    for i in (stem..right.len()).rev() {
        later = until_here(value(right, i), value(left, i), later);
    }
    later
}

/// Release: not until of the negations.
pub fn release(left: Row, right: Row, stem: usize) -> Row
    requires cycle { stem < length right }
    requires even { length left ≡ length right }
    ensures { Tells stem (length right) result
        (IsRelease endless (Says stem left) (Says stem right)) }
{
    negate(until(&negate(left), negate(right), stem))
}

/// Weak until: release of either, by `right`.
pub fn weak(left: Row, right: Row, stem: usize) -> Row
    requires cycle { stem < length right }
    requires even { length left ≡ length right }
    ensures { Tells stem (length right) result
        (IsRelease endless (Says stem right) (λ k. Says stem left k ⊎ Says stem right k)) }
{
    let either = or(left, &right);
    release(right, either, stem)
}

/// Finally: until of what always holds.
pub fn finally(mut row: Row, stem: usize) -> Row
    requires { stem < length row }
    ensures { Tells stem (length row) result (IsUntil endless (λ k. Unit {0}) (Says stem row)) }
{
    let mut later = finally_at_seam(&row, stem);
    for i in (0..row.len()).rev() {
        later = until_here(value(&row, i), true, later);
        row.set(i, later);
    }
    row
}

/// Whether finally holds at the place `stem`, which also stands behind the last one.
fn finally_at_seam(row: &Row, stem: usize) -> bool
    requires { stem < length row.now }
    ensures { Decides result (IsUntil endless (λ k. Unit {0}) (Says stem row.now) stem) }
{
    let mut later = false;
    for i in (stem..row.len()).rev() {
        later = until_here(value(row, i), true, later);
    }
    later
}

/// Globally: release of what never holds.
pub fn globally(row: Row, stem: usize) -> Row
    requires { stem < length row }
    ensures { Tells stem (length row) result (IsRelease endless (λ k. ⊥) (Says stem row)) }
{
    negate(finally(negate(row), stem))
}
