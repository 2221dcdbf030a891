//! The values of one copy, in rows of those of all copies.

ghost use Rattle.std.specs.Prelude.{◌≡◌, ℕ, ◌*◌, ◌<◌, ◌≤◌, length, map, IfOk};
ghost use Rattle.aig_net.specs.Copies.{own_values};
ghost use Rattle.aig_net.specs.Following.{row_at};

use crate::run::{Row, RowList};
use hy_base::{List, M};
use std::alloc::Global;

/// The `many` values of copy `c` of `n`: those at place `c` and each `n` places on.
#[tactic(auto, using(hy_base::proofs::Listed::listed_next))]
pub fn own_row(alloc: Global, values: &[bool], many: usize, n: usize, c: usize) -> M<Row>
    requires copy { c < n }
    requires long { many * n ≤ length values.now }
    ensures { IfOk result (λ made. made ≡ own_values many n c values.now) }
{
    let mut made = List::new(alloc);
    for j in 0..many {
        made.push(values[j * n + c])?;
    }
    Ok(made)
}

/// The same of each row, in time linear in the values of the copy.
pub fn own_rows(alloc: Global, rows: &[Row], many: usize, n: usize, c: usize) -> M<RowList>
    requires copy { c < n }
    requires long { (i : ℕ) → i < length rows.now → many * n ≤ length (row_at rows.now i) }
    ensures { IfOk result (λ made. made ≡ map (own_values many n c) rows.now) }
{
    let mut made = List::new(alloc);
    for values in rows {
        made.push(own_row(alloc, values.as_slice(), many, n, c)?)?;
    }
    Ok(made)
}
