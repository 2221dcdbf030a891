//! Truth values of bodies at all positions: rows of words of 64 bits, the last position at the lowest
//! place, and one row behind another.

ghost use Rattle.std.specs.Prelude.{◌≡◌, ◌+◌, ◌-◌, ◌*◌, ◌≤◌, length};
ghost use Rattle.hy_finite.specs.Rows.{IsApplied};

use crate::rule::Rule;
use hy_base::List;

/// Rows of one width, the last of them on top.
pub type Rows = List<u64>;

/// Puts the row of a body in place of that of its part, which is on top. In time linear in the width.
pub fn unary(rule: Rule, rows: &mut Rows, width: usize)
    requires { width ≤ length rows.old }
    ensures applied { let base = length rows.old - width in
        IsApplied rule rows.old rows.new base base width }
    ensures long { length rows.new ≡ length rows.old }
{
    let base = rows.len() - width;
    apply(rule, rows, base, base);
}

/// Puts the row of a body in place of those of its two parts, the right one on top. In time linear in
/// the width.
pub fn binary(rule: Rule, rows: &mut Rows, width: usize)
    requires { 2 * width ≤ length rows.old }
    ensures applied { let base = length rows.old - 2 * width in
        IsApplied rule rows.old rows.new base (base + width) width }
    ensures long { length rows.new + width ≡ length rows.old }
{
    let other = rows.len() - width;
    apply(rule, rows, other - width, other);
    rows.truncate(other);
}

/// Puts the row of a body in place of the row at `base`, that of its left part; the right one stands
/// from `other` on to the top.
fn apply(rule: Rule, rows: &mut Rows, base: usize, other: usize)
    requires order { base ≤ other }
    requires there { other ≤ length rows.old }
    ensures applied { IsApplied rule rows.old rows.new base other (length rows.old - other) }
    ensures long { length rows.new ≡ length rows.old }
{
    let mut carry = rule.start();
    for k in 0..rows.len() - other {
        let left = *rows.at(base + k);
        let word = rule.word(left, *rows.at(other + k), carry);
        rows.set(base + k, word);
        carry = rule.carry(left, word);
    }
}
