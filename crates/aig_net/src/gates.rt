//! The values of literals and ands.

ghost use Rattle.std.specs.Prelude.{◌≡◌, ◌+◌, ◌/◌, ◌<◌, ◌≤◌, length, take};
ghost use Rattle.aig_net.specs.Nets.{AreOrdered, AreRight, literal_value};
ghost use Rattle.hy_base.specs.Rows.{row};

use crate::parts::And;

/// The value of a literal, where `values` has that of each variable.
pub fn value_of(values: &[bool], literal: u32) -> bool
    requires { literal / 2 < length values.now }
    ensures { result ≡ literal_value (row values.now) literal }
{
    let value = values[(literal / 2) as usize];
    if literal % 2 == 0 { value } else { !value }
}

/// Gives the ands their values, from variable `first` on, in time linear in them.
pub fn fill(ands: &[And], first: usize, values: &mut [bool])
    requires ordered { AreOrdered first ands.now }
    requires room { first + length ands.now ≤ length values.old }
    ensures right { AreRight first ands.now (row values.new) }
    ensures given { take first values.new ≡ take first values.old }
{
    for (i, gate) in ands.iter().enumerate() {
        let left = value_of(values, gate.left);
        let right = value_of(values, gate.right);
        values[first + i] = left & right;
    }
}
