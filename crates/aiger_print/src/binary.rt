//! The ands of the binary form.

ghost use Rattle.std.specs.Prelude.{◌≡◌, ◌++◌, ◌≤◌, ◌<◌, ◌^◌, length, OnOk};
ghost use Rattle.std.specs.List.{flat_map, range_with_len};
ghost use Rattle.aig_net.specs.Nets.{IsNet, variables};
ghost use Rattle.aiger_print.specs.Printed.{groups_of, and_groups, deltas_of};

use aig_net::{And, Net};
use hy_base::{M, Text};

/// Adds the ands, each as the differences of its variable's literal and its right sides.
#[tactic(auto, using(crate::proofs::Listing::listed_more))]
pub fn push_deltas(text: &mut Text, net: &Net) -> M<()>
    requires net { IsNet net.now }
    requires room { variables net.now ≤ 2 ^ 31 }
    ensures { OnOk result (
        text.new ≡ text.old ++
        flat_map (deltas_of net.now) (range_with_len 0 (length net.now.ands))) }
{
    let first = 1 + net.inputs() + net.latches().len() as u32;
    let ands = net.ands().as_slice();
    for j in 0..ands.len() {
        push_and(text, 2 * (first + j as u32), &ands[j])?;
    }
    Ok(())
}

/// Adds the and of the variable with this literal.
fn push_and(text: &mut Text, lhs: u32, gate: &And) -> M<()>
    requires left { gate.now.left ≤ lhs }
    requires right { gate.now.right ≤ gate.now.left }
    ensures { OnOk result (text.new ≡ text.old ++ and_groups lhs gate.now) }
{
    push_groups(text, lhs - gate.left)?;
    push_groups(text, gate.left - gate.right)
}

/// Adds a number in groups of 7 bits, least first; each byte but the last has its high bit set.
#[tactic(auto, unfolding(crate::specs::Printed::groups_of))]
fn push_groups(text: &mut Text, n: u32) -> M<()>
    ensures { OnOk result (text.new ≡ text.old ++ groups_of 9 n) }
{
    let mut left = n;
    while left >= 128 {
        text.push(128 + (left % 128) as u8)?;
        left /= 128;
    }
    text.push(left as u8)
}
