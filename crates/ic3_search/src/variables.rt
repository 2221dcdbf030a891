//! Which variables of a net are its latches and its ands.

ghost use Rattle.std.specs.Prelude.{◌≡◌, suc, ◌+◌, ◌≤◌, ◌^◌, length};

use aig_net::Net;

/// The variable of the first latch, behind the constant and the inputs.
pub(crate) fn first_latch(net: &Net) -> u32
    ensures first { result ≡ suc net.now.inputs }
    ensures room { result + length net.now.latches + length net.now.ands ≤ 2 ^ 31 }
{
    net.variables(); // what each net keeps
    1 + net.inputs()
}

/// The variable of the first and.
pub(crate) fn first_and(net: &Net) -> u32
    ensures first { result ≡ suc net.now.inputs + length net.now.latches }
    ensures room { result + length net.now.ands ≤ 2 ^ 31 }
{
    first_latch(net) + net.latches().len() as u32
}
