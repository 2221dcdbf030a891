//! The copies of a net as one net.

ghost use Rattle.std.specs.Prelude.{◌≡◌, ◌≤◌, ◌<◌, ◌^◌, IfOk};
ghost use Rattle.aig_net.specs.Nets.{IsNet, variables};
ghost use Rattle.self_compose.specs.Copies as copies;

use crate::copied::copies;
use aig_net::{Net, NetParts};
use hy_base::M;
use std::alloc::Global;

/// `n` copies of a net side by side: input, latch, and, output, constraint and fairness literal j of
/// copy c stand at place j * n + c. The copies have no names. In time linear in the copies.
pub fn compose(alloc: Global, net: &Net, n: u8) -> M<Net>
    requires some { 0 < n }
    requires room { variables (copies.compose net.now n) ≤ 2 ^ 31 }
    ensures { IfOk result (λ made. made ≡ copies.compose net.now n) }
{
    net.variables(); // what each net keeps
    let parts = parts_of_copies(alloc, net, u32::from(n))?;
    Ok(Net::new(parts))
}

/// The parts of `n` copies of a net.
fn parts_of_copies(alloc: Global, net: &Net, n: u32) -> M<NetParts>
    requires net { IsNet net.now }
    requires room { variables (copies.compose net.now n) ≤ 2 ^ 31 }
    ensures { IfOk result (λ made. made ≡ copies.compose net.now n) }
{
    Ok(NetParts {
        inputs: net.inputs() * n,
        latches: copies(alloc, net.latches().as_slice(), n)?,
        resets: copies(alloc, net.resets().as_slice(), n)?,
        ands: copies(alloc, net.ands().as_slice(), n)?,
        outputs: copies(alloc, net.outputs().as_slice(), n)?,
        constraints: copies(alloc, net.constraints().as_slice(), n)?,
        fairs: copies(alloc, net.fairs().as_slice(), n)?,
        input_names: copies(alloc, net.input_names().as_slice(), n)?,
        latch_names: copies(alloc, net.latch_names().as_slice(), n)?,
        output_names: copies(alloc, net.output_names().as_slice(), n)?,
    })
}
