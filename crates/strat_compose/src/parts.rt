//! The parts of a driven net, and where they stand.

ghost use Rattle.std.specs.Prelude.{◌≡◌, suc, ◌+◌, ◌*◌, ◌≤◌, ◌<◌, ◌^◌, length, IfOk};
ghost use Rattle.hy_base.specs.Rows.{listed};
ghost use Rattle.strat_compose.specs.Driving as Driving;
ghost use Rattle.strat_compose.specs.Driving.{IsSmall, IsStrategy, existential_of as existential_by, first_gate, player_of as player_by, universal_of as universal_by};
ghost use Rattle.strat_compose.specs.Groups.{HasRoom};

use crate::group::Group;
use aig_net::Net;
use hy_base::{List, M, NumList};
use std::alloc::Global;

/// Where the parts of a driven net stand.
#[derive(Drop)]
pub struct Parts {
    /// The copies of the circuit whose inputs are free.
    pub universal: Group,
    /// The strategy, which reads these inputs.
    pub player: Group,
    /// The copies of the circuit whose inputs are the strategy's outputs.
    pub existential: Group,
}

/// Where `m` universal copies, the strategy and `e` existential copies stand. In time linear in the
/// inputs of the copies.
pub fn parts_of(alloc: Global, net: &Net, strategy: &Net, m: u32, e: u32) -> M<Parts>
    requires small { IsSmall net.now }
    requires slight { IsSmall strategy.now }
    requires shape { IsStrategy net.now strategy.now m e }
    requires universal { 0 < m }
    requires existential { 0 < e }
    requires few { m + e ≤ 4 }
    ensures { IfOk result (λ parts. parts ≡ Driving.parts_of net.now strategy.now m e) }
{
    let universal = universal_of(alloc, net, strategy, m, e)?;
    let player = player_of(alloc, net, strategy, m, e)?;
    let existential = existential_of(alloc, net, strategy, m, e, &player)?;
    Ok(Parts {
        universal,
        player,
        existential,
    })
}

/// Where the universal copies stand.
fn universal_of(alloc: Global, net: &Net, strategy: &Net, m: u32, e: u32) -> M<Group>
    requires small { IsSmall net.now }
    requires slight { IsSmall strategy.now }
    requires few { m + e ≤ 4 }
    ensures { IfOk result (λ made. made ≡ universal_by net.now strategy.now m e) }
{
    items_are_few(net, strategy, m, e);
    let inputs = net.inputs() * m;
    Ok(Group {
        copies: m,
        inputs: own_inputs(alloc, inputs)?,
        latch: 1 + inputs,
        gate: gate_of(net, strategy, m, e),
    })
}

/// Where the strategy stands.
fn player_of(alloc: Global, net: &Net, strategy: &Net, m: u32, e: u32) -> M<Group>
    requires small { IsSmall net.now }
    requires slight { IsSmall strategy.now }
    requires few { m + e ≤ 4 }
    ensures { IfOk result (λ made. made ≡ player_by net.now strategy.now m e) }
{
    items_are_few(net, strategy, m, e);
    let inputs = net.inputs() * m;
    let latches = net.latches().len() as u32;
    let ands = net.ands().len() as u32;
    Ok(Group {
        copies: 1,
        inputs: own_inputs(alloc, inputs)?,
        latch: 1 + (inputs + (latches * m + latches * e)),
        gate: gate_of(net, strategy, m, e) + ands * m,
    })
}

/// Where the existential copies stand.
fn existential_of(
    alloc: Global,
    net: &Net,
    strategy: &Net,
    m: u32,
    e: u32,
    player: &Group,
) -> M<Group>
    requires small { IsSmall net.now }
    requires slight { IsSmall strategy.now }
    requires few { m + e ≤ 4 }
    requires player { player.now ≡ player_by net.now strategy.now m e }
    requires room { HasRoom strategy.now player.now }
    ensures { IfOk result (λ made. made ≡ existential_by net.now strategy.now m e) }
{
    items_are_few(net, strategy, m, e);
    strategy.variables(); // what each net keeps
    let inputs = net.inputs() * m;
    let latches = net.latches().len() as u32;
    let ands = net.ands().len() as u32;
    let moves = strategy.ands().len() as u32;
    Ok(Group {
        copies: e,
        inputs: player.literals(alloc, strategy, strategy.outputs().as_slice())?,
        latch: 1 + (inputs + latches * m),
        gate: gate_of(net, strategy, m, e) + (ands * m + moves),
    })
}

/// The variable of the first and.
fn gate_of(net: &Net, strategy: &Net, m: u32, e: u32) -> u32
    requires small { IsSmall net.now }
    requires slight { IsSmall strategy.now }
    requires few { m + e ≤ 4 }
    ensures { result ≡ first_gate net.now strategy.now m e }
{
    items_are_few(net, strategy, m, e);
    let latches = net.latches().len() as u32;
    let all = latches * m + latches * e + strategy.latches().len() as u32;
    1 + (net.inputs() * m + all)
}

/// The literals of the first `n` variables, in time linear in them.
#[tactic(auto, using(hy_base::proofs::Listed::listed_next))]
fn own_inputs(alloc: Global, n: u32) -> M<NumList>
    requires { n < 2 ^ 30 }
    ensures { IfOk result (λ made. made ≡ listed 0 n (λ i. 2 * suc i)) }
{
    let mut made = List::new(alloc);
    for i in 0..n {
        made.push(2 * (i + 1))?;
    }
    Ok(made)
}

/// Inputs, latches and ands of all copies are fewer than 2^23.
fn items_are_few(net: &Net, strategy: &Net, m: u32, e: u32)
    requires small { IsSmall net.now }
    requires slight { IsSmall strategy.now }
    requires few { m + e ≤ 4 }
    ensures own { net.now.inputs + length net.now.latches + length net.now.ands ≤ 1048576 }
    ensures strategy { strategy.now.inputs + length strategy.now.latches
        + length strategy.now.ands ≤ 1048576 }
    ensures inputs { net.now.inputs * m ≤ 4194304 }
    ensures latches { length net.now.latches * m + length net.now.latches * e ≤ 4194304 }
    ensures ands { length net.now.ands * m + length net.now.ands * e ≤ 4194304 }
{}
