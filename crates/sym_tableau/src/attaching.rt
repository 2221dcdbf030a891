//! The net with the oracles of a closure.

ghost use Rattle.std.specs.Prelude.{◌≡◌, All, IfOk};
ghost use Rattle.aig_net.specs.Nets.{IsNet, variables};
ghost use Rattle.sym_tableau.specs.Oracles as oracles;
ghost use Rattle.sym_tableau.specs.Oracles.{no_names, signal_in};
ghost use Rattle.sym_tableau.specs.Places.{ArePromised, AreWithin, AttachFits, HasRoom, Reaches, nexts_of, places_of, resets_of};

use crate::places::Places;
use crate::promises::{add_constraints, add_ends};
use crate::values::member_values;
use aig_net::{AndList, Gates, NameList, Net, NetParts, Reset, ResetList, Signals};
use hy_base::{List, M, NumList};
use ltl_closure::Closure;
use std::alloc::Global;

/// The ands of a net with oracles, its constraints and its fairness literals.
#[derive(Drop)]
pub struct Promised {
    pub ands: AndList,
    pub constraints: NumList,
    pub fairs: NumList,
}

/// The net with the oracles of a closure, where a signal that is missing is false: its executions
/// are those of the net on which the closure's roots hold. In time linear in the net and in the
/// closure, each of whose atoms is looked for among the signals.
pub fn attach(alloc: Global, net: &Net, closure: &Closure, signals: &Signals) -> M<Net>
    requires signals { AreWithin (variables net.now) signals.now }
    requires room { AttachFits net.now closure.now.nodes (signal_in signals.now)
        closure.now.roots }
    ensures { IfOk result (λ made. made ≡ oracles.attach net.now closure.now.nodes
        (signal_in signals.now) closure.now.roots) }
{
    net.variables(); // what each net keeps
    closure.len(); // and each closure
    let places = Places::of(net, closure);
    let parts = attached_parts(alloc, net, closure, signals, &places)?;
    Ok(Net::new(parts))
}

/// Makes all gates.
fn promise(
    alloc: Global,
    net: &Net,
    closure: &Closure,
    signals: &Signals,
    places: &Places,
) -> M<Promised>
    requires net { IsNet net.now }
    requires signals { AreWithin (variables net.now) signals.now }
    requires room { AttachFits net.now closure.now.nodes (signal_in signals.now)
        closure.now.roots }
    requires places { places.now ≡ places_of net.now closure.now.nodes }
    ensures { IfOk result (ArePromised net.now closure.now.nodes (signal_in signals.now)
        closure.now.roots) }
{
    let mut gates = Gates {
        first: places.first(net.latches().len() as u32),
        ands: places.ands(alloc, net.ands().as_slice())?,
    };
    let values = member_values(alloc, closure, places, signals, &mut gates)?;
    let mut constraints = places.literals(alloc, net.constraints().as_slice())?;
    add_constraints(
        closure,
        places,
        values.as_slice(),
        &mut gates,
        &mut constraints,
    )?;
    let mut fairs = places.literals(alloc, net.fairs().as_slice())?;
    add_ends(closure, values.as_slice(), &mut gates, &mut fairs)?;
    Ok(Promised {
        ands: gates.ands,
        constraints,
        fairs,
    })
}

/// The parts of the net with oracles.
fn attached_parts(
    alloc: Global,
    net: &Net,
    closure: &Closure,
    signals: &Signals,
    places: &Places,
) -> M<NetParts>
    requires net { IsNet net.now }
    requires signals { AreWithin (variables net.now) signals.now }
    requires room { AttachFits net.now closure.now.nodes (signal_in signals.now)
        closure.now.roots }
    requires places { places.now ≡ places_of net.now closure.now.nodes }
    ensures { IfOk result (λ parts. parts ≡ oracles.attach net.now closure.now.nodes
        (signal_in signals.now) closure.now.roots) }
{
    let Promised {
        ands,
        constraints,
        fairs,
    } = promise(alloc, net, closure, signals, places)?;
    let inputs = places.inputs + places.oracles;
    let latches = nexts(alloc, places, net.latches().as_slice())?;
    let many = latches.len();
    Ok(NetParts {
        inputs,
        latches,
        resets: resets(alloc, places, net.resets().as_slice())?,
        ands,
        outputs: places.literals(alloc, net.outputs().as_slice())?,
        constraints,
        fairs,
        input_names: without_names(alloc, inputs as usize)?,
        latch_names: without_names(alloc, many)?,
        output_names: without_names(alloc, net.outputs().len())?,
    })
}

/// The next literals of all latches, in time linear in them.
fn nexts(alloc: Global, places: &Places, latches: &[u32]) -> M<NumList>
    requires places { HasRoom places.now }
    requires reach { All (Reaches places.now) latches.now }
    ensures { IfOk result (λ made. made ≡ nexts_of places.now latches.now) }
{
    let mut made = List::new(alloc);
    for o in 0..places.oracles {
        made.push(places.oracle(o))?;
    }
    made.push(1)?;
    for literal in latches {
        made.push(places.literal(*literal))?;
    }
    Ok(made)
}

/// The resets of all latches, in time linear in them.
fn resets(alloc: Global, places: &Places, resets: &[Reset]) -> M<ResetList>
    ensures { IfOk result (λ made. made ≡ resets_of places.now resets.now) }
{
    let mut made = List::new(alloc);
    for o in 0..places.oracles {
        made.push(Reset::Zero)?;
    }
    made.push(Reset::Zero)?;
    for reset in resets {
        made.push(*reset)?;
    }
    Ok(made)
}

/// `n` times no name.
fn without_names(alloc: Global, n: usize) -> M<NameList>
    ensures { IfOk result (λ made. made ≡ no_names n) }
{
    let mut made = List::new(alloc);
    for i in 0..n {
        made.push(List::new(alloc))?;
    }
    Ok(made)
}
