//! The safe net of a net.

ghost use Rattle.std.specs.Prelude.{◌≡◌, [], ◌∷◌, ◌++◌, codes, IfOk, OnOk};
ghost use Rattle.aig_net.specs.Nets.{IsNet};
ghost use Rattle.live_safe.specs.Safe as safe;
ghost use Rattle.live_safe.specs.Safe.{closing, safe_ands, safe_latches};
ghost use Rattle.live_safe.specs.Places.{AreGates, AreNexts, SafeFits, latches_of, moved_of, no_names, places_of};

use crate::closing::{Nexts, close};
use crate::effective::effective_values;
use crate::moved::Moved;
use crate::places::Places;
use crate::safe_net::SafeNet;
use aig_net::{AndList, Gates, NameList, Net, NetParts, Reset};
use hy_base::{List, M, NumList};
use std::alloc::Global;

/// The safe net of a net: `bad` is reached from the start exactly where the net has a lasso
/// execution. In time and memory linear in the net.
pub fn to_safe(alloc: Global, net: &Net) -> M<SafeNet>
    requires { SafeFits net.now }
    ensures { IfOk result (λ made. made ≡ safe.to_safe net.now) }
{
    net.variables(); // what each net keeps
    let places = Places::of(net);
    let mut gates = Gates {
        first: places.first(),
        ands: List::new(alloc),
    };
    let moved = move_gates(alloc, net, &places, &mut gates)?;
    let nexts = close(alloc, net, &places, &moved, &mut gates)?;
    let bad = nexts.bad;
    let parts = safe_parts(alloc, net, places, &moved, &nexts, gates.ands)?;
    Ok(SafeNet {
        net: Net::new(parts),
        bad,
    })
}

/// Makes the effective values of the net's latches, and its ands over these.
fn move_gates(alloc: Global, net: &Net, places: &Places, gates: &mut Gates) -> M<Moved>
    requires net { IsNet net.now }
    requires room { SafeFits net.now }
    requires places { places.now ≡ places_of net.now }
    requires gates { AreGates net.now [] gates.old }
    ensures moved { IfOk result (λ moved. moved ≡ moved_of net.now) }
    ensures gates { OnOk result (AreGates net.now (safe_ands net.now) gates.new) }
{
    let values = effective_values(alloc, net.resets().as_slice(), places, gates)?;
    let moved = Moved {
        inputs: places.inputs,
        latches: places.latches,
        first: gates.first,
        made: gates.ands.len() as u32,
        values,
    };
    moved.add_ands(net.ands().as_slice(), gates)?;
    Ok(moved)
}

/// The parts of the safe net, where its ands and the next values of its latches are made.
fn safe_parts(
    alloc: Global,
    net: &Net,
    places: Places,
    moved: &Moved,
    nexts: &Nexts,
    ands: AndList,
) -> M<NetParts>
    requires net { IsNet net.now }
    requires room { SafeFits net.now }
    requires places { places ≡ places_of net.now }
    requires moved { moved.now ≡ moved_of net.now }
    requires nexts { AreNexts net.now nexts.now }
    requires ands { ands ≡ (closing net.now).ands }
    ensures { IfOk result (λ parts. parts ≡ (safe.to_safe net.now).net) }
{
    let latches = latch_nexts(alloc, net, moved, nexts, places.has_begun)?;
    let many = latches.len();
    Ok(NetParts {
        inputs: places.safe_inputs,
        latches,
        resets: List::filled(alloc, Reset::Zero, many)?,
        ands,
        outputs: only(alloc, nexts.bad)?,
        constraints: moved.literals(alloc, net.constraints().as_slice())?,
        fairs: List::new(alloc),
        input_names: without_names(alloc, places.safe_inputs as usize)?,
        latch_names: without_names(alloc, many)?,
        output_names: bad_name(alloc)?,
    })
}

/// The next literals of the safe net's latches.
fn latch_nexts(
    alloc: Global,
    net: &Net,
    moved: &Moved,
    nexts: &Nexts,
    has_begun: bool,
) -> M<NumList>
    requires net { IsNet net.now }
    requires room { SafeFits net.now }
    requires moved { moved.now ≡ moved_of net.now }
    requires nexts { AreNexts net.now nexts.now }
    requires begun { has_begun ≡ safe.has_begun net.now }
    ensures { IfOk result (λ made. made ≡ safe_latches net.now) }
{
    let own = moved.literals(alloc, net.latches().as_slice())?;
    let made = next_literals(alloc, nexts, own.as_slice(), has_begun)?;
    Ok(made)
}

/// One literal.
fn only(alloc: Global, literal: u32) -> M<NumList>
    ensures { IfOk result (λ made. made ≡ literal ∷ []) }
{
    let mut made = List::new(alloc);
    made.push(literal)?;
    Ok(made)
}

/// The name of the output.
fn bad_name(alloc: Global) -> M<NameList>
    ensures { IfOk result (λ made. made ≡ codes "bad" ∷ []) }
{
    let name = Vec::from_slice(alloc, b"bad")?;
    let mut made = List::new(alloc);
    made.push(List::from_vec(name))?;
    Ok(made)
}

/// The next literals of all latches, where `own` are those of the net's.
fn next_literals(alloc: Global, nexts: &Nexts, own: &[u32], has_begun: bool) -> M<NumList>
    ensures { IfOk result (λ made. made ≡ latches_of nexts.now own.now has_begun) }
{
    let mut made = List::new(alloc);
    made.push(nexts.saved)?;
    add_all(&mut made, nexts.seens.as_slice())?;
    add_all(&mut made, own)?;
    add_all(&mut made, nexts.copies.as_slice())?;
    if has_begun {
        made.push(1)?;
    }
    Ok(made)
}

/// Adds the literals last, in time linear in them.
fn add_all(made: &mut NumList, literals: &[u32]) -> M<()>
    ensures { OnOk result (made.new ≡ made.old ++ literals.now) }
{
    for literal in literals {
        made.push(*literal)?;
    }
    Ok(())
}

/// `n` times no name.
fn without_names(alloc: Global, n: usize) -> M<NameList>
    ensures { IfOk result (λ made. made ≡ no_names n) }
{
    let mut made = List::new(alloc);
    for i in 0..n {
        made.push(List::new(alloc))?;
    }
    Ok(made)
}
