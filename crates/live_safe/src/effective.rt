//! The effective values of latches: at the start those of their resets, later their own.

ghost use Rattle.std.specs.Prelude.{◌≡◌, ◌+◌, ◌<◌, ◌^◌, length, IfOk};
ghost use Rattle.aig_net.specs.Wires.{Fits, FitsAll, Makes, MakesAll};
ghost use Rattle.hy_base.specs.Rows.{listed};
ghost use Rattle.live_safe.specs.Safe.{effective_wire};
ghost use Rattle.live_safe.specs.Places.{HasRoom, effective_of, free_before};

use crate::places::{Places, is_free};
use aig_net::{Gates, Reset, opposite_of};
use hy_base::{List, M, NumList};
use std::alloc::Global;

/// The value of a latch with this literal and reset; `input` gives that of an uninitialised one at
/// the start.
fn effective(gates: &mut Gates, latch: u32, begun: u32, input: u32, reset: Reset) -> M<u32>
    requires { Fits gates.old.first gates.old.ands (effective_wire latch begun input reset) }
    ensures made { IfOk result (Makes gates.old.first gates.old.ands
        (effective_wire latch begun input reset) gates.new.ands) }
    ensures first { gates.new.first ≡ gates.old.first }
{
    match reset {
        Reset::Zero => Ok(latch),
        Reset::One => gates.either(latch, opposite_of(begun)),
        Reset::Free => gates.choose(begun, latch, input),
    }
}

/// The effective value of each latch, in time linear in them.
pub fn effective_values(
    alloc: Global,
    resets: &[Reset],
    places: &Places,
    gates: &mut Gates,
) -> M<NumList>
    requires latches { HasRoom places.now }
    requires many { length resets.now ≡ places.now.latches }
    requires inputs { places.now.inputs + free_before resets.now (length resets.now)
        < places.now.safe_inputs }
    requires room { FitsAll gates.old.first gates.old.ands
        (listed 0 (length resets.now) (effective_of places.now resets.now)) }
    ensures made { IfOk result (MakesAll gates.old.first gates.old.ands
        (listed 0 (length resets.now) (effective_of places.now resets.now)) gates.new.ands) }
    ensures first { gates.new.first ≡ gates.old.first }
{
    let mut values = List::new(alloc);
    let mut free = 0;
    for (j, reset) in resets.iter().enumerate() {
        let latch = places.latch(j as u32);
        let input = places.free_input(free);
        let value = effective(gates, latch, places.begun(), input, *reset)?;
        values.push(value)?;
        free += u32::from(is_free(*reset));
    }
    Ok(values)
}
