//! The gates that save the latches, watch the fairness literals and tell a closed round.

ghost use Rattle.std.specs.Prelude.{◌≡◌, ◌<◌, ◌≤◌, ◌^◌, [], ◌∷◌, length, All, IfOk, OnOk};
ghost use Rattle.aig_net.specs.Nets.{IsNet};
ghost use Rattle.aig_net.specs.Wires.{Fits, FitsAll, Makes, MakesAll};
ghost use Rattle.hy_base.specs.Rows.{listed};
ghost use Rattle.live_safe.specs.Safe.{closing, safe_ands};
ghost use Rattle.live_safe.specs.Places.{AreGates, AreNexts, HasRoom, Reaches, SafeFits, bad_of, copy_next_of, moved_of, places_of, saving_of, seen_next, seen_next_of};

use crate::moved::Moved;
use crate::places::Places;
use aig_net::{Gates, Net, opposite_of};
use hy_base::{List, M, NumList};
use std::alloc::Global;

/// The next values of a safe net's latches but for those of the net, and its `bad`.
#[derive(Drop)]
pub struct Nexts {
    pub saved: u32,
    pub seens: NumList,
    pub copies: NumList,
    pub bad: u32,
}

/// What is known of saving in a step.
#[derive(Clone, Copy)]
struct Saving {
    /// Whether the latches are copied in this step.
    pub grab: u32,
    /// Whether they are saved after it.
    pub saved: u32,
}

/// `grab`, and the next value of `saved`: two ands.
fn make_saving(places: &Places, gates: &mut Gates) -> M<Saving>
    requires latches { HasRoom places.now }
    requires inputs { places.now.inputs < places.now.safe_inputs }
    requires room { FitsAll gates.old.first gates.old.ands (saving_of places.now) }
    ensures made { IfOk result (λ made. MakesAll gates.old.first gates.old.ands
        (saving_of places.now) gates.new.ands (made.grab ∷ made.saved ∷ [])) }
    ensures first { gates.new.first ≡ gates.old.first }
{
    let take = places.take();
    let saved = places.saved();
    let grab = gates.both(take, opposite_of(saved))?;
    let next = gates.either(saved, take)?;
    Ok(Saving { grab, saved: next })
}

/// Whether the latches are saved after the step, and the fairness literal is true in it or was
/// since they were saved: three ands.
fn seen_after(gates: &mut Gates, next: u32, fair: u32, saved: u32, seen: u32) -> M<u32>
    requires { Fits gates.old.first gates.old.ands (seen_next next fair saved seen) }
    ensures made { IfOk result (Makes gates.old.first gates.old.ands
        (seen_next next fair saved seen) gates.new.ands) }
    ensures first { gates.new.first ≡ gates.old.first }
{
    let before = gates.both(saved, seen)?;
    let now = gates.either(fair, before)?;
    gates.both(next, now)
}

/// The next value of each `seen`, where `next` is that of `saved`, in time linear in them.
fn seen_nexts(
    alloc: Global,
    places: &Places,
    moved: &Moved,
    fairs: &[u32],
    next: u32,
    gates: &mut Gates,
) -> M<NumList>
    requires latches { HasRoom places.now }
    requires many { length fairs.now ≡ places.now.fairs }
    requires values { length moved.now.values ≡ moved.now.latches }
    requires reach { All (Reaches moved.now) fairs.now }
    requires room { FitsAll gates.old.first gates.old.ands
        (listed 0 (length fairs.now) (seen_next_of places.now moved.now next fairs.now)) }
    ensures made { IfOk result (MakesAll gates.old.first gates.old.ands
        (listed 0 (length fairs.now) (seen_next_of places.now moved.now next fairs.now))
        gates.new.ands) }
    ensures first { gates.new.first ≡ gates.old.first }
{
    let mut nexts = List::new(alloc);
    for (j, literal) in fairs.iter().enumerate() {
        let fair = moved.literal(*literal);
        let seen = places.seen(j as u32);
        let after = seen_after(gates, next, fair, places.saved(), seen)?;
        nexts.push(after)?;
    }
    Ok(nexts)
}

/// The next value of each latch's copy, where `values` are the effective values, in time linear in
/// them.
fn copy_nexts(
    alloc: Global,
    places: &Places,
    values: &[u32],
    grab: u32,
    gates: &mut Gates,
) -> M<NumList>
    requires latches { HasRoom places.now }
    requires many { length values.now ≡ places.now.latches }
    requires room { FitsAll gates.old.first gates.old.ands
        (listed 0 (length values.now) (copy_next_of places.now grab values.now)) }
    ensures made { IfOk result (MakesAll gates.old.first gates.old.ands
        (listed 0 (length values.now) (copy_next_of places.now grab values.now))
        gates.new.ands) }
    ensures first { gates.new.first ≡ gates.old.first }
{
    let mut nexts = List::new(alloc);
    for (j, value) in values.iter().enumerate() {
        let copy = places.copy(j as u32);
        let after = gates.choose(grab, *value, copy)?;
        nexts.push(after)?;
    }
    Ok(nexts)
}

/// Adds all gates that stand after those of the net, in time linear in its latches and fairness
/// literals.
pub fn close(
    alloc: Global,
    net: &Net,
    places: &Places,
    moved: &Moved,
    gates: &mut Gates,
) -> M<Nexts>
    requires net { IsNet net.now }
    requires room { SafeFits net.now }
    requires places { places.now ≡ places_of net.now }
    requires moved { moved.now ≡ moved_of net.now }
    requires gates { AreGates net.now (safe_ands net.now) gates.old }
    ensures nexts { IfOk result (AreNexts net.now) }
    ensures gates { OnOk result (AreGates net.now (closing net.now).ands gates.new) }
{
    let saving = make_saving(places, gates)?;
    let fairs = net.fairs().as_slice();
    let seens = seen_nexts(alloc, places, moved, fairs, saving.saved, gates)?;
    let copies = copy_nexts(alloc, places, moved.values.as_slice(), saving.grab, gates)?;
    let bad = bad(places, gates)?;
    Ok(Nexts {
        saved: saving.saved,
        seens,
        copies,
        bad,
    })
}

/// Whether the latches are saved, each fairness literal was true since, and each latch is as it was
/// saved, in time linear in them.
fn bad(places: &Places, gates: &mut Gates) -> M<u32>
    requires latches { HasRoom places.now }
    requires room { Fits gates.old.first gates.old.ands (bad_of places.now) }
    ensures made { IfOk result (Makes gates.old.first gates.old.ands (bad_of places.now)
        gates.new.ands) }
    ensures first { gates.new.first ≡ gates.old.first }
{
    let mut all = places.saved();
    for j in 0..places.fairs {
        all = gates.both(all, places.seen(j))?;
    }
    for j in 0..places.latches {
        let same = gates.equal(places.latch(j), places.copy(j))?;
        all = gates.both(all, same)?;
    }
    Ok(all)
}
