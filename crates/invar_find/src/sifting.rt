//! A search by small queries, before each fact is asked for: those of a few facts that imply the
//! others.

ghost use Rattle.std.specs.Prelude.{◌≡◌, ◌*◌, ◌<◌, ◌^◌, length, All, IfOk, IfSome, OnOk};
ghost use Rattle.aig_net.specs.Nets.{Below, variables};
ghost use Rattle.cnf_frames.specs.Facts.{AllIn, IsIn, IsSafe};
ghost use Rattle.invar_find.specs.Standing.{IsOf, Spares};

use crate::asking::Asker;
use crate::left::{count_latches, inputs_of, push_copy, state_before};
use crate::seen::Seen;
use crate::walking::{Walker, go};
use chain_check::Literal;
use cnf_frames::{Fact, Inv, latch_number, number_of, opposite, step_fits};
use hy_base::{List, M, Remake};
use live_safe::SafeNet;
use std::alloc::Global;

/// The fact about a latch that, with those about latches before it, implies all that is left of it:
/// that it is 0, or that it equals another one of its class.
fn fact_about(seen: &Seen, latch: u32) -> Option<Fact>
    requires of { IsOf (length seen.now.ones) seen.now }
    requires latch { latch < length seen.now.ones }
    ensures { IfSome result (IsIn (length seen.now.ones)) }
{
    let class = seen.classes.as_slice()[latch as usize];
    let one = seen.ones.as_slice()[latch as usize];
    if !one {
        Some(Fact::Zero(latch))
    } else if class != latch {
        Some(Fact::Same(class, latch))
    } else {
        None
    }
}

/// A few facts that imply all that is left: one for each latch at most, and the other facts.
fn basis_of(alloc: Global, seen: &Seen) -> M<Inv>
    requires { IsOf (length seen.now.ones) seen.now }
    ensures { IfOk result (AllIn (length seen.now.ones)) }
{
    let mut basis = List::new(alloc);
    for latch in 0..seen.ones.len() as u32 {
        if let Some(fact) = fact_about(seen, latch) {
            basis.push(fact)?;
        }
    }
    for k in 0..seen.others.len() {
        let alive = seen.alive.as_slice()[k];
        if alive {
            push_copy(alloc, &mut basis, seen.others.at(k))?;
        }
    }
    Ok(basis)
}

/// Finds steps that break facts, by queries and by walks.
#[derive(Drop)]
struct Sifter {
    asker: Asker,
    walker: Walker,
}

impl Sifter {
    /// Goes walks from where a step was found, and from states at random that have what is left.
    fn walk(
        &mut self,
        alloc: Global,
        safe: &SafeNet,
        seen: &mut Seen,
        state: &[bool],
        inputs: &[bool],
    ) -> M<()>
        requires safe { IsSafe safe.now }
        requires of { IsOf (length safe.now.net.latches) seen.old }
        ensures spares { OnOk result (Spares safe.now.net seen.old seen.new) }
        ensures asker { self.new.asker.variables ≡ self.old.asker.variables }
    {
        self.walker.begin(state, inputs);
        self.walker.walk(alloc, safe, seen)?;
        self.walker.scatter(seen);
        self.walker.walk(alloc, safe, seen)
    }

    /// Asks for a step that has these literals, and goes it. Where it breaks facts walks go on from
    /// there. Whether it did.
    fn try_under(
        &mut self,
        alloc: Global,
        safe: &SafeNet,
        seen: &mut Seen,
        literals: &[Literal],
    ) -> M<bool>
        requires safe { IsSafe safe.now }
        requires of { IsOf (length safe.now.net.latches) seen.old }
        requires asker { self.old.asker.variables ≡ 2 * variables safe.now.net }
        ensures spares { OnOk result (Spares safe.now.net seen.old seen.new) }
        ensures asker { self.new.asker.variables ≡ self.old.asker.variables }
    {
        let Some(values) = self.asker.ask(alloc, literals)? else {
            return Ok(false);
        };
        let state = state_before(safe, values.as_slice());
        let inputs = inputs_of(safe, values.as_slice());
        let broken = go(alloc, safe, seen, state, inputs)?;
        if !broken {
            return Ok(false);
        }
        self.walk(alloc, safe, seen, state, inputs)?;
        Ok(true)
    }

    /// Walks from any step from a state that has what is left.
    fn begin(&mut self, alloc: Global, safe: &SafeNet, seen: &mut Seen) -> M<()>
        requires safe { IsSafe safe.now }
        requires of { IsOf (length safe.now.net.latches) seen.old }
        requires asker { self.old.asker.variables ≡ 2 * variables safe.now.net }
        ensures spares { OnOk result (Spares safe.now.net seen.old seen.new) }
        ensures asker { self.new.asker.variables ≡ self.old.asker.variables }
    {
        let Some(values) = self.asker.ask(alloc, &[])? else {
            return Ok(());
        };
        let state = state_before(safe, values.as_slice());
        let inputs = inputs_of(safe, values.as_slice());
        self.walk(alloc, safe, seen, state, inputs)
    }

    /// Asks for steps after which two latches differ. Whether facts were left out.
    fn try_differing(
        &mut self,
        alloc: Global,
        safe: &SafeNet,
        seen: &mut Seen,
        i: u32,
        j: u32,
    ) -> M<bool>
        requires safe { IsSafe safe.now }
        requires of { IsOf (length safe.now.net.latches) seen.old }
        requires asker { self.old.asker.variables ≡ 2 * variables safe.now.net }
        requires few { 2 * variables safe.now.net < 2 ^ 31 }
        requires i { i < length safe.now.net.latches }
        requires j { j < length safe.now.net.latches }
        ensures spares { OnOk result (Spares safe.now.net seen.old seen.new) }
        ensures asker { self.new.asker.variables ≡ self.old.asker.variables }
    {
        let one = latch_number(&safe.net, 1, i);
        let other = latch_number(&safe.net, 1, j);
        let broken = self.try_under(alloc, safe, seen, &[one, opposite(other)])?;
        if broken {
            return Ok(true);
        }
        self.try_under(alloc, safe, seen, &[opposite(one), other])
    }

    /// Asks for a step after which the fact fails. Whether facts were left out.
    fn try_breaking(
        &mut self,
        alloc: Global,
        safe: &SafeNet,
        seen: &mut Seen,
        fact: &Fact,
    ) -> M<bool>
        requires safe { IsSafe safe.now }
        requires of { IsOf (length safe.now.net.latches) seen.old }
        requires asker { self.old.asker.variables ≡ 2 * variables safe.now.net }
        requires few { 2 * variables safe.now.net < 2 ^ 31 }
        requires inside { IsIn (length safe.now.net.latches) fact.now }
        ensures spares { OnOk result (Spares safe.now.net seen.old seen.new) }
        ensures asker { self.new.asker.variables ≡ self.old.asker.variables }
    {
        match fact {
            Fact::Zero(j) => {
                let latch = latch_number(&safe.net, 1, *j);
                self.try_under(alloc, safe, seen, &[latch])
            }
            Fact::Same(i, j) => self.try_differing(alloc, safe, seen, *i, *j),
            Fact::AnyOf(literals) => {
                let failing = opposites(alloc, safe, literals.as_slice())?;
                self.try_under(alloc, safe, seen, &failing)
            }
            Fact::One(_) | Fact::Differ(_, _) => Ok(false), // never left: all latches start at 0
        }
    }

    /// Asks for a step that breaks the fact about a latch, if one is left.
    fn try_latch(&mut self, alloc: Global, safe: &SafeNet, seen: &mut Seen, latch: u32) -> M<bool>
        requires safe { IsSafe safe.now }
        requires of { IsOf (length safe.now.net.latches) seen.old }
        requires asker { self.old.asker.variables ≡ 2 * variables safe.now.net }
        requires few { 2 * variables safe.now.net < 2 ^ 31 }
        requires latch { latch < length safe.now.net.latches }
        ensures spares { OnOk result (Spares safe.now.net seen.old seen.new) }
        ensures asker { self.new.asker.variables ≡ self.old.asker.variables }
    {
        match fact_about(seen, latch) {
            Some(fact) => self.try_breaking(alloc, safe, seen, &fact),
            None => Ok(false),
        }
    }

    /// The same of one of the other facts.
    fn try_other(&mut self, alloc: Global, safe: &SafeNet, seen: &mut Seen, k: usize) -> M<bool>
        requires safe { IsSafe safe.now }
        requires of { IsOf (length safe.now.net.latches) seen.old }
        requires asker { self.old.asker.variables ≡ 2 * variables safe.now.net }
        requires few { 2 * variables safe.now.net < 2 ^ 31 }
        requires place { k < length seen.old.others }
        ensures spares { OnOk result (Spares safe.now.net seen.old seen.new) }
        ensures asker { self.new.asker.variables ≡ self.old.asker.variables }
    {
        let alive = seen.alive.as_slice()[k];
        if !alive {
            return Ok(false);
        }
        let fact = seen.others.at(k).remake(alloc)?;
        self.try_breaking(alloc, safe, seen, &fact)
    }

    /// Asks for steps that break a fact of a basis, one after the other. Whether facts were left out.
    fn try_all(&mut self, alloc: Global, safe: &SafeNet, seen: &mut Seen) -> M<bool>
        requires safe { IsSafe safe.now }
        requires of { IsOf (length safe.now.net.latches) seen.old }
        requires asker { self.old.asker.variables ≡ 2 * variables safe.now.net }
        requires few { 2 * variables safe.now.net < 2 ^ 31 }
        ensures { OnOk result (Spares safe.now.net seen.old seen.new) }
    {
        let mut fewer = false;
        for latch in 0..count_latches(safe) {
            let broken = self.try_latch(alloc, safe, seen, latch)?;
            fewer |= broken;
        }
        for k in 0..seen.others.len() {
            let broken = self.try_other(alloc, safe, seen, k)?;
            fewer |= broken;
        }
        Ok(fewer)
    }
}

/// The opposites of literals of latches, after a step.
fn opposites(alloc: Global, safe: &SafeNet, literals: &[u32]) -> M<Vec<Literal>>
    requires few { 2 * variables safe.now.net < 2 ^ 31 }
    requires inside { All (Below (length safe.now.net.latches)) literals.now }
{
    let net = &safe.net;
    let first = 1 + net.inputs();
    let mut made = Vec::new(alloc);
    for l in literals {
        let literal = 2 * (first + *l / 2) + *l % 2;
        made.push(opposite(number_of(net, 1, literal)))?;
    }
    Ok(made)
}

/// What sifts by queries from states that have a basis of what is left, with one fact a latch and the
/// other facts at most, unless these are past their limits: then so is a query of all facts.
fn sifter_of(
    alloc: Global,
    safe: &SafeNet,
    seen: &Seen,
    conflicts: u32,
    seed: u32,
) -> M<Option<Sifter>>
    requires safe { IsSafe safe.now }
    requires of { IsOf (length safe.now.net.latches) seen.now }
    requires conflicts { conflicts < 2 ^ 31 }
    ensures asker { IfOk result (λ found. IfSome found (λ sifter.
        sifter.asker.variables ≡ 2 * variables safe.now.net)) }
    ensures few { IfOk result (λ found. IfSome found (λ sifter.
        2 * variables safe.now.net < 2 ^ 31)) }
{
    let basis = basis_of(alloc, seen)?;
    if step_fits(safe, &basis, 0).is_err() {
        return Ok(None);
    }
    let asker = Asker::new(alloc, safe, &basis, conflicts)?;
    let walker = Walker::new(alloc, safe, seed)?;
    Ok(Some(Sifter { asker, walker }))
}

/// Asks of each fact of a basis whether a step breaks it. Whether facts were left out.
fn sift_once(alloc: Global, safe: &SafeNet, seen: &mut Seen, conflicts: u32, round: u32) -> M<bool>
    requires safe { IsSafe safe.now }
    requires of { IsOf (length safe.now.net.latches) seen.old }
    requires conflicts { conflicts < 2 ^ 31 }
    ensures { OnOk result (Spares safe.now.net seen.old seen.new) }
{
    let Some(mut sifter) = sifter_of(alloc, safe, seen, conflicts, round)? else {
        return Ok(false);
    };
    sifter.begin(alloc, safe, seen)?;
    sifter.try_all(alloc, safe, seen)
}

/// Leaves out facts that steps from states with all facts break, as far as small queries find such
/// steps: mostly all of them. The queries of a round have one session. As many rounds as there are
/// facts of a basis are enough, and a few are usual.
pub fn sift(alloc: Global, safe: &SafeNet, seen: &mut Seen, conflicts: u32) -> M<()>
    requires safe { IsSafe safe.now }
    requires of { IsOf (length safe.now.net.latches) seen.old }
    requires conflicts { conflicts < 2 ^ 31 }
    ensures { OnOk result (Spares safe.now.net seen.old seen.new) }
{
    for round in 0..safe.net.variables() {
        let fewer = sift_once(alloc, safe, seen, conflicts, round)?;
        if !fewer {
            return Ok(());
        }
    }
    Ok(())
}

/// Leaves out facts that walks break, if a query finds a step to begin with.
pub fn walk_first(alloc: Global, safe: &SafeNet, seen: &mut Seen, conflicts: u32) -> M<()>
    requires safe { IsSafe safe.now }
    requires of { IsOf (length safe.now.net.latches) seen.old }
    requires conflicts { conflicts < 2 ^ 31 }
    ensures { OnOk result (Spares safe.now.net seen.old seen.new) }
{
    let Some(mut sifter) = sifter_of(alloc, safe, seen, conflicts, 0)? else {
        return Ok(());
    };
    sifter.begin(alloc, safe, seen)
}
