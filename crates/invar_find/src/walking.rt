//! Walks of a safe net, 64 at once: what fails in a state that a step comes to from one with all
//! facts is in no inductive list. The inputs are those of a step that a query found, which keep the
//! constraints, with some flipped at random. No proof rests on the choice, since each step that
//! breaks a fact is gone again by itself, and walks are the same at each call.

ghost use Rattle.std.specs.Prelude.{◌≡◌, ◌↔◌, ◌<◌, ℕ, length, IsTrue, IfOk, OnOk};
ghost use Rattle.aig_net.specs.Nets.{AllBelow, AllTrue, IsNet, literal_at, literal_value, variables};
ghost use Rattle.hy_base.specs.Rows.{row};
ghost use Rattle.invar_find.specs.Standing.{IsOf, Spares};

use crate::seen::Seen;
use crate::words::{
    evaluate, flip_some, has_lane, lane_of, lanes_with, put, put_lanes, put_state, word_at, word_of,
};
use aig_net::value_of;
use cnf_frames::Fact;
use hy_base::M;
use live_safe::SafeNet;
use rand_core::{Rng, SeedableRng};
use rand_xoshiro::Xoshiro256PlusPlus;
use std::alloc::Global;
use std::mem;

/// So many steps that leave out no fact end a walk.
const PATIENCE: u32 = 8;

/// Whether the literals are all true.
fn are_true(literals: &[u32], values: &[bool]) -> bool
    requires { AllBelow (length values.now) literals.now }
    ensures { IsTrue result ↔ AllTrue literals.now (row values.now) }
{
    for literal in literals {
        if !value_of(values, *literal) {
            return false;
        }
    }
    true
}

/// Gives the latches the values that come next.
fn advance(nexts: &[u32], values: &[bool], state: &mut [bool])
    requires nexts { AllBelow (length values.now) nexts.now }
    requires latches { length state.old ≡ length nexts.now }
    ensures { (j : ℕ) → j < length nexts.now →
        row state.new j ≡ literal_value (row values.now) (literal_at nexts.now j) }
{
    for (j, next) in nexts.iter().enumerate() {
        state[j] = value_of(values, *next);
    }
}

/// Goes a step from a state, if it has all facts that are left and the inputs keep the constraints,
/// and leaves out those that the step breaks. Whether some were. The values of the step and the state
/// that it comes to are put where they are lent.
fn go_with(
    safe: &SafeNet,
    seen: &mut Seen,
    state: &[bool],
    inputs: &[bool],
    values: &mut [bool],
    next: &mut [bool],
) -> bool
    requires net { IsNet safe.now.net }
    requires of { IsOf (length safe.now.net.latches) seen.old }
    requires state { length state.now ≡ length safe.now.net.latches }
    requires inputs { length inputs.now ≡ safe.now.net.inputs }
    requires values { length values.old ≡ variables safe.now.net }
    requires next { length next.old ≡ length safe.now.net.latches }
    ensures { Spares safe.now.net seen.old seen.new }
{
    if !seen.is_known(state) {
        return false;
    }
    let net = &safe.net;
    net.step(state, inputs, values);
    if !are_true(net.constraints().as_slice(), values) {
        return false;
    }
    advance(net.latches().as_slice(), values, next);
    seen.meet(next)
}

/// The same, in time and memory linear in the net and the facts of other kinds than pairs.
pub fn go(
    alloc: Global,
    safe: &SafeNet,
    seen: &mut Seen,
    state: &[bool],
    inputs: &[bool],
) -> M<bool>
    requires of { IsOf (length safe.now.net.latches) seen.old }
    requires state { length state.now ≡ length safe.now.net.latches }
    requires inputs { length inputs.now ≡ safe.now.net.inputs }
    ensures { OnOk result (Spares safe.now.net seen.old seen.new) }
{
    let net = &safe.net;
    let mut values = vec![in alloc; false; net.variables() as usize]?;
    let mut next = vec![in alloc; false; net.latches().len()]?;
    Ok(go_with(safe, seen, state, inputs, &mut values, &mut next))
}

/// The lanes in which a fact that is left fails.
fn breaking(seen: &Seen, state: &[u64]) -> u64 {
    let mut lanes = 0;
    let ones = seen.ones.as_slice();
    let classes = seen.classes.as_slice();
    for (j, word) in state.iter().enumerate() {
        if ones.get(j) == Some(&false) {
            lanes |= *word;
        }
        if let Some(class) = classes.get(j) {
            lanes |= *word ^ word_at(state, *class as usize);
        }
    }
    for (k, fact) in seen.others.as_slice().iter().enumerate() {
        if seen.alive.as_slice().get(k) == Some(&true) {
            lanes |= failing(fact, state);
        }
    }
    lanes
}

/// The lanes in which a clause fails.
fn failing(fact: &Fact, state: &[u64]) -> u64 {
    let Fact::AnyOf(literals) = fact else {
        return 0;
    };
    let mut lanes = u64::MAX;
    for literal in literals.as_slice() {
        lanes &= !word_of(state, *literal);
    }
    lanes
}

/// 64 walks.
#[derive(Drop)]
pub struct Walker {
    generator: Xoshiro256PlusPlus,
    /// Where the walks are.
    state: Vec<u64>,
    /// Their last inputs.
    inputs: Vec<u64>,
    /// The inputs that are tried.
    tried: Vec<u64>,
    /// The values of all variables.
    values: Vec<u64>,
    /// Where the walks come to.
    next: Vec<u64>,
    /// The walks that go on.
    alive: u64,
}

impl Walker {
    /// The same seed makes the same choices. Takes memory linear in the net.
    pub fn new(alloc: Global, safe: &SafeNet, seed: u32) -> M<Walker> {
        let net = &safe.net;
        let latches = net.latches().len();
        let inputs = net.inputs() as usize;
        Ok(Walker {
            generator: Xoshiro256PlusPlus::seed_from_u64(u64::from(seed)),
            state: vec![in alloc; 0; latches]?,
            inputs: vec![in alloc; 0; inputs]?,
            tried: vec![in alloc; 0; inputs]?,
            values: vec![in alloc; 0; net.variables() as usize]?,
            next: vec![in alloc; 0; latches]?,
            alive: u64::MAX,
        })
    }

    /// All walks are in this state and had these inputs.
    pub fn begin(&mut self, state: &[bool], inputs: &[bool]) {
        put_state(&mut self.state, state);
        put_state(&mut self.inputs, inputs);
        self.alive = u64::MAX;
    }

    /// All walks are in states at random that have what is left of the pairs.
    pub fn scatter(&mut self, seen: &Seen) {
        for word in self.next.iter_mut() {
            *word = self.generator.next_u64();
        }
        let ones = seen.ones.as_slice();
        let classes = seen.classes.as_slice();
        for (j, word) in self.state.iter_mut().enumerate() {
            let class = classes.get(j).copied().unwrap_or(0);
            *word = if ones.get(j) == Some(&false) {
                0
            } else {
                word_at(&self.next, class as usize)
            };
        }
        self.alive = u64::MAX;
    }

    /// Goes a step in each lane, by the inputs that are tried, or else by the last ones: the lanes in
    /// which some keep the constraints.
    fn evaluate(&mut self, safe: &SafeNet) -> u64 {
        let net = &safe.net;
        let constraints = net.constraints().as_slice();
        evaluate(net, &self.state, &self.tried, &mut self.values);
        let kept = lanes_with(constraints, &self.values);
        put_lanes(&mut self.inputs, &self.tried, kept);
        if kept == u64::MAX {
            return kept;
        }
        evaluate(net, &self.state, &self.inputs, &mut self.values);
        lanes_with(constraints, &self.values)
    }

    /// Where the walks come to: where no inputs keep the constraints they stay.
    fn advance(&mut self, safe: &SafeNet) {
        let went = self.evaluate(safe);
        for (j, literal) in safe.net.latches().as_slice().iter().enumerate() {
            let then = word_of(&self.values, *literal);
            let now = word_at(&self.state, j);
            put(&mut self.next, j, (then & went) | (now & !went));
        }
    }

    /// Goes the steps that break facts again, one by one. A walk ends where that leaves out no fact.
    /// Whether some were left out.
    #[tactic(auto, using(crate::proofs::Standings::spares_again))]
    fn show(&mut self, alloc: Global, safe: &SafeNet, seen: &mut Seen) -> M<bool>
        requires { IsOf (length safe.now.net.latches) seen.old }
        ensures { OnOk result (Spares safe.now.net seen.old seen.new) }
    {
        let net = &safe.net;
        let mut fewer = false;
        let mut lanes = breaking(seen, &self.next) & self.alive;
        for lane in 0..64u32 {
            if !has_lane(lanes, lane) {
                continue;
            }
            let state = lane_of(alloc, &self.state, net.latches().len(), lane)?;
            let inputs = lane_of(alloc, &self.inputs, net.inputs() as usize, lane)?;
            if go(alloc, safe, seen, &state, &inputs)? {
                fewer = true;
                lanes = breaking(seen, &self.next) & self.alive;
            } else {
                self.alive &= !(1 << lane);
            }
        }
        Ok(fewer)
    }

    /// Walks on from where the walks are: it ends where some steps leave out no fact. Each step takes
    /// time linear in the net.
    pub fn walk(&mut self, alloc: Global, safe: &SafeNet, seen: &mut Seen) -> M<()>
        requires { IsOf (length safe.now.net.latches) seen.old }
        ensures { OnOk result (Spares safe.now.net seen.old seen.new) }
    {
        let mut patience = PATIENCE;
        for _step in 0..safe.net.variables() {
            put_lanes(&mut self.tried, &self.inputs, u64::MAX);
            flip_some(&mut self.generator, &mut self.tried);
            self.advance(safe);
            let fewer = self.show(alloc, safe, seen)?;
            patience = if fewer { PATIENCE } else { patience - 1 };
            if patience == 0 {
                return Ok(());
            }
            mem::swap(&mut self.state, &mut self.next);
        }
        Ok(())
    }
}
