//! A net in words: each word has a value for each of 64 lanes. No proof rests on what is computed
//! here, since each step that is taken over is gone again.

ghost use Rattle.std.specs.Prelude.{◌≡◌, ◌<◌, ◌^◌, length, IfOk};

use aig_net::{And, Net};
use hy_base::M;
use rand_core::Rng;
use rand_xoshiro::Xoshiro256PlusPlus;
use std::alloc::Global;

/// The word at a place, 0 where there is none.
pub fn word_at(words: &[u64], place: usize) -> u64 {
    words.get(place).copied().unwrap_or(0)
}

/// The word of a literal, where `values` has that of each variable.
pub fn word_of(values: &[u64], literal: u32) -> u64 {
    let word = word_at(values, (literal / 2) as usize);
    if literal % 2 == 0 { word } else { !word }
}

/// Puts a word at a place, if it is there.
pub fn put(words: &mut [u64], place: usize, word: u64) {
    if let Some(old) = words.get_mut(place) {
        *old = word;
    }
}

/// Puts words from a place on.
fn put_all(words: &mut [u64], first: usize, given: &[u64])
    requires { first < 2 ^ 33 }
{
    for (i, word) in given.iter().enumerate() {
        put(words, first + i, *word);
    }
}

/// Gives the ands their words, from place `first` on.
fn fill(ands: &[And], first: usize, values: &mut [u64])
    requires { first < 2 ^ 33 }
{
    for (i, gate) in ands.iter().enumerate() {
        let both = word_of(values, gate.left) & word_of(values, gate.right);
        put(values, first + i, both);
    }
}

/// Gives each variable its word, in time linear in the net.
pub fn evaluate(net: &Net, state: &[u64], inputs: &[u64], values: &mut [u64]) {
    let first_latch = 1 + net.inputs() as usize;
    let first_and = net.variables() as usize - net.ands().len();
    put(values, 0, 0);
    put_all(values, 1, inputs);
    put_all(values, first_latch, state);
    fill(net.ands().as_slice(), first_and, values);
}

/// The lanes in which the literals are all true.
pub fn lanes_with(literals: &[u32], values: &[u64]) -> u64 {
    let mut lanes = u64::MAX;
    for literal in literals {
        lanes &= word_of(values, *literal);
    }
    lanes
}

/// Puts the given words where there is a lane of `lanes`.
pub fn put_lanes(words: &mut [u64], given: &[u64], lanes: u64) {
    for (word, new) in words.iter_mut().zip(given) {
        *word = (*word & !lanes) | (*new & lanes);
    }
}

/// Whether there is a lane among some.
pub fn has_lane(lanes: u64, lane: u32) -> bool
    requires { lane < 64 }
{
    (lanes >> lane) & 1 == 1
}

/// The values in a lane.
pub fn lane_of(alloc: Global, words: &[u64], many: usize, lane: u32) -> M<Vec<bool>>
    requires { lane < 64 }
    ensures { IfOk result (λ values. length values.items ≡ many) }
{
    let mut values = Vec::new(alloc);
    for i in 0..many {
        values.push(has_lane(word_at(words, i), lane))?;
    }
    Ok(values)
}

/// Puts values into all lanes.
pub fn put_state(words: &mut [u64], state: &[bool]) {
    for (word, value) in words.iter_mut().zip(state) {
        *word = if *value { u64::MAX } else { 0 };
    }
}

/// Flips an input or two in each lane.
pub fn flip_some(generator: &mut Xoshiro256PlusPlus, inputs: &mut [u64]) {
    let many = inputs.len() as u64;
    if many == 0 {
        return;
    }
    for lane in 0..64u32 {
        for _ in 0..1 + generator.next_u64() % 2 {
            let place = (generator.next_u64() % many) as usize;
            let word = word_at(inputs, place) ^ (1 << lane);
            put(inputs, place, word);
        }
    }
}
