//! Steps from 64 states at once in which the latches of each class are equal. What such steps split
//! is in no list of facts that each step keeps and that these states have.

use crate::classes::Classes;
use crate::variables::{first_and, first_latch};
use aig_net::Net;
use hy_base::M;
use rand_core::{Rng, SeedableRng};
use rand_xoshiro::Xoshiro256PlusPlus;
use std::alloc::Global;

/// What the choices begin with.
const SEED: u64 = 1;

/// How rare changes get: one in 2 to this power.
const RAREST: u32 = 8;

/// So many steps that split no class end a walk.
const PATIENCE: u32 = 32;

/// 64 states and inputs: words by variable, with a bit for each.
#[derive(Drop)]
pub struct Lanes<'a> {
    net: &'a Net,
    /// Which variables have values.
    cone: Vec<bool>,
    /// The constant, the inputs and the latches.
    given: Vec<u64>,
    /// Those and the ands, as they were tried last.
    tried: Vec<u64>,
    /// What was changed in these.
    changes: Vec<u64>,
    generator: Xoshiro256PlusPlus,
    /// How many steps were tried.
    steps: u32,
}

/// The word at a place.
fn word_at(words: &[u64], place: usize) -> u64 {
    words.get(place).copied().unwrap_or(0)
}

/// The word of a literal.
fn word_of(words: &[u64], literal: u32) -> u64 {
    let word = word_at(words, literal as usize / 2);
    if literal % 2 == 0 { word } else { !word }
}

/// Puts a word in its place, if that is there.
fn put(words: &mut [u64], place: usize, word: u64) {
    if let Some(old) = words.get_mut(place) {
        *old = word;
    }
}

/// The bits of one word where a test holds, and else those of the other.
fn choose(test: u64, some: u64, other: u64) -> u64 {
    test & some | !test & other
}

impl<'a> Lanes<'a> {
    /// 64 times the start, with inputs 0.
    pub(crate) fn new(alloc: Global, net: &'a Net, cone: Vec<bool>) -> M<Lanes<'a>> {
        let given = first_and(net) as usize;
        Ok(Lanes {
            net,
            cone,
            given: vec![in alloc; 0; given]?,
            tried: vec![in alloc; 0; net.variables() as usize]?,
            changes: vec![in alloc; 0; given]?,
            generator: Xoshiro256PlusPlus::seed_from_u64(SEED),
            steps: 0,
        })
    }

    /// Gives an input or a latch the same value 64 times.
    pub(crate) fn put(&mut self, variable: usize, value: bool) {
        let word = if value { u64::MAX } else { 0 };
        put(self.given.as_mut_slice(), variable, word);
    }

    /// A word in which each bit but the first is 1 once in 2 to the power of `rare`.
    fn change(&mut self, rare: u32) -> u64 {
        let mut word = u64::MAX - 1;
        for _ in 0..rare {
            word &= self.generator.next_u64();
        }
        word
    }

    /// Tries other inputs, and other values of the latches, the same ones in each class.
    fn try_changes(&mut self, classes: &Classes) {
        let rare = 1 + self.steps % RAREST;
        for variable in 1..self.given.len() {
            let first = classes.first(variable);
            let change = if first == variable {
                self.change(rare)
            } else {
                word_at(self.changes.as_slice(), first)
            };
            put(self.changes.as_mut_slice(), variable, change);
            let word = word_at(self.given.as_slice(), variable) ^ change;
            put(self.tried.as_mut_slice(), variable, word);
        }
    }

    /// Gives the ands their values.
    fn fill(&mut self) {
        let net = self.net;
        let first = self.given.len();
        for (i, gate) in net.ands().as_slice().iter().enumerate() {
            let variable = first.saturating_add(i);
            if self.cone.get(variable) == Some(&true) {
                let tried = self.tried.as_slice();
                let word = word_of(tried, gate.left) & word_of(tried, gate.right);
                put(self.tried.as_mut_slice(), variable, word);
            }
        }
    }

    /// In which states all constraints are true.
    fn kept(&self) -> u64 {
        let net = self.net;
        let mut kept = u64::MAX;
        for literal in net.constraints().as_slice() {
            kept &= word_of(self.tried.as_slice(), *literal);
        }
        kept
    }

    /// Goes to the states after the step, and to the inputs that were tried, where constraints are
    /// true.
    fn advance(&mut self, kept: u64) {
        let net = self.net;
        let first = first_latch(net) as usize;
        for variable in 1..first {
            let old = word_at(self.given.as_slice(), variable);
            let tried = word_at(self.tried.as_slice(), variable);
            put(
                self.given.as_mut_slice(),
                variable,
                choose(kept, tried, old),
            );
        }
        for (latch, next) in net.latches().as_slice().iter().enumerate() {
            let variable = first.saturating_add(latch);
            if self.cone.get(variable) == Some(&true) {
                let old = word_at(self.given.as_slice(), variable);
                let word = word_of(self.tried.as_slice(), *next);
                put(self.given.as_mut_slice(), variable, choose(kept, word, old));
            }
        }
    }

    /// Splits classes by steps, until some in a row split none. Each takes time linear in the net.
    pub(crate) fn walk(&mut self, alloc: Global, classes: &mut Classes) -> M<()> {
        let mut patience = PATIENCE;
        for _step in 0..self.net.variables() {
            self.try_changes(classes);
            self.fill();
            let kept = self.kept();
            self.advance(kept);
            self.steps = self.steps.wrapping_add(1);
            let is_split = classes.split(alloc, self.given.as_slice())?;
            patience = if is_split {
                PATIENCE
            } else {
                patience.saturating_sub(1)
            };
            if patience == 0 {
                return Ok(());
            }
        }
        Ok(())
    }
}
