//! Classes of latches that are equal in all states that were looked at.

ghost use Rattle.std.specs.Prelude.{◌≤◌, ◌<◌, length, IfOk, IfSome};
ghost use Rattle.cnf_frames.specs.Facts.{AllIn, IsIn};

use cnf_frames::{Fact, Inv};
use hy_base::{List, M};
use std::alloc::Global;

/// By variable of a net: the first of its class. The class of variable 0 is 0.
#[derive(Drop)]
pub struct Classes {
    firsts: Vec<usize>,
}

impl Classes {
    /// Each variable for which the test holds is in the class of 0, each other one alone.
    pub(crate) fn new(alloc: Global, are_zero: &[bool]) -> M<Classes> {
        let mut firsts = Vec::new(alloc);
        for (variable, is_zero) in are_zero.iter().enumerate() {
            firsts.push(if *is_zero { 0 } else { variable })?;
        }
        Ok(Classes { firsts })
    }

    /// The first of the class of a variable.
    pub(crate) fn first(&self, variable: usize) -> usize {
        self.firsts.get(variable).copied().unwrap_or(variable)
    }

    /// Takes a variable that is not the first of its class out of it.
    pub(crate) fn leave(&mut self, variable: usize) {
        if let Some(first) = self.firsts.get_mut(variable) {
            *first = variable;
        }
    }

    /// Whether a variable differs by its word from the first of its class.
    fn is_split_by(&self, words: &[u64]) -> bool {
        let mut pairs = self.firsts.iter().zip(words);
        pairs.any(|(first, word)| words.get(*first) != Some(word))
    }

    /// The variables that have a word, with their class and it, in the order of these.
    fn in_order(&self, alloc: Global, words: &[u64]) -> M<Vec<(usize, u64, usize)>> {
        let mut order = Vec::new(alloc);
        for (variable, (first, word)) in self.firsts.iter().zip(words).enumerate() {
            order.push((*first, *word, variable))?;
        }
        order.sort_unstable();
        Ok(order)
    }

    /// Splits the classes such that variables of one class have the same word. Whether there are more
    /// of them then. In time linear in the variables where there are not, and else n log n.
    pub(crate) fn split(&mut self, alloc: Global, words: &[u64]) -> M<bool> {
        if !self.is_split_by(words) {
            return Ok(false);
        }
        let order = self.in_order(alloc, words)?;
        let mut leader = None;
        for (first, word, variable) in &order {
            let own = match leader {
                Some((class, value, own)) if class == *first && value == *word => own,
                _ => *variable,
            };
            leader = Some((*first, *word, own));
            if let Some(place) = self.firsts.get_mut(*variable) {
                *place = own;
            }
        }
        Ok(true)
    }

    /// The fact that a latch is as the first of its class, if that is another one. The first of so
    /// many latches has the variable `start`.
    fn fact(&self, start: usize, latch: u32, latches: u32) -> Option<Fact>
        requires { latch < latches }
        ensures { IfSome result (IsIn latches) }
    {
        let first = self.first(start.saturating_add(latch as usize));
        if first == 0 {
            return Some(Fact::Zero(latch));
        }
        match first.checked_sub(start) {
            Some(earlier) if earlier < latch as usize => Some(Fact::Same(earlier as u32, latch)),
            _ => None,
        }
    }

    /// A fact for each latch that is not the first of its class: that it is as that one. The first
    /// of so many latches has the variable `start`.
    pub(crate) fn facts(&self, alloc: Global, start: usize, latches: u32) -> M<Inv>
        ensures inside { IfOk result (AllIn latches) }
        ensures few { IfOk result (λ facts. length facts ≤ latches) }
    {
        let mut facts = List::new(alloc);
        for latch in 0..latches {
            if let Some(fact) = self.fact(start, latch, latches) {
                facts.push(fact)?;
            }
        }
        Ok(facts)
    }
}
