//! What stands in a safe net for the variables of the net.

ghost use Rattle.std.specs.Prelude.{◌≡◌, suc, ◌+◌, ◌-◌, ◌^◌, ◌<◌, ◌≤◌, ◌++◌, map, length, All, IfOk, OnOk};
ghost use Rattle.live_safe.specs.Places.{Reaches, ReachesAnd, moved_and, moved_literal, stand};

use aig_net::{And, Gates, opposite_of};
use hy_base::{List, M, NumList};
use std::alloc::Global;

/// For each variable of a net a literal of its safe net: inputs keep theirs, latches have the
/// literals of their effective values, and the ands stand after those of the effective values.
#[derive(Drop)]
pub struct Moved {
    pub inputs: u32,
    pub latches: u32,
    /// The variable of the safe net's first and.
    pub first: u32,
    /// How many ands stand before those of the net.
    pub made: u32,
    /// The literal of each latch.
    pub values: NumList,
}

impl Moved {
    /// What stands for a literal of the net.
    pub fn literal(&self, literal: u32) -> u32
        requires values { length self.now.values ≡ self.now.latches }
        requires room { Reaches self.now literal }
        ensures { result ≡ moved_literal self.now literal }
    {
        let place = self.variable(literal / 2);
        if literal % 2 == 0 {
            place
        } else {
            opposite_of(place)
        }
    }

    fn variable(&self, variable: u32) -> u32
        requires values { length self.now.values ≡ self.now.latches }
        requires small { variable < 2 ^ 31 }
        requires room { self.now.first + (self.now.made
            + (variable - suc (self.now.inputs + self.now.latches))) < 2 ^ 31 }
        ensures { result ≡ stand self.now variable }
    {
        if variable <= self.inputs {
            2 * variable
        } else if variable - self.inputs <= self.latches {
            *self.values.at((variable - self.inputs - 1) as usize)
        } else {
            2 * (self.first + self.made + (variable - self.inputs - self.latches - 1))
        }
    }

    /// What stands for literals of the net, in time linear in them.
    pub fn literals(&self, alloc: Global, literals: &[u32]) -> M<NumList>
        requires values { length self.now.values ≡ self.now.latches }
        requires room { All (Reaches self.now) literals.now }
        ensures { IfOk result (λ made. made ≡ map (moved_literal self.now) literals.now) }
    {
        let made = literals.iter().map(|l| self.literal(*l)).collect(alloc)?;
        Ok(List::from_vec(made))
    }

    /// Adds the ands of the net, in time linear in them.
    pub fn add_ands(&self, ands: &[And], gates: &mut Gates) -> M<()>
        requires values { length self.now.values ≡ self.now.latches }
        requires reach { All (ReachesAnd self.now) ands.now }
        requires room { gates.old.first + (length gates.old.ands + length ands.now) ≤ 2 ^ 31 }
        ensures ands { OnOk result (gates.new.ands ≡
            gates.old.ands ++ map (moved_and self.now) ands.now) }
        ensures first { gates.new.first ≡ gates.old.first }
    {
        for gate in ands {
            let left = self.literal(gate.left);
            let right = self.literal(gate.right);
            gates.both(left, right)?;
        }
        Ok(())
    }
}
