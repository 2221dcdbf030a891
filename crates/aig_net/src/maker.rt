//! New ands after those of a net: literals that are made of others.

ghost use Rattle.std.specs.Prelude.{◌≡◌, ◌<◌, ◌^◌, IfOk, OnErr};
ghost use Rattle.aig_net.specs.Nets.{opposite};
ghost use Rattle.aig_net.specs.Wires.{Begins, Fits, Makes, both, choice, either, equal, literal};

use crate::parts::{And, AndList};
use hy_base::M;

/// The opposite literal.
pub fn opposite_of(literal: u32) -> u32
    requires { literal < 2 ^ 32 }
    ensures { result ≡ opposite literal }
{
    if literal % 2 == 0 {
        literal + 1
    } else {
        literal - 1
    }
}

/// Ands that are made one after the other, the first for variable `first`. Each call gives the
/// literal of what it makes; the larger literal of an and stands first.
#[derive(Drop)]
pub struct Gates {
    pub first: u32,
    pub ands: AndList,
}

impl Gates {
    /// Both literals: one and. Refused for memory it changes nothing.
    pub fn both(&mut self, a: u32, b: u32) -> M<u32>
        requires { Fits self.old.first self.old.ands (both (literal a) (literal b)) }
        ensures made { IfOk result
            (Makes self.old.first self.old.ands (both (literal a) (literal b)) self.new.ands) }
        ensures first { self.new.first ≡ self.old.first }
        ensures refused { OnErr result (self.new ≡ self.old) }
    {
        let variable = self.first + self.ands.len() as u32;
        self.ands.push(And {
            left: if a < b { b } else { a },
            right: if a < b { a } else { b },
        })?;
        Ok(2 * variable)
    }

    /// Either literal: one and. Refused for memory it changes nothing.
    pub fn either(&mut self, a: u32, b: u32) -> M<u32>
        requires { Fits self.old.first self.old.ands (either (literal a) (literal b)) }
        ensures made { IfOk result
            (Makes self.old.first self.old.ands (either (literal a) (literal b)) self.new.ands) }
        ensures first { self.new.first ≡ self.old.first }
        ensures refused { OnErr result (self.new ≡ self.old) }
    {
        let neither = self.both(opposite_of(a), opposite_of(b))?;
        Ok(opposite_of(neither))
    }

    /// `a` where the test is true, else `b`: three ands. Refused for memory it leaves the ands of
    /// before, and perhaps the first of those that it makes.
    pub fn choose(&mut self, test: u32, a: u32, b: u32) -> M<u32>
        requires { Fits self.old.first self.old.ands (choice test a b) }
        ensures made { IfOk result
            (Makes self.old.first self.old.ands (choice test a b) self.new.ands) }
        ensures first { self.new.first ≡ self.old.first }
        ensures refused { OnErr result
            (Begins self.old.first self.old.ands (choice test a b) self.new.ands) }
    {
        let on_true = self.both(test, a)?;
        let on_false = self.both(opposite_of(test), b)?;
        self.either(on_true, on_false)
    }

    /// Whether the literals are equal: three ands. Refused for memory it leaves the ands of before,
    /// and perhaps the first of those that it makes.
    pub fn equal(&mut self, a: u32, b: u32) -> M<u32>
        requires { Fits self.old.first self.old.ands (equal (literal a) (literal b)) }
        ensures made { IfOk result
            (Makes self.old.first self.old.ands (equal (literal a) (literal b)) self.new.ands) }
        ensures first { self.new.first ≡ self.old.first }
        ensures refused { OnErr result
            (Begins self.old.first self.old.ands (equal (literal a) (literal b)) self.new.ands) }
    {
        let only_first = self.both(a, opposite_of(b))?;
        let only_second = self.both(opposite_of(a), b)?;
        let differ = self.either(only_first, only_second)?;
        Ok(opposite_of(differ))
    }
}
