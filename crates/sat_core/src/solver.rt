//! The state of a search: what is true, why, and since which decision.

ghost use Rattle.std.specs.Prelude.{◌≡◌, ◌<◌, ◌+◌, ◌^◌, ◌∷◌, ◌++◌, unsigned_abs, [], length, slice_set, OnOk};
ghost use Rattle.chain_check.specs.Clauses.{IsLiteral};
ghost use Rattle.sat_core.specs.Trails.{IsOpenIn, IsStep, AreSettled};
ghost use Rattle.sat_core.specs.Solvers.{IsReady, GoesOn};

use chain_check::{Clauses, Literal, Partial};
use hy_base::M;
use std::alloc::Global;

/// A search for an assignment.
#[derive(Drop)]
pub struct Solver {
    /// The given clauses and then the learned ones.
    pub clauses: Clauses,
    /// What is true, in the order in which it became so.
    pub partial: Partial,
    /// By place: the number of the clause by which it became true, or 0 for a decision.
    pub reasons: Vec<u32>,
    /// By variable: its place.
    pub places: Vec<u32>,
    /// By level: the place of its decision.
    pub limits: Vec<usize>,
}

impl Solver {
    /// Makes `l` true, for that reason.
    pub(crate) fn push(&mut self, l: Literal, reason: u32) -> M<()>
        requires right { IsLiteral self.old.partial.variables l }
        requires open_yet { IsOpenIn self.old.partial.literals l }
        requires sized { self.old.partial.variables < length self.old.places.items }
        requires few { length self.old.partial.literals < 2 ^ 32 }
        ensures kept { (self.new.clauses ≡ self.old.clauses) × (self.new.limits ≡ self.old.limits) }
        ensures reasons { OnOk result (self.new.reasons.items ≡ self.old.reasons.items ++ reason ∷
            []) }
        ensures places { self.new.places.items ≡ slice_set self.old.places.items (unsigned_abs l)
            (length self.old.partial.literals) }
        ensures pushed { OnOk result (self.new.partial ≡ record self.old.partial
            { literals = self.old.partial.literals ++ l ∷ [] }) }
    {
        let place = self.partial.len();
        self.places[l.variable()] = place as u32;
        self.reasons.push(reason)?;
        self.partial.make_true(l)
    }

    /// Makes `l` true by the clause with this number.
    pub(crate) fn imply(&mut self, l: Literal, number: u32) -> M<()>
        requires ready { IsReady self.old }
        requires step { IsStep self.old.partial.variables self.old.clauses self.old.limits.items
            self.old.partial.literals l number }
        ensures ready { OnOk result (IsReady self.new) }
        ensures goes_on { OnOk result (GoesOn self.old self.new) }
        ensures pushed { OnOk result (self.new.partial ≡ record self.old.partial
            { literals = self.old.partial.literals ++ l ∷ [] }) }
    {
        self.push(l, number)
    }

    /// Makes `l` true by a decision.
    pub(crate) fn decide(&mut self, l: Literal) -> M<()>
        requires ready { IsReady self.old }
        requires settled { AreSettled self.old.clauses self.old.partial.literals }
        requires right { IsLiteral self.old.partial.variables l }
        requires open_yet { IsOpenIn self.old.partial.literals l }
        ensures ready { OnOk result (IsReady self.new) }
        ensures clauses { OnOk result (self.new.clauses ≡ self.old.clauses) }
        ensures limits { OnOk result (self.new.limits.items
            ≡ self.old.limits.items ++ length self.old.partial.literals ∷ []) }
        ensures pushed { OnOk result (self.new.partial ≡ record self.old.partial
            { literals = self.old.partial.literals ++ l ∷ [] }) }
    {
        self.limits.push(self.partial.len())?;
        self.push(l, 0)
    }
}
