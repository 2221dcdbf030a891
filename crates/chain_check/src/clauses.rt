//! Clauses in one flat list of literals, which contracts see as a list of clauses.

ghost use Rattle.std.specs.Prelude.{◌≡◌, ◌-◌, ◌<◌, ◌^◌, ◌↔◌, ◌∷◌, ◌++◌, ℤ, List, IsTrue, [], length, slice_get, IfOk, OnOk, OnErr, Some};
ghost use Rattle.chain_check.specs.Clauses.{AreClauses, AreLiterals};

use crate::literal::Literal;
use crate::logs::Clause;
use hy_base::{M, Memory};
use std::alloc::Global;
use std::marker::Model;

/// Where a clause stands.
#[derive(Clone, Copy)]
struct Span {
    start: u32,
    end: u32,
}

/// Clauses in one list of literals.
#[derive(Drop)]
pub struct Clauses {
    literals: Vec<Literal>,
    spans: Vec<Span>,
}

impl Model for Clauses {
    ghost use Rattle.std.specs.Prelude.{◌≤◌, List, length, map, slice_range, All};
    ghost use Rattle.chain_check.specs.Clauses.{Clause};

    ghost Value = { List Clause };

    ghost view = { λ s. map (λ p. slice_range s.literals.items p.start p.end) s.spans.items };

    ghost invariant = { λ s.
        All (λ p. (p.start ≤ p.end) × (p.end ≤ length s.literals.items)) s.spans.items };
}

impl Clauses {
    /// No clause. Takes no memory.
    pub fn new(alloc: Global) -> Clauses
        ensures { result ≡ [] }
    {
        Clauses {
            literals: Vec::new(alloc),
            spans: Vec::new(alloc),
        }
    }

    /// How many clauses there are.
    pub fn len(&self) -> usize
        ensures { result ≡ length self.now }
    {
        self.spans.len()
    }

    /// The clause at place `i`, counted from 0.
    pub fn clause(&self, i: usize) -> &[Literal]
        requires { i < length self.now }
        ensures { slice_get self.now i ≡ Some result.now }
    {
        let span = self.spans[i];
        &self.literals[span.start as usize..span.end as usize]
    }

    /// Adds a clause last, in time linear in it. Refused for memory, as it is where there would be
    /// more than 2^32 - 1 literals, it changes nothing.
    pub fn add(&mut self, clause: &[i32]) -> M<()>
        ensures added { OnOk result (self.new ≡ self.old ++ clause.now ∷ []) }
        ensures refused { OnErr result (self.new ≡ self.old) }
    {
        let start = place_after(self.literals.as_slice())?;
        push_numbers(&mut self.literals, clause)?;
        let end = place_after(self.literals.as_slice())?;
        self.spans.push(Span { start, end })?;
        Ok(())
    }

    /// An equal list, in time linear in the literals.
    pub fn copy(&self, alloc: Global) -> M<Clauses>
        ensures { IfOk result (λ copy. copy ≡ self.now) }
    {
        let mut literals = Vec::new(alloc);
        literals.extend_from_slice(self.literals.as_slice())?;
        let mut spans = Vec::new(alloc);
        spans.extend_from_slice(self.spans.as_slice())?;
        Ok(Clauses { literals, spans })
    }
}

/// The place behind the literals, where a u32 holds it.
fn place_after(literals: &[Literal]) -> M<u32>
    ensures { IfOk result (λ place. place ≡ length literals.now) }
{
    u32::try_from(literals.len()).map_err(|_| Memory)
}

/// Adds the literals of these numbers.
fn push_numbers(literals: &mut Vec<Literal>, numbers: &[i32]) -> M<()>
    ensures added { OnOk result (literals.new.items ≡ literals.old.items ++ numbers.now) }
    ensures refused { OnErr result (
        (more : List ℤ) × (literals.new.items ≡ literals.old.items ++ more)) }
{
    for number in numbers {
        literals.push(Literal::new(*number))?;
    }
    Ok(())
}

/// Clauses over a number of variables.
#[derive(Drop)]
pub struct Cnf {
    pub variables: u32,
    pub clauses: Clauses,
    ghost few_variables: { variables < 2 ^ 31 },
    ghost few_clauses: { length clauses < 2 ^ 31 },
    ghost right: { AreClauses variables clauses },
}

impl Cnf {
    /// No clause yet.
    pub fn new(alloc: Global, variables: u32) -> M<Cnf>
        requires { variables < 2 ^ 31 }
        ensures variables { IfOk result (λ cnf. cnf.variables ≡ variables) }
        ensures none { IfOk result (λ cnf. cnf.clauses ≡ []) }
    {
        Ok(Cnf {
            variables,
            clauses: Clauses::new(alloc),
        })
    }

    /// Whether the clause may be added, in time linear in it.
    pub fn takes(&self, clause: &[i32]) -> bool
        ensures { IsTrue result ↔ (AreLiterals self.now.variables clause.now ×
            (length self.now.clauses < 2 ^ 31 - 1)) }
    {
        for number in clause {
            if !Literal::new(*number).is_of(self.variables as usize) {
                return false;
            }
        }
        self.clauses.len() < 2_147_483_647
    }

    /// Adds a clause last, in time linear in it. Refused for memory it changes nothing.
    pub fn add(&mut self, clause: Clause) -> M<()>
        requires right { AreLiterals self.old.variables clause }
        requires few { length self.old.clauses < 2 ^ 31 - 1 }
        ensures variables { self.new.variables ≡ self.old.variables }
        ensures added { OnOk result (self.new.clauses ≡ self.old.clauses ++ clause ∷ []) }
        ensures refused { OnErr result (self.new.clauses ≡ self.old.clauses) }
    {
        self.add_literals(clause.as_slice())
    }

    /// As `add`, of a clause that is lent.
    pub fn add_literals(&mut self, clause: &[i32]) -> M<()>
        requires right { AreLiterals self.old.variables clause.now }
        requires few { length self.old.clauses < 2 ^ 31 - 1 }
        ensures variables { self.new.variables ≡ self.old.variables }
        ensures added { OnOk result (self.new.clauses ≡ self.old.clauses ++ clause.now ∷ []) }
        ensures refused { OnErr result (self.new.clauses ≡ self.old.clauses) }
    {
        self.clauses.add(clause)
    }
}
