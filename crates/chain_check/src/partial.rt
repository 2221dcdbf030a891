//! A partial assignment with constant time look-up.

ghost use Rattle.std.specs.Prelude.{◌≡◌, ◌+◌, ◌-◌, ◌<◌, ◌≤◌, ◌^◌, ℤ, [], ◌∷◌, ◌++◌, length, IsTrue, IfOk, OnOk, OnErr, take, slice_get, Some, ◌↔◌, List, Contains};
ghost use Rattle.chain_check.specs.Clauses.{Clause, IsLiteral, AreLiterals};
ghost use Rattle.chain_check.specs.Chains.{IsFalseIn};
ghost use Rattle.chain_check.specs.Store.{Trues, AreMarks, IsFresh};
ghost use Rattle.chain_check.specs.Opens.{IsOpenness};

use crate::literal::Literal;
use hy_base::M;
use std::alloc::Global;
use std::marker::Model;

/// How many literals of a clause are not false.
#[derive(Clone, Copy)]
pub enum Open {
    Nothing,
    One(Literal),
    More,
}

impl Open {
    /// With one literal more that is not false.
    fn with(self, l: Literal) -> Open
        ensures { (trues : List ℤ) (c : Clause) → ¬ IsFalseIn trues l → IsOpenness trues c self →
            IsOpenness trues (c ++ l ∷ []) result }
    {
        match self {
            Open::Nothing => Open::One(l),
            Open::One(m) => if m.is(l) { Open::One(l) } else { Open::More },
            Open::More => Open::More,
        }
    }
}

/// A partial assignment: the literals that are true, in order, with constant time look-up.
#[derive(Drop)]
pub struct Partial {
    marks: Vec<Literal>,
    literals: Vec<Literal>,
}

impl Model for Partial {
    ghost Value = { Trues };

    ghost view = { λ p.
        record { variables = length p.marks.items - 1; literals = p.literals.items } };

    ghost invariant = { λ p. (0 < length p.marks.items) × (length p.marks.items ≤ 2 ^ 31) ×
        AreMarks p.marks.items p.literals.items };
}

impl Partial {
    /// Nothing is true yet.
    pub fn new(alloc: Global, variables: u32) -> M<Self>
        requires { variables < 2 ^ 31 }
        ensures { IfOk result (λ p. p ≡ record { variables = variables; literals = [] }) }
    {
        let marks = vec![in alloc; Literal::new(0); variables as usize + 1]?;
        Ok(Partial {
            marks,
            literals: Vec::new(alloc),
        })
    }

    /// How many variables there are.
    pub fn variables(&self) -> usize
        ensures value { result ≡ self.now.variables }
        ensures few { result < 2 ^ 31 }
    {
        self.marks.len() - 1
    }

    /// Whether the opposite of `l` is true.
    pub fn is_false(&self, l: Literal) -> bool
        requires { IsLiteral self.now.variables l }
        ensures { IsTrue result ↔ IsFalseIn self.now.literals l }
    {
        let _ = &self.marks;
        self.is_true(l.opposite())
    }

    /// Whether `l` is true.
    pub fn is_true(&self, l: Literal) -> bool
        requires { IsLiteral self.now.variables l }
        ensures { IsTrue result ↔ Contains self.now.literals l }
    {
        self.marks[l.variable()].is(l)
    }

    /// Makes `l` true. Refused for memory it changes nothing.
    pub fn make_true(&mut self, l: Literal) -> M<()>
        requires right { IsLiteral self.old.variables l }
        requires not_false { ¬ IsFalseIn self.old.literals l }
        ensures made { OnOk result (self.new ≡ record self.old
            { literals = self.old.literals ++ l ∷ [] }) }
        ensures refused { OnErr result (self.new ≡ self.old) }
    {
        self.literals.push(l)?;
        self.marks[l.variable()] = l;
        Ok(())
    }

    /// Nothing is true any more, in time linear in what was.
    pub fn clear(&mut self)
        ensures { self.new ≡ record self.old { literals = [] } }
    {
        while let Some(l) = self.literals.pop() {
            self.marks[l.variable()] = Literal::new(0);
        }
    }

    /// Keeps the first `n` literals true.
    pub fn truncate(&mut self, n: usize)
        requires { IsFresh self.old.literals }
        ensures { self.new ≡ record self.old { literals = take n self.old.literals } }
    {
        while self.literals.len() > n {
            if let Some(l) = self.literals.pop() {
                self.marks[l.variable()] = Literal::new(0);
            }
        }
    }

    /// How many literals are true.
    pub fn len(&self) -> usize
        ensures { result ≡ length self.now.literals }
    {
        self.literals.len()
    }

    /// The literal at place `i`, counted from 0.
    pub fn at(&self, i: usize) -> Literal
        requires { i < length self.now.literals }
        ensures { slice_get self.now.literals i ≡ Some result }
    {
        self.literals[i]
    }

    /// How many literals of the clause are not false, in time linear in it.
    pub fn openness(&self, clause: &[Literal]) -> Open
        requires { AreLiterals self.now.variables clause.now }
        ensures { IsOpenness self.now.literals clause.now result }
    {
        let mut open = Open::Nothing;
        for l in clause {
            if !self.is_false(*l) {
                open = open.with(*l);
                if let Open::More = open {
                    return Open::More;
                }
            }
        }
        open
    }
}
