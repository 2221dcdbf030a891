ghost use Rattle.std.specs.Prelude.{◌≡◌, ◌≤◌, ◌<◌, length, IfOk, slice_get, Some, map};
ghost use Rattle.hy_formula.specs.Quantifiers.{turned};

use hy_base::{List, M, Remake};
use std::alloc::Global;
use std::marker::Model;

/// A quantifier over the traces of a list.
#[derive(Clone, Copy, Debug, PartialEq, Eq)]
pub enum Quant {
    Exists,
    Forall,
}

impl Quant {
    /// The other quantifier.
    pub fn turned(self) -> Quant
        ensures { result ≡ turned self }
    {
        match self {
            Quant::Exists => Quant::Forall,
            Quant::Forall => Quant::Exists,
        }
    }
}

impl Remake for Quant {
    fn remake(&self, _alloc: Global) -> M<Self> {
        Ok(*self)
    }
}

/// One to eight quantifiers, the outermost first; contracts see them as a list.
#[derive(Drop)]
pub struct Prefix {
    quants: List<Quant>,
}

impl Model for Prefix {
    ghost use Rattle.std.specs.Prelude.{List, ◌≤◌, length};
    ghost use Rattle.hy_formula.specs.declared.prefix.Quant.{Quant};

    ghost Value = { List Quant };

    ghost view = { λ p. p.quants };

    ghost invariant = { λ p. (1 ≤ length p.quants) × (length p.quants ≤ 8) };
}

impl Remake for Prefix {
    fn remake(&self, alloc: Global) -> M<Self> {
        let quants = &self.quants;
        Ok(Prefix {
            quants: quants.copy(alloc)?,
        })
    }
}

impl Prefix {
    /// The prefix of these quantifiers.
    pub fn new(alloc: Global, quants: &[Quant]) -> M<Prefix>
        requires some { 1 ≤ length quants.now }
        requires few { length quants.now ≤ 8 }
        ensures { IfOk result (λ p. p ≡ quants.now) }
    {
        let mut list = List::new(alloc);
        for quant in quants {
            list.push(*quant)?;
        }
        Ok(Prefix { quants: list })
    }

    /// Each quantifier turned.
    pub fn turned(&self, alloc: Global) -> M<Prefix>
        ensures { IfOk result (λ p. p ≡ map turned self.now) }
    {
        let quants = &self.quants;
        let mut list = List::new(alloc);
        for quant in quants.as_slice() {
            list.push(quant.turned())?;
        }
        Ok(Prefix { quants: list })
    }

    /// How many quantifiers there are: 1 to 8.
    pub fn len(&self) -> usize
        ensures len { result ≡ length self.now }
        ensures some { 1 ≤ result }
        ensures few { result ≤ 8 }
    {
        let quants = &self.quants;
        quants.len()
    }

    /// The quantifiers as a slice.
    pub fn as_slice(&self) -> &[Quant]
        ensures { result.now ≡ self.now }
    {
        let quants = &self.quants;
        quants.as_slice()
    }

    /// The quantifier at place `i`, counted from 0.
    pub fn at(&self, i: usize) -> Quant
        requires { i < length self.now }
        ensures { slice_get self.now i ≡ Some result }
    {
        *self.quants.at(i)
    }
}
