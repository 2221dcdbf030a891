//! Signals: which literal of a net each name of a formula stands for.

ghost use Rattle.std.specs.Prelude.{◌≡◌, ◌<◌, [], ◌∷◌, ◌++◌, length, slice_get, Some, false, IsTrue, IfOk, OnOk, OnErr};
ghost use Rattle.aig_net.specs.Signals.{are_signals, has_signal, literal_of};

use hy_base::{List, M, Remake};
use std::alloc::Global;
use std::marker::Model;

/// The literal of a name and a variable, by their numbers.
#[derive(Clone, Copy, Debug, PartialEq, Eq)]
pub struct Signal {
    /// Below 64.
    pub name: u8,
    pub var: u8,
    pub literal: u32,
}

impl Remake for Signal {
    fn remake(&self, _alloc: Global) -> M<Self> {
        Ok(*self)
    }
}

/// Signals, none for the same name and variable as another; contracts see them as a list.
#[derive(Drop)]
pub struct Signals {
    signals: List<Signal>,
}

impl Model for Signals {
    ghost use Rattle.std.specs.Prelude.{List as Sequence, IsTrue};
    ghost use Rattle.aig_net.specs.declared.signals.Signal.{Signal};
    ghost use Rattle.aig_net.specs.Signals.{are_signals};

    ghost Value = { Sequence Signal };

    ghost view = { λ s. s.signals };

    ghost invariant = { λ s. IsTrue (are_signals s.signals) };
}

impl Signals {
    /// No signal. Takes no memory.
    pub fn new(alloc: Global) -> Signals
        ensures { result ≡ [] }
    {
        Signals {
            signals: List::new(alloc),
        }
    }

    /// How many signals there are.
    pub fn len(&self) -> usize
        ensures len { result ≡ length self.now }
        ensures signals { IsTrue (are_signals self.now) }
    {
        self.signals.len()
    }

    /// The signal at place `i`, counted from 0.
    pub fn at(&self, i: usize) -> &Signal
        requires { i < length self.now }
        ensures { slice_get self.now i ≡ Some result.now }
    {
        self.signals.at(i)
    }

    /// The literal of a name and a variable, in time linear in the signals.
    #[tactic(auto, using(crate::proofs::SignalLemmas::literal_more))]
    pub fn find(&self, name: u8, var: u8) -> Option<u32>
        ensures { result ≡ literal_of self.now name var }
    {
        for signal in self.signals.as_slice() {
            if signal.name == name && signal.var == var {
                return Some(signal.literal);
            }
        }
        None
    }

    /// Adds a signal last, in constant time but for growth. Refused for memory it changes nothing.
    #[tactic(auto, using(crate::proofs::SignalLemmas::are_more))]
    pub fn push(&mut self, signal: Signal) -> M<()>
        requires name { signal.name < 64 }
        requires new { has_signal self.old signal.name signal.var ≡ false }
        ensures added { OnOk result (self.new ≡ self.old ++ signal ∷ []) }
        ensures refused { OnErr result (self.new ≡ self.old) }
    {
        self.signals.push(signal)?;
        Ok(())
    }

    /// Equal signals, in time linear in their number.
    pub fn copy(&self, alloc: Global) -> M<Signals>
        ensures { IfOk result (λ made. made ≡ self.now) }
    {
        Ok(Signals {
            signals: self.signals.copy(alloc)?,
        })
    }
}
