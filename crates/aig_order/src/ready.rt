//! Numbers of which the least can be taken.

ghost use Rattle.std.specs.Prelude.{◌≡◌, ℕ, ◌+◌, ◌<◌, ◌≤◌, ◌^◌, ◌||◌, nat_eq, true, false, length, OnOk, OnSome, IfSome, IfNone};
ghost use Rattle.std.specs.BinaryHeap.{IsHeap, heap_items};
ghost use Rattle.std.specs.Ordering.{nat_cmp};
ghost use Rattle.std.proofs.Props.{props};
ghost use Rattle.aig_order.specs.Takings.{has};

use hy_base::M;
use std::alloc::Global;
use std::collections::BinaryHeap;
use std::marker::Model;

/// Numbers, some perhaps more than once. Contracts see the keys, of which the greatest stands for
/// the least number.
#[derive(Drop)]
pub struct Ready {
    keys: BinaryHeap<u32>,
    ghost ordered: { IsHeap nat_cmp (heap_items keys) } by { Prim.hlevel props },
}

impl Model for Ready {
    ghost use Rattle.std.specs.Prelude.{ℕ, List};
    ghost use Rattle.std.specs.BinaryHeap.{heap_items};

    ghost Value = { List ℕ };

    ghost view = { λ r. heap_items r.keys };
}

impl Ready {
    /// No number.
    pub fn new(alloc: Global) -> Self
        ensures { (j : ℕ) → has result j ≡ false }
    {
        Ready {
            keys: BinaryHeap::new(alloc),
        }
    }

    /// Adds a number, in time logarithmic in how many there are.
    pub fn push(&mut self, k: u32) -> M<()>
        ensures { OnOk result ((j : ℕ) → j < 2 ^ 32 →
            has self.new j ≡ (nat_eq j k || has self.old j)) }
    {
        self.keys.push(u32::MAX - k)?;
        Ok(())
    }

    /// Takes the least number out, once, in time logarithmic in how many there are.
    pub fn pop(&mut self) -> Option<u32>
        ensures none { IfNone result ((j : ℕ) → has self.old j ≡ false) }
        ensures empty { IfNone result (self.new ≡ self.old) }
        ensures least { IfSome result (λ k. (j : ℕ) → j < 2 ^ 32 → has self.old j ≡ true → k ≤ j) }
        ensures rest { IfSome result (λ k. (j : ℕ) → j < 2 ^ 32 →
            has self.old j ≡ (nat_eq j k || has self.new j)) }
        ensures fewer { OnSome result (length self.new < length self.old) }
    {
        let key = self.keys.pop()?;
        Some(u32::MAX - key)
    }
}
