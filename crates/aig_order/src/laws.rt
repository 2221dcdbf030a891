//! Laws of the order of ands, and of dependence.

ghost use Rattle.std.specs.Prelude.{◌≡◌, ◌<◌, ◌↔◌, ℕ, List, length, IsTrue};
ghost use Rattle.std.specs.List.{range_with_len};
ghost use Rattle.aig_order.specs.declared.gate.Gate.{Gate};
ghost use Rattle.aig_order.specs.Firsts.{holds};
ghost use Rattle.aig_order.specs.Gates.{IsOrder, IsComplete, AreSorted, Depends, depends, order};

/// In the order of the ands each comes once and uses only earlier ones.
#[tactic(auto, using(crate::proofs::LawLemmas::laws))]
pub fn ordered()
    ensures { (gates : List Gate) → IsOrder gates (order gates) }
{}

/// An and that depends on itself is in no such order.
#[tactic(auto, using(crate::proofs::LawLemmas::laws))]
pub fn cyclic_absent()
    ensures { (gates : List Gate) (list : List ℕ) → IsOrder gates list → (k : ℕ) →
        Depends gates k k → ¬ IsTrue (holds k list) }
{}

/// Where no and depends on itself the order has all of them.
#[tactic(auto, using(crate::proofs::LawLemmas::laws))]
pub fn complete()
    ensures { (gates : List Gate) → ((k : ℕ) → k < length gates → ¬ Depends gates k k) →
        IsComplete gates (order gates) }
{}

/// Dependence is decided by as many steps as there are ands.
#[tactic(auto, using(crate::proofs::LawLemmas::laws))]
pub fn depends_right()
    ensures { (gates : List Gate) (k j : ℕ) → k < length gates → j < length gates →
        Depends gates k j ↔ IsTrue (depends gates (length gates) k j) }
{}

/// The ands of a net keep their order.
pub fn sorted_order()
    ensures { (first : ℕ) (gates : List Gate) → AreSorted first gates →
        order gates ≡ range_with_len 0 (length gates) }
{}
