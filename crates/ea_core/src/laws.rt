//! Laws of what is decided.

ghost use Rattle.std.specs.Prelude.{ℕ};
ghost use Rattle.ea_reduce.specs.Plans.{PlainPlan};
ghost use Rattle.ea_core.specs.Undecided.{HasFewBranches, HasManyBranches};

/// Not both at most n branches and more are reachable.
pub fn few_or_many()
    ensures { (plan : PlainPlan) (n : ℕ) → HasFewBranches plan n → ¬ HasManyBranches plan n }
{}
