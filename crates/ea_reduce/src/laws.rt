//! What the plans of formulas say of lists of lassos.

ghost use Rattle.std.specs.Prelude.{◌≢◌, ◌↔◌, List, length, IsTrue};
ghost use Rattle.hy_bits.specs.Letter.{Letter};
ghost use Rattle.hy_formula.specs.Trees.{Tree, vars_below};
ghost use Rattle.hy_formula.specs.Classes.{class_of};
ghost use Rattle.hy_formula.specs.declared.classes.Class.TheVariants.{Other};
ghost use Rattle.hy_formula.specs.declared.prefix.Quant.{Quant};
ghost use Rattle.hy_formula.specs.Lassos.{Lasso};
ghost use Rattle.hy_lasso.specs.Words.{IsSatisfiable};
ghost use Rattle.ea_reduce.specs.Plans.{PlainPlan, reduction, implication};
ghost use Rattle.ea_reduce.specs.Fulfilled.{Fulfils, IsFulfillable, IsModel, Separates, IsOfOneKind};
ghost use Rattle.ea_reduce.specs.Joints.{AreShortened};

/// A tuple that fulfils the plan of a formula is a list that satisfies it, and there is one exactly
/// where the formula is satisfiable.
pub fn reducing()
    ensures model { (prefix : List Quant) (body : Tree) → IsTrue (vars_below (length prefix) body)
        → (tuple : List (Lasso Letter)) → Fulfils (reduction prefix body) tuple
        → IsModel prefix body tuple }
    ensures exactly { (prefix : List Quant) (body : Tree) → IsTrue (vars_below (length prefix) body)
        → class_of prefix ≢ Other
        → IsFulfillable (reduction prefix body) ↔ IsSatisfiable prefix body }
{}

/// A tuple that fulfils the plan of two formulas is a list that satisfies the first and not the
/// second, and there is one exactly where some list does.
pub fn implying()
    ensures separates { (first : List Quant) (body : Tree) (second : List Quant) (other : Tree)
        → IsTrue (vars_below (length first) body) → IsTrue (vars_below (length second) other)
        → (tuple : List (Lasso Letter)) → Fulfils (implication first body second other) tuple
        → Separates first body second other tuple }
    ensures exactly { (first : List Quant) (body : Tree) (second : List Quant) (other : Tree)
        → IsTrue (vars_below (length first) body) → IsTrue (vars_below (length second) other)
        → IsOfOneKind first → IsOfOneKind second
        → IsFulfillable (implication first body second other)
        ↔ ((list : List (Lasso Letter)) × Separates first body second other list) }
{}

/// The lassos of a tuple that fulfils a plan may be shortened.
pub fn shortening()
    ensures { (plan : PlainPlan) (tuple list : List (Lasso Letter)) → AreShortened tuple list
        → Fulfils plan tuple → Fulfils plan list }
{}
