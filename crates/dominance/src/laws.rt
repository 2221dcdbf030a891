//! Laws of dominance and of what is kept where dominated traces are dropped.

ghost use Rattle.std.specs.Prelude.{◌≡◌, ◌↔◌, ◌++◌, ◌∷◌, [], ℕ, Bool, List, length};
ghost use Rattle.std.specs.List.{Contains};
ghost use Rattle.hy_formula.specs.Trees.{Tree};
ghost use Rattle.hy_formula.specs.Quantifiers.{Each};
ghost use Rattle.hy_finite.specs.declared.lengths.Lengths.{Lengths as Rule};
ghost use Rattle.hy_finite.specs.Traces.{Trace, Violates};
ghost use Rattle.dominance.specs.Dominance.{IsTrace, Dominates};
ghost use Rattle.dominance.specs.Leaders.{Numbered, numbered, items, AreLeaders, kept_by, TestKept, leaders, Tests};

/// Each trace dominates itself, and what dominates a dominating one.
pub fn dominance_order()
    ensures itself { (rule : Rule) (n : ℕ) (body : Tree) (t : Trace) → Dominates rule n body t t }
    ensures through { (rule : Rule) (n : ℕ) (body : Tree) (t u v : Trace)
        → Dominates rule n body t u → Dominates rule n body u v → Dominates rule n body t v }
{}

/// The leaders after an arrival, from those before and tests of what is kept; by a test of all
/// pairs those of a whole list. They are one list, and no one dominates another.
pub fn leading()
    ensures none { (rule : Rule) (n : ℕ) (body : Tree)
        → AreLeaders (Dominates rule n body) [] [] }
    ensures arrival { (rule : Rule) (n : ℕ) (body : Tree) (list : List Trace)
        (kept : List (Numbered Trace)) → AreLeaders (Dominates rule n body) list kept
        → (t : Trace) (above under : Numbered Trace → Bool)
        → TestKept (Dominates rule n body) kept t above under
        → AreLeaders (Dominates rule n body) (list ++ t ∷ [])
        (kept_by above under kept (numbered (length list) t)) }
    ensures whole { (rule : Rule) (n : ℕ) (body : Tree) (over : Trace → Trace → Bool)
        → Tests over (Dominates rule n body)
        → (list : List Trace) → AreLeaders (Dominates rule n body) list (leaders over list) }
    ensures one { (rule : Rule) (n : ℕ) (body : Tree) (list : List Trace)
        (xs ys : List (Numbered Trace)) → AreLeaders (Dominates rule n body) list xs
        → AreLeaders (Dominates rule n body) list ys → xs ≡ ys }
    ensures apart { (rule : Rule) (n : ℕ) (body : Tree) (list : List Trace)
        (kept : List (Numbered Trace)) → AreLeaders (Dominates rule n body) list kept
        → (x y : Numbered Trace) → Contains kept x → Contains kept y
        → Dominates rule n body x.item y.item → x ≡ y }
{}

/// A list violates a body exactly where what dominates each of its traces does, as its leaders do.
pub fn replacing()
    ensures any { (rule : Rule) (n : ℕ) (body : Tree) (kept list : List Trace)
        → Each IsTrace list → Each (Contains list) kept
        → ((t : Trace) → Contains list t
        → (u : Trace) × Contains kept u × Dominates rule n body u t)
        → Violates rule n body list ↔ Violates rule n body kept }
    ensures leaders { (rule : Rule) (n : ℕ) (body : Tree) (list : List Trace)
        (kept : List (Numbered Trace)) → AreLeaders (Dominates rule n body) list kept
        → Each IsTrace list → Violates rule n body list ↔ Violates rule n body (items kept) }
{}
