//! Laws of residuals and of codes of joint letters.

ghost use Rattle.std.specs.Prelude.{◌≡◌, ◌↔◌, ℕ, ◌<◌, ◌≤◌, ◌||◌, Bool, true, List, length};
ghost use Rattle.std.specs.Int.RustNames.{bit_or};
ghost use Rattle.hy_formula.specs.Trees.{Tree};
ghost use Rattle.hy_formula.specs.Temporal.{Words, below, SatisfiesAt};
ghost use Rattle.ltl_closure.specs.Nodes.{Node};
ghost use Rattle.hy_formula.specs.Atoms.{IndexedAtom};
ghost use Rattle.fin_monitor.specs.Codes.{code_of};
ghost use Rattle.fin_monitor.specs.Duties.{Duty, residual_after, accepts, SomeReached, AreReached};
ghost use Rattle.ltl_closure.specs.Bodies.{body_nodes, body_root};

/// After the joint letters of finite words the residual accepts exactly where the body holds of them.
pub fn residuals()
    ensures { (m : ℕ) (words : Words) (body : Tree) → 0 < m
        → (accepts (residual_after (body_nodes body true) (body_root body true) words m) ≡ true)
        ↔ SatisfiesAt (below m) words body 0 }
{}

/// The code of the names of two letters is the bitwise or of the codes.
pub fn joined_codes()
    ensures { (p q : ℕ → ℕ → Bool) (atoms : List IndexedAtom)
        → code_of (λ n v. p n v || q n v) atoms ≡ bit_or (code_of p atoms) (code_of q atoms) }
{}

/// Residuals that are reached, each once, are at most as many as all that are reached; so how many
/// there are is one number.
pub fn residual_count()
    ensures most { (nodes : List Node) (root : ℕ) (some all : List (List Duty))
        → SomeReached nodes root some → AreReached nodes root all → length some ≤ length all }
    ensures one { (nodes : List Node) (root : ℕ) (some all : List (List Duty))
        → AreReached nodes root some → AreReached nodes root all → length some ≡ length all }
{}
