//! What paths of the safe net of a formula say of a circuit.

ghost use Rattle.std.specs.Prelude.{◌≡◌, ◌↔◌, ℕ, ◌<◌, Bool, true, false, List, length, slice_index_or, IsTrue};
ghost use Rattle.hy_bits.specs.Letter.{Letter};
ghost use Rattle.hy_formula.specs.Trees.{Tree, vars_below};
ghost use Rattle.hy_formula.specs.Normals.{Signed};
ghost use Rattle.hy_formula.specs.Quantifiers.{repeated};
ghost use Rattle.hy_formula.specs.declared.prefix.Quant.TheVariants.{Exists, Forall};
ghost use Rattle.hy_formula.specs.Lassos as letters;
ghost use Rattle.hy_lasso.specs.Words as words;
ghost use Rattle.hy_lasso.specs.Words.{no_lasso};
ghost use Rattle.aig_net.specs.declared.run.Run.{Run};
ghost use Rattle.aig_net.specs.declared.signals.Signal.{Signal};
ghost use Rattle.aig_net.specs.Nets.{Net, IsNet};
ghost use Rattle.aig_net.specs.Executions.{Word};
ghost use Rattle.live_safe.specs.Paths.{IsBadPath};
ghost use Rattle.wit_lasso.specs.FormulaNets.{AreOwn, formula_safe, formula_tableau};
ghost use Rattle.wit_lasso.specs.Satisfaction.{Satisfies};
ghost use Rattle.wit_lasso.specs.Seeing.{IsTraceOf};
ghost use Rattle.wit_lasso.specs.Unfoldings.{AreUnfolded, run_at};

use aig_net::one_execution;

/// A circuit satisfies a universal formula exactly where no path from the start reaches bad in the
/// safe net of the formula, whose body is negated, and an existential one exactly where some path
/// does, where the body is not. The visible traces of the runs of such a path satisfy the body, or
/// its negation.
pub fn checked()
    ensures universal { (net : Net) (signals : List Signal) (n : ℕ) (body : Tree) → IsNet net
        → AreOwn net signals → 0 < n → IsTrue (vars_below n body)
        → Satisfies net signals (repeated Forall n) body
        ↔ ((k : ℕ) (word : Word) → ¬ IsBadPath (formula_safe net signals n body false) k word) }
    ensures existential { (net : Net) (signals : List Signal) (n : ℕ) (body : Tree) → IsNet net
        → AreOwn net signals → 0 < n → IsTrue (vars_below n body)
        → Satisfies net signals (repeated Exists n) body
        ↔ ((k : ℕ) × (word : Word) × IsBadPath (formula_safe net signals n body true) k word) }
    ensures traces { (net : Net) (signals : List Signal) (n : ℕ) (body : Tree) (positive : Bool)
        → IsNet net → AreOwn net signals → 0 < n → IsTrue (vars_below n body)
        → (k : ℕ) (word : Word) (runs : List Run) (traces : List (letters.Lasso Letter))
        → IsBadPath (formula_safe net signals n body positive) k word
        → AreUnfolded net n (formula_tableau signals n body positive) k word runs
        → length traces ≡ n
        → ((c : ℕ) → c < n → IsTraceOf net signals (run_at runs c) (slice_index_or traces c no_lasso))
        → Signed positive (words.Meets body traces) }
{
    one_execution();
}

/// Traces of runs show by themselves, however the runs were found, what they say: where they satisfy
/// the body, the circuit satisfies the existential formula, and where they fail it, it does not
/// satisfy the universal one.
pub fn witnesses_show()
    ensures existential { (net : Net) (signals : List Signal) (n : ℕ) (body : Tree)
        (runs : List Run) (traces : List (letters.Lasso Letter)) → 0 < n
        → IsTrue (vars_below n body)
        → ((c : ℕ) → c < n → IsTraceOf net signals (run_at runs c) (slice_index_or traces c no_lasso))
        → words.Meets body traces → Satisfies net signals (repeated Exists n) body }
    ensures universal { (net : Net) (signals : List Signal) (n : ℕ) (body : Tree)
        (runs : List Run) (traces : List (letters.Lasso Letter)) → 0 < n
        → IsTrue (vars_below n body)
        → ((c : ℕ) → c < n → IsTraceOf net signals (run_at runs c) (slice_index_or traces c no_lasso))
        → (¬ words.Meets body traces) → ¬ Satisfies net signals (repeated Forall n) body }
{}
