//! What paths of a safe net to `bad` stand for.

ghost use Rattle.std.specs.Prelude.{◌≡◌, ℕ, suc, ◌+◌, ◌-◌, ◌*◌, ◌<◌, ◌≤◌, true, false, length};
ghost use Rattle.aig_net.specs.declared.parts.Reset.TheVariants.{Zero};
ghost use Rattle.aig_net.specs.Nets.{Below, IsNet, IsRight, Net, Valuation, latch_variable, literal_value, reset_at, variables};
ghost use Rattle.aig_net.specs.Executions.{IsLassoExecution, Lasso, Word, gone, lasso_of};
ghost use Rattle.live_safe.specs.Paths.{IsBadPath};
ghost use Rattle.live_safe.specs.Safe.{saved, shown_word, to_safe};

/// A path from the start to `bad` of the safe net stands for a lasso execution: its stem are the
/// steps before the one that saves, its cycle that one and the later ones; and each lasso execution
/// has such a path. `bad` depends on latches alone.
pub fn paths_are_lassos()
    ensures path { (net : Net) (lasso : Lasso) → IsNet net → IsLassoExecution net lasso →
        (path : Word) × IsBadPath (to_safe net) (length lasso.stem + length lasso.cycle) path
        × (literal_value (path (length lasso.stem)) (saved net) ≡ false)
        × (literal_value (path (suc (length lasso.stem))) (saved net) ≡ true)
        × ((i u : ℕ) → u < variables net → shown_word net path i u ≡ gone lasso i u) }
    ensures lasso { (net : Net) (k : ℕ) (path : Word) → IsBadPath (to_safe net) k path →
        (t : ℕ) × (t < k) × (literal_value (path t) (saved net) ≡ false)
        × ((i : ℕ) → t < i → i ≤ k → literal_value (path i) (saved net) ≡ true)
        × IsLassoExecution net (lasso_of (shown_word net path) t (k - t)) }
    ensures net { (net : Net) → IsNet net → IsNet (to_safe net).net }
    ensures bad { (net : Net) → IsNet net → Below (variables (to_safe net).net) (to_safe net).bad }
    ensures latches { (net : Net) (v w : Valuation) → IsRight (to_safe net).net v
        → IsRight (to_safe net).net w → ((j : ℕ) → j < length (to_safe net).net.latches
        → v (latch_variable (to_safe net).net j) ≡ w (latch_variable (to_safe net).net j))
        → literal_value v (to_safe net).bad ≡ literal_value w (to_safe net).bad }
    ensures zero { (net : Net) (j : ℕ) → reset_at (to_safe net).net.resets j ≡ Zero }
{}

/// A safe net has few variables for each latch and fairness literal of its net, and no more for an
/// input or an and.
pub fn safe_nets_are_small()
    ensures { (net : Net) → variables (to_safe net).net
        ≤ variables net + 12 * length net.latches + 5 * length net.fairs + 5 }
{}
