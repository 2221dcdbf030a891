//! What the executions of the copies are.

ghost use Rattle.std.specs.Prelude.{◌≡◌, ℕ, ◌*◌, ◌<◌, ◌≤◌, false, length};
ghost use Rattle.aig_net.specs.Nets.{Net, IsNet, variables};
ghost use Rattle.aig_net.specs.Executions.{IsExecution, IsLassoExecution, Lasso, Recurs, Word, gone};
ghost use Rattle.self_compose.specs.Copies.{compose, copy, joined};

/// The executions of n copies are the n-tuples of executions, and repeat as these do.
pub fn executions_are_tuples()
    ensures copy { (net : Net) (n : ℕ) (word : Word) → IsNet net → IsExecution (compose net n) word →
        (c : ℕ) → c < n → IsExecution net (copy n c word) }
    ensures join { (net : Net) (n : ℕ) (word : Word) → IsNet net → 0 < n →
        ((c : ℕ) → c < n → IsExecution net (copy n c word)) → IsExecution (compose net n) word }
    ensures joined { (n : ℕ) (words : ℕ → Word) (c i v : ℕ) → c < n → words c i 0 ≡ false →
        copy n c (joined n words) i v ≡ words c i v }
    ensures copy_recurs { (n : ℕ) (word : Word) (s p c : ℕ) → Recurs word s p →
        Recurs (copy n c word) s p }
    ensures joined_recurs { (n : ℕ) (words : ℕ → Word) (s p : ℕ) → 0 < n → 0 < p →
        ((c : ℕ) → c < n → Recurs (words c) s p) → Recurs (joined n words) s p }
    ensures net { (net : Net) (n : ℕ) → 0 < n → IsNet net → IsNet (compose net n) }
{}

/// Gone round for ever, the lasso executions of n copies are the n-tuples of lasso executions.
pub fn lassos_are_tuples()
    ensures copy { (net : Net) (n : ℕ) (lasso : Lasso) → IsNet net →
        IsLassoExecution (compose net n) lasso → (c : ℕ) → c < n →
        (own : Lasso) × IsLassoExecution net own
        × ((i v : ℕ) → gone own i v ≡ copy n c (gone lasso) i v) }
    ensures join { (net : Net) (n : ℕ) (owns : ℕ → Lasso) → IsNet net → 0 < n →
        ((c : ℕ) → c < n → IsLassoExecution net (owns c)) →
        (lasso : Lasso) × IsLassoExecution (compose net n) lasso
        × ((c i v : ℕ) → c < n → copy n c (gone lasso) i v ≡ gone (owns c) i v) }
{}

/// The copies have no more variables than so many nets, and as many latches and fairness literals.
pub fn copies_are_as_large()
    ensures variables { (net : Net) (n : ℕ) → 0 < n
        → variables (compose net n) ≤ n * variables net }
    ensures latches { (net : Net) (n : ℕ)
        → length (compose net n).latches ≡ n * length net.latches }
    ensures fairs { (net : Net) (n : ℕ) → length (compose net n).fairs ≡ n * length net.fairs }
{}
