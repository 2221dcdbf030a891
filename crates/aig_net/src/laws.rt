//! Laws of the definitions: what follows from them, whatever the code does.

ghost use Rattle.std.specs.Prelude.{◌≡◌, ℕ, ◌*◌, ◌<◌, ◌≤◌, Bool, false, length};
ghost use Rattle.aig_net.specs.Nets.{Below, Net, Valuation, IsNet, IsRight, IsStart, first_and, literal_value, under, variables};
ghost use Rattle.aig_net.specs.Executions.{IsExecution, IsLassoExecution, Lasso, Recurs, Word, gone, lasso_of};
ghost use Rattle.aig_net.specs.Placed.{AreAmong, IsGiven, IsPlaced, through, word_through};
ghost use Rattle.aig_net.specs.Running.{AreGivenAlike, IsRunOn, Obeys};
ghost use Rattle.aig_net.specs.Simulations.{IsExecutionOf, IsRunOf, valuations};
ghost use Rattle.aig_net.specs.declared.run.Run.{Run};
ghost use Rattle.aig_net.specs.declared.run.ValueLasso.{ValueLasso};

/// Given the values of inputs and latches a net has exactly one valuation with right gates.
pub fn one_valuation()
    ensures some { (net : Net) (given : Valuation) → IsNet net → given 0 ≡ false →
        (v : Valuation) × IsRight net v × ((u : ℕ) → u < first_and net → v u ≡ given u) }
    ensures only { (net : Net) (v w : Valuation) → IsNet net → IsRight net v → IsRight net w →
        ((u : ℕ) → u < first_and net → v u ≡ w u) → (u : ℕ) → u < variables net → v u ≡ w u }
{}

/// Given inputs and first latches a net has exactly one run, and it recurs where the inputs do,
/// from there or later on, after a multiple of their period.
pub fn one_run()
    ensures some { (net : Net) (inputs : ℕ → ℕ → Bool) (latches : ℕ → Bool) → IsNet net →
        (word : Word) × IsRunOn net inputs latches word }
    ensures only { (net : Net) (v w : Word) → IsNet net → Obeys net v → Obeys net w →
        AreGivenAlike net v w → (i u : ℕ) → u < variables net → v i u ≡ w i u }
    ensures recurs { (net : Net) (inputs : ℕ → ℕ → Bool) (latches : ℕ → Bool) (word : Word)
        (s p : ℕ) → IsNet net → IsRunOn net inputs latches word → Recurs inputs s p →
        (t : ℕ) × (k : ℕ) × (s ≤ t) × Recurs word t (k * p) }
{}

/// A lasso execution, gone round for ever, is an execution, and an execution that repeats is that of
/// a lasso.
pub fn lassos_repeat()
    ensures gone { (net : Net) (lasso : Lasso) → IsLassoExecution net lasso →
        IsExecution net (gone lasso) }
    ensures recurs { (lasso : Lasso) → 0 < length lasso.cycle →
        Recurs (gone lasso) (length lasso.stem) (length lasso.cycle) }
    ensures lasso { (net : Net) (word : Word) (s c : ℕ) → Recurs word s c → IsExecution net word →
        IsLassoExecution net (lasso_of word s c) }
    ensures same { (word : Word) (s c : ℕ) → Recurs word s c → (i v : ℕ) →
        gone (lasso_of word s c) i v ≡ word i v }
{}

/// A run has at most one lasso of values.
pub fn one_execution()
    ensures { (net : Net) (run : Run) (a b : ValueLasso) → IsNet net →
        IsExecutionOf net run a → IsExecutionOf net run b → a ≡ b }
{}

/// The run of a lasso execution is that of values which agree with it.
pub fn runs_are_executions()
    ensures { (net : Net) (lasso : Lasso) (run : Run) → IsNet net → IsLassoExecution net lasso
        → IsRunOf net lasso run → (values : ValueLasso) × IsExecutionOf net run values
        × ((i u : ℕ) → u < variables net → gone (valuations values) i u ≡ gone lasso i u) }
{}

/// A part goes along with the whole in which it is placed: its word obeys, starts and recurs as
/// that of the whole does, and is an execution where the whole has the part's constraints and
/// fairness literals. Its literals stand for literals of the whole.
pub fn parts_go_along()
    ensures obeys { (part whole : Net) (f : ℕ → ℕ) (word : Word) → IsPlaced part whole f →
        Obeys whole word → Obeys part (word_through f word) }
    ensures starts { (part whole : Net) (f : ℕ → ℕ) (v : Valuation) → IsPlaced part whole f →
        IsStart whole v → IsStart part (through f v) }
    ensures execution { (part whole : Net) (f : ℕ → ℕ) (word : Word) → IsPlaced part whole f →
        AreAmong f part.constraints whole.constraints → AreAmong f part.fairs whole.fairs →
        IsExecution whole word → IsExecution part (word_through f word) }
    ensures recurs { (f : ℕ → ℕ) (word : Word) (s p : ℕ) → Recurs word s p →
        Recurs (word_through f word) s p }
    ensures below { (part whole : Net) (f : ℕ → ℕ) (l : ℕ) → IsPlaced part whole f →
        Below (variables part) l → Below (variables whole) (under f l) }
{}

/// Where the whole is given what a word of the part has, the part's word is that word, as far as
/// the variables go: its literals say the same, and it is an execution where that word is.
pub fn parts_are_given()
    ensures alike { (part whole : Net) (f : ℕ → ℕ) (inputs : ℕ → ℕ → Bool) (latches : ℕ → Bool)
        (word own : Word) → IsRunOn whole inputs latches word →
        IsGiven part whole f inputs latches own → AreGivenAlike part (word_through f word) own }
    ensures same { (part whole : Net) (f : ℕ → ℕ) (word own : Word) → IsNet part →
        IsPlaced part whole f → Obeys whole word → Obeys part own →
        AreGivenAlike part (word_through f word) own → (i u : ℕ) → u < variables part →
        word_through f word i u ≡ own i u }
    ensures says { (part whole : Net) (f : ℕ → ℕ) (word own : Word) → IsNet part →
        IsPlaced part whole f → Obeys whole word → Obeys part own →
        AreGivenAlike part (word_through f word) own → (i l : ℕ) → Below (variables part) l →
        literal_value (word i) (under f l) ≡ literal_value (own i) l }
    ensures execution { (part whole : Net) (f : ℕ → ℕ) (word own : Word) → IsNet part →
        IsPlaced part whole f → Obeys whole word → IsExecution part own →
        AreGivenAlike part (word_through f word) own → IsExecution part (word_through f word) }
{}
