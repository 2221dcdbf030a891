//! Laws of the definitions.

ghost use Rattle.std.specs.Prelude.{◌≡◌, ◌↔◌, ◌+◌, ◌<◌, ◌≤◌, ◌^◌, ℕ, List, true, length};
ghost use Rattle.hy_formula.specs.Atoms.{IndexedAtom, atoms_of, has_name};
ghost use Rattle.hy_formula.specs.Temporal.{IsDecided, SatisfiesAt, Words, endless};
ghost use Rattle.hy_formula.specs.Trees.{Tree, vars_below};
ghost use Rattle.aig_net.specs.declared.run.Run.{Run};
ghost use Rattle.aig_net.specs.declared.run.ValueLasso.{ValueLasso};
ghost use Rattle.aig_net.specs.declared.signals.Signal.{Signal};
ghost use Rattle.aig_net.specs.Executions.{IsExecution, IsLassoExecution, Lasso, Recurs, Word, gone};
ghost use Rattle.aig_net.specs.Nets.{Below, IsNet, IsRight, Net, literal_at, variables};
ghost use Rattle.aig_net.specs.Signals.{visible};
ghost use Rattle.aig_net.specs.Simulations.{IsExecutionOf, IsRunOf, valuations};
ghost use Rattle.net_names.specs.Names.{AreSignals, IsOnly, name_at};
ghost use Rattle.strat_compose.specs.declared.group.Group.{Group};
ghost use Rattle.strat_compose.specs.AtomNumbers.{atom_at};
ghost use Rattle.strat_compose.specs.Completions.{AreRight, Goes, IsCompletion, Wins, shown_words};
ghost use Rattle.strat_compose.specs.Driving.{IsSmall, IsStrategy, driven, driven_outputs, existential_of, fresh_names, name_count, parts_of, player_of, universal_of};
ghost use Rattle.strat_compose.specs.Formulas.{driven_body, output_words};
ghost use Rattle.strat_compose.specs.Groups.{part};
ghost use Rattle.strat_compose.specs.Runs.{HasCopies, universal_run};
ghost use Rattle.strat_compose.specs.Winning.{Fulfils, Succeeds, driven_for, existential_words, player_word, universal_words};

use aig_net::one_run;

/// A driven net is a net.
pub fn driven_nets_are_nets()
    ensures net { (net strategy : Net) (m e : ℕ) (signal : ℕ → ℕ) (atoms : List IndexedAtom)
        → IsNet net → IsNet strategy → ((n : ℕ) → Below (variables net) (signal n))
        → ((k : ℕ) → k < length atoms → (atom_at atoms k).variable < m + e)
        → IsNet (driven net strategy (parts_of net strategy m e) signal atoms) }
    ensures variables { (net strategy : Net) (m e : ℕ) (signal : ℕ → ℕ)
        (atoms : List IndexedAtom) → IsSmall net → IsSmall strategy
        → 0 < m → 0 < e → m + e ≤ 4
        → variables (driven net strategy (parts_of net strategy m e) signal atoms) ≤ 2 ^ 28 }
    ensures latches { (net strategy : Net) (m e : ℕ) (signal : ℕ → ℕ)
        (atoms : List IndexedAtom) → IsSmall net → IsSmall strategy → m + e ≤ 4
        → length (driven net strategy (parts_of net strategy m e) signal atoms).latches ≤ 2 ^ 23 }
    ensures fairs { (net strategy : Net) (m e : ℕ) (signal : ℕ → ℕ)
        (atoms : List IndexedAtom) → 0 < e → m + e ≤ 4 → name_count net e atoms ≤ 64
        → length (driven net strategy (parts_of net strategy m e) signal atoms).fairs ≤ 2 ^ 8 }
{}

/// The universal parts of a driven net go as the circuit does, and its other parts are their
/// completion. It is an execution exactly where each universal part is one.
pub fn executions_are_completed()
    ensures parts { (net strategy : Net) (m e : ℕ) (signal : ℕ → ℕ)
        (atoms : List IndexedAtom) (word : Word) → IsNet net → IsNet strategy
        → Goes (driven net strategy (parts_of net strategy m e) signal atoms) word
        → (c : ℕ) → c < m → Goes net (part net (universal_of net strategy m e) c word) }
    ensures completion { (net strategy : Net) (m e : ℕ) (signal : ℕ → ℕ)
        (atoms : List IndexedAtom) (word : Word) → IsNet net → IsNet strategy
        → IsStrategy net strategy m e
        → Goes (driven net strategy (parts_of net strategy m e) signal atoms) word
        → IsCompletion net strategy m e (λ c. part net (universal_of net strategy m e) c word)
        (part strategy (player_of net strategy m e) 0 word)
        (λ d. part net (existential_of net strategy m e) d word) }
    ensures executions { (net strategy : Net) (m e : ℕ) (signal : ℕ → ℕ)
        (atoms : List IndexedAtom) (word : Word) → IsNet net → IsNet strategy
        → Goes (driven net strategy (parts_of net strategy m e) signal atoms) word
        → IsExecution (driven net strategy (parts_of net strategy m e) signal atoms) word
        ↔ ((c : ℕ) → c < m
        → IsExecution net (part net (universal_of net strategy m e) c word)) }
{}

/// Where the gates of a driven net are right and its outputs decided, as in lassos, the driven
/// formula holds exactly where the existential copies keep all constraints and are fair, and the
/// body holds of all copies.
pub fn driven_formulas_are_right()
    ensures { (net strategy : Net) (m e : ℕ) (signal : ℕ → ℕ) (body : Tree) (word : Word)
        → ((i : ℕ) → IsRight (driven net strategy (parts_of net strategy m e) signal
        (atoms_of body)) (word i)) → IsDecided endless (output_words net strategy
        (parts_of net strategy m e) signal (atoms_of body) word)
        → SatisfiesAt endless (output_words net strategy (parts_of net strategy m e) signal
        (atoms_of body) word) (driven_body net e body) 0
        ↔ (AreRight net e (λ d. part net (existential_of net strategy m e) d word)
        × SatisfiesAt endless (shown_words signal m
        (λ c. part net (universal_of net strategy m e) c word)
        (λ d. part net (existential_of net strategy m e) d word)) body 0) }
{}

/// The names of a driven formula are the numbers of the driven net's outputs, and each stands for its
/// output alone. So by them is seen what the outputs show.
pub fn driven_names_are_outputs()
    ensures own { (net : Net) (e : ℕ) (body : Tree) (name : ℕ)
        → has_name (driven_body net e body) name ≡ true → name < name_count net e (atoms_of body) }
    ensures only { (net strategy : Net) (m e : ℕ) (signal : ℕ → ℕ) (atoms : List IndexedAtom)
        (name : ℕ) → name < name_count net e atoms
        → IsOnly (driven net strategy (parts_of net strategy m e) signal atoms)
        (name_at (fresh_names (name_count net e atoms)) name)
        (literal_at (driven_outputs net strategy (parts_of net strategy m e) signal atoms) name) }
    ensures seen { (net strategy : Net) (m e : ℕ) (signal : ℕ → ℕ) (body : Tree)
        (signals : List Signal) → AreSignals (driven_for net strategy m e signal body)
        (fresh_names (name_count net e (atoms_of body))) (driven_body net e body) signals
        → (word : Word) (words : Words)
        → ((name i : ℕ) → words name 0 i ≡ visible signals word name i)
        → SatisfiesAt endless words (driven_body net e body) 0
        ↔ SatisfiesAt endless (output_words net strategy (parts_of net strategy m e) signal
        (atoms_of body) word) (driven_body net e body) 0 }
{}

/// A strategy wins exactly where each lasso execution of the driven net fulfils the driven formula.
pub fn strategies_win()
    ensures wins { (net strategy : Net) (m e : ℕ) (signal : ℕ → ℕ) (body : Tree) → IsNet net
        → IsNet strategy → IsStrategy net strategy m e → 0 < m
        → ((n : ℕ) → Below (variables net) (signal n)) → vars_below (m + e) body ≡ true
        → ((lasso : Lasso) → IsLassoExecution (driven_for net strategy m e signal body) lasso
        → Fulfils net strategy m e signal body lasso) → Wins net strategy m e signal body }
    ensures fulfilled { (net strategy : Net) (m e : ℕ) (signal : ℕ → ℕ) (body : Tree)
        → IsNet net → IsNet strategy → IsStrategy net strategy m e
        → Wins net strategy m e signal body → (lasso : Lasso)
        → IsLassoExecution (driven_for net strategy m e signal body) lasso
        → Fulfils net strategy m e signal body lasso }
{
    one_run();
}

/// Where a lasso execution of the driven net fails the driven formula, its universal parts are
/// executions of the circuit that recur, and whose completion is not right or fails the body.
pub fn strategies_fail()
    ensures recurs { (net : Net) (group : Group) (c : ℕ) (lasso : Lasso)
        → 0 < length lasso.cycle
        → Recurs (part net group c (gone lasso)) (length lasso.stem) (length lasso.cycle) }
    ensures fails { (net strategy : Net) (m e : ℕ) (signal : ℕ → ℕ) (body : Tree) (lasso : Lasso)
        → IsNet net → IsNet strategy → IsStrategy net strategy m e
        → IsLassoExecution (driven_for net strategy m e signal body) lasso
        → ¬ Fulfils net strategy m e signal body lasso
        → ((c : ℕ) → c < m → IsExecution net (universal_words net strategy m e (gone lasso) c))
        × IsCompletion net strategy m e (universal_words net strategy m e (gone lasso))
        (player_word net strategy m e (gone lasso)) (existential_words net strategy m e (gone lasso))
        × (¬ Succeeds net m e signal body (universal_words net strategy m e (gone lasso))
        (existential_words net strategy m e (gone lasso))) }
{}

/// The runs of the universal copies, as they are picked from a run of the driven net, are those of
/// lasso executions of the circuit; a run of the driven net has them.
pub fn universal_runs_are_runs()
    ensures has { (net strategy : Net) (m e : ℕ) (signal : ℕ → ℕ) (atoms : List IndexedAtom)
        (run : Run) (values : ValueLasso)
        → IsExecutionOf (driven net strategy (parts_of net strategy m e) signal atoms) run values
        → HasCopies net m run }
    ensures runs { (net strategy : Net) (m e : ℕ) (signal : ℕ → ℕ) (atoms : List IndexedAtom)
        (run : Run) (values : ValueLasso) → IsNet net → IsNet strategy
        → IsExecutionOf (driven net strategy (parts_of net strategy m e) signal atoms) run values
        → (c : ℕ) → c < m
        → (own : Lasso) × IsLassoExecution net own × IsRunOf net own (universal_run net m run c)
        × ((i v : ℕ) → gone own i v
        ≡ universal_words net strategy m e (gone (valuations values)) c i v) }
{}
