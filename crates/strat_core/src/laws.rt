//! What is known of the answers of a check by a strategy.

ghost use Rattle.std.specs.Prelude.{◌≡◌, ◌+◌, ◌<◌, ◌≤◌, ℕ, List, length, IsTrue};
ghost use Rattle.hy_bits.specs.Letter.{Letter};
ghost use Rattle.hy_formula.specs.Atoms.{atoms_of};
ghost use Rattle.hy_formula.specs.Lassos as letters;
ghost use Rattle.hy_formula.specs.Trees.{Tree, vars_below};
ghost use Rattle.hy_formula.specs.declared.prefix.Quant.{Quant};
ghost use Rattle.aig_net.specs.declared.run.Run.{Run};
ghost use Rattle.aig_net.specs.declared.signals.Signal.{Signal};
ghost use Rattle.aig_net.specs.Nets.{IsNet, Net};
ghost use Rattle.net_names.specs.Names.{AreSignals};
ghost use Rattle.wit_lasso.specs.Satisfaction.{Satisfies};
ghost use Rattle.strat_compose.specs.Completions.{Wins};
ghost use Rattle.strat_compose.specs.Driving.{IsSmall, name_count, signal_of};
ghost use Rattle.strat_compose.specs.Formulas.{driven_body};
ghost use Rattle.strat_compose.specs.Prefixes.{IsForallExists};
ghost use Rattle.formula_nets.specs.Posed.{HasRoom};
ghost use Rattle.strat_core.specs.Answers.{AreFailing};
ghost use Rattle.strat_core.specs.Questions.{IsAsked, driven_by, driven_names, one_forall};

use aig_net::one_run;
use live_safe::safe_nets_are_small;
use self_compose::copies_are_as_large;
use strat_compose::driven_nets_are_nets;
use sym_tableau::attached_nets_are_small;

/// There is room for the safe net of a driven formula on its driven net.
pub fn driven_nets_have_room()
    ensures { (net strategy : Net) (m e : ℕ) (signals : List Signal) (body : Tree)
        → IsSmall net → IsSmall strategy → 0 < m → 0 < e → m + e ≤ 4
        → name_count net e (atoms_of body) ≤ 64
        → HasRoom (driven_by net strategy m e signals body) (driven_names net e body) one_forall
        (driven_body net e body) }
{
    safe_nets_are_small();
    attached_nets_are_small();
    copies_are_as_large();
    driven_nets_are_nets();
}

/// A question is read in one way: a prefix has one number of universal and one of existential
/// quantifiers, and a name has one literal.
pub fn one_reading()
    ensures copies { (prefix : List Quant) (m e n k : ℕ) → IsForallExists prefix m e
        → IsForallExists prefix n k → (m ≡ n) × (e ≡ k) }
    ensures signals { (net : Net) (names : List (List ℕ)) (body : Tree) (a b : List Signal)
        → AreSignals net names body a → AreSignals net names body b
        → signal_of a ≡ signal_of b }
{}

/// Where the strategy wins, the circuit satisfies the formula.
pub fn strategies_satisfy()
    ensures { (net strategy : Net) (prefix : List Quant) (body : Tree) (names : List (List ℕ))
        (m e : ℕ) (signals : List Signal) → IsNet net → IsNet strategy
        → IsTrue (vars_below (length prefix) body)
        → IsAsked net strategy prefix body names m e signals
        → Wins net strategy m e (signal_of signals) body → Satisfies net signals prefix body }
{
    one_run();
}

/// A strategy that wins has no runs whose completion fails, so no two answers to a question deny each
/// other.
pub fn one_verdict()
    ensures { (net strategy : Net) (prefix : List Quant) (body : Tree) (names : List (List ℕ))
        (m e n k : ℕ) (a b : List Signal) (traces : List (letters.Lasso Letter))
        (runs : List Run) → IsAsked net strategy prefix body names m e a
        → IsAsked net strategy prefix body names n k b
        → Wins net strategy m e (signal_of a) body
        → ¬ AreFailing net strategy n k b body traces runs }
{}
