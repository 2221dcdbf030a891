//! What is known of a formula that is posed to a circuit.

ghost use Rattle.std.specs.Prelude.{ℕ, ◌+◌, ◌*◌, ◌<◌, ◌≤◌, List, length, not, IsTrue};
ghost use Rattle.hy_base.specs.declared.reading.TheConstants.{BYTES_LIMIT};
ghost use Rattle.hy_bits.specs.Letter.{Letter};
ghost use Rattle.hy_formula.specs.Lassos as letters;
ghost use Rattle.hy_formula.specs.declared.prefix.Quant.{Quant};
ghost use Rattle.hy_formula.specs.Normals.{Signed};
ghost use Rattle.hy_formula.specs.Trees.{Tree, vars_below};
ghost use Rattle.aig_net.specs.declared.run.Run.{Run};
ghost use Rattle.aig_net.specs.declared.signals.Signal.{Signal};
ghost use Rattle.aig_net.specs.Executions.{Word};
ghost use Rattle.aig_net.specs.Nets.{IsNet, Net, variables};
ghost use Rattle.ltl_closure.specs.Jobs.{Rooted};
ghost use Rattle.live_safe.specs.Paths.{IsBadPath};
ghost use Rattle.net_names.specs.Names.{AreSignals};
ghost use Rattle.wit_lasso.specs.FormulaNets.{AreOwn};
ghost use Rattle.wit_lasso.specs.Satisfaction.{Satisfies};
ghost use Rattle.formula_nets.specs.Posed.{HasRoom, IsTaken, checked_safe, is_existential};
ghost use Rattle.formula_nets.specs.SafeNets.{safe_over};
ghost use Rattle.formula_nets.specs.Witnesses.{AreWitnesses};

use live_safe::safe_nets_are_small;
use self_compose::copies_are_as_large;
use sym_tableau::attached_nets_are_small;

/// Signals of the names of one body say the same of the circuit.
pub fn same_signals()
    ensures { (net : Net) (names : List (List ℕ)) (prefix : List Quant) (body : Tree)
        (a b : List Signal) → AreSignals net names body a → AreSignals net names body b
        → Satisfies net a prefix body → Satisfies net b prefix body }
{}

/// Signals of the names of a body are those of variable 0, for literals of the circuit.
pub fn signals_are_own()
    ensures { (net : Net) (names : List (List ℕ)) (body : Tree) (signals : List Signal) → IsNet net
        → AreSignals net names body signals → AreOwn net signals }
{}

/// An existential formula is satisfied where some path from the start reaches bad in its safe net,
/// and not where none does. With a universal formula it is the other way.
pub fn paths_decide()
    ensures some { (net : Net) (signals : List Signal) (prefix : List Quant) (body : Tree)
        → IsNet net → AreOwn net signals → 0 < length prefix
        → IsTrue (vars_below (length prefix) body) → IsTaken prefix → (k : ℕ) (word : Word)
        → IsBadPath (checked_safe net signals prefix body) k word
        → Signed (is_existential prefix) (Satisfies net signals prefix body) }
    ensures none { (net : Net) (signals : List Signal) (prefix : List Quant) (body : Tree)
        → IsNet net → AreOwn net signals → 0 < length prefix
        → IsTrue (vars_below (length prefix) body) → IsTaken prefix
        → ((k : ℕ) (word : Word) → ¬ IsBadPath (checked_safe net signals prefix body) k word)
        → Signed (not (is_existential prefix)) (Satisfies net signals prefix body) }
{}

/// Witnesses show by themselves, however they were found, that a circuit satisfies an existential
/// formula, whose body they satisfy, or does not satisfy a universal one, whose body they fail.
pub fn witnesses_decide()
    ensures { (net : Net) (signals : List Signal) (prefix : List Quant) (body : Tree)
        (traces : List (letters.Lasso Letter)) (runs : List Run) → 0 < length prefix
        → IsTrue (vars_below (length prefix) body) → IsTaken prefix
        → AreWitnesses net signals (length prefix) body (is_existential prefix) traces runs
        → Signed (is_existential prefix) (Satisfies net signals prefix body) }
{}

/// The safe net of a closure over `n` copies of a net has few variables for each of the net in each
/// copy, and for each member and root of the closure.
pub fn safe_nets_over_are_small()
    ensures { (net : Net) (signals : List Signal) (n : ℕ) (closure : Rooted) → 0 < n
        → variables (safe_over net signals n closure).net
        ≤ 13 * (n * variables net + 6 * length closure.nodes + length closure.roots)
        + 5 * (n * length net.fairs + length closure.nodes) + 18 }
{
    safe_nets_are_small();
    attached_nets_are_small();
    copies_are_as_large();
}

/// There is room for the safe net of a formula of at most four quantifiers on a circuit of at most
/// 1,048,576 variables that was read from a file.
pub fn circuits_have_room()
    ensures { (net : Net) (names : List (List ℕ)) (prefix : List Quant) (body : Tree)
        → net.inputs + length net.latches + length net.ands ≤ 1048576
        → length net.outputs + length net.constraints + length net.fairs ≤ BYTES_LIMIT
        → 0 < length prefix → length prefix ≤ 4 → HasRoom net names prefix body }
{
    safe_nets_over_are_small();
}
