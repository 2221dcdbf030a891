//! What the executions of a net with oracles are.

ghost use Rattle.std.specs.Prelude.{◌≡◌, ◌↔◌, ◌+◌, ◌*◌, ◌<◌, ◌≤◌, ℕ, suc, List, length, true, IsTrue};
ghost use Rattle.hy_formula.specs.Temporal.{IsDecided, endless};
ghost use Rattle.hy_formula.specs.Normals.{HoldsAt, Normal};
ghost use Rattle.ltl_closure.specs.Nodes.{Node, Numbers, PartsBelow, node_at};
ghost use Rattle.aig_net.specs.Nets.{Below, IsNet, Net, literal_at, literal_value, variables};
ghost use Rattle.aig_net.specs.Executions.{IsExecution, Recurs, Word};
ghost use Rattle.sym_tableau.specs.Oracles.{attach, foretold, is_temporal, oracle, read, unmoved};

/// An execution of the net with oracles is one of the net on which the roots hold; and each such
/// word extends to one in which the oracle of a member says at each position what the member, or
/// the operand of a next, says at the next position.
pub fn executions_are_words()
    ensures below { (net : Net) (nodes : List Node) (signals : ℕ → ℕ → ℕ) (roots : List ℕ)
        (word : Word) → IsExecution (attach net nodes signals roots) word
        → IsExecution net (unmoved net nodes word) }
    ensures hold { (net : Net) (nodes : List Node) (signals : ℕ → ℕ → ℕ) (roots : List ℕ)
        (word : Word) → IsExecution (attach net nodes signals roots) word
        → (form : ℕ → Normal) → Numbers nodes form → (r : ℕ) → r < length roots
        → literal_at roots r < length nodes → HoldsAt endless
        (read signals (unmoved net nodes word)) (form (literal_at roots r)) 0 }
    ensures extends { (net : Net) → IsNet net → (nodes : List Node) (form : ℕ → Normal)
        → Numbers nodes form → (signals : ℕ → ℕ → ℕ)
        → ((n x : ℕ) → Below (variables net) (signals n x)) → (roots : List ℕ)
        → ((r : ℕ) → r < length roots → literal_at roots r < length nodes) → (word : Word)
        → IsExecution net word → IsDecided endless (read signals word)
        → ((r : ℕ) → r < length roots
        → HoldsAt endless (read signals word) (form (literal_at roots r)) 0)
        → (new : Word) × IsExecution (attach net nodes signals roots) new
        × ((i u : ℕ) → u < variables net → unmoved net nodes new i u ≡ word i u)
        × ((k i : ℕ) → k < length nodes → is_temporal (node_at nodes k) ≡ true
        → IsTrue (literal_value (new i) (oracle net nodes k))
        ↔ HoldsAt endless (read signals word) (form (foretold k (node_at nodes k))) (suc i))
        × ((s c : ℕ) → Recurs word s c → Recurs new (suc s) c) }
    ensures net { (net : Net) (nodes : List Node) → IsNet net → (signals : ℕ → ℕ → ℕ)
        (roots : List ℕ) → ((n x : ℕ) → Below (variables net) (signals n x))
        → ((k : ℕ) → k < length nodes → PartsBelow k (node_at nodes k))
        → IsNet (attach net nodes signals roots) }
{}

/// A net with oracles is not much larger than its net and the closure.
pub fn attached_nets_are_small()
    ensures variables { (net : Net) (nodes : List Node) (signals : ℕ → ℕ → ℕ) (roots : List ℕ)
        → variables (attach net nodes signals roots)
        ≤ variables net + 6 * length nodes + length roots + 1 }
    ensures latches { (net : Net) (nodes : List Node) (signals : ℕ → ℕ → ℕ) (roots : List ℕ)
        → length (attach net nodes signals roots).latches
        ≤ length net.latches + length nodes + 1 }
    ensures fairs { (net : Net) (nodes : List Node) (signals : ℕ → ℕ → ℕ) (roots : List ℕ)
        → length (attach net nodes signals roots).fairs ≤ length net.fairs + length nodes }
{}
