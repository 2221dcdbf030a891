//! A law of what files are. The function is empty: its contract is the law.

ghost use Rattle.std.specs.Prelude.{◌≡◌, ℕ, List};
ghost use Rattle.aig_net.specs.Nets.{Net};
ghost use Rattle.hy_files.specs.declared.fault.FileFault.{FileFault};
ghost use Rattle.circuit_files.specs.Circuits.{IsCircuit, IsNoCircuit};

/// Bytes are one circuit, or are refused by one fault, and never both.
pub fn one_circuit()
    ensures taken { (bytes : List ℕ) (net other : Net) → IsCircuit bytes net
        → IsCircuit bytes other → net ≡ other }
    ensures refused { (bytes : List ℕ) (a b : FileFault) → IsNoCircuit bytes a
        → IsNoCircuit bytes b → a ≡ b }
    ensures apart { (bytes : List ℕ) (net : Net) (fault : FileFault) → IsCircuit bytes net
        → ¬ IsNoCircuit bytes fault }
{}
