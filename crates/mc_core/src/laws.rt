//! What is known of the answers of a check.

ghost use Rattle.std.specs.Prelude.{◌<◌, List, length};
ghost use Rattle.hy_formula.specs.Trees.{Tree};
ghost use Rattle.hy_formula.specs.declared.prefix.Quant.{Quant};
ghost use Rattle.aig_net.specs.declared.signals.Signal.{Signal};
ghost use Rattle.aig_net.specs.Nets.{Net};
ghost use Rattle.mc_core.specs.Answers.{IsChecked};
ghost use Rattle.mc_core.specs.Evidence.{HasOneEvidence};
ghost use Rattle.mc_core.specs.declared.ask.Ask.{Ask};
ghost use Rattle.mc_core.specs.declared.checked.Checked.{Checked};

/// A verdict has exactly one of runs, at least one and a trace for each, and a proof.
pub fn one_evidence()
    ensures { (net : Net) (signals : List Signal) (prefix : List Quant) (body : Tree) (ask : Ask)
        (checked : Checked) → 0 < length prefix → IsChecked net signals prefix body ask checked
        → HasOneEvidence checked }
{}
