//! Judges the safe net of a formula.

ghost use Rattle.std.specs.Prelude.{◌≡◌, ◌<◌, ◌^◌, length, IfErr, IfOk, IsTrue};
ghost use Rattle.hy_formula.specs.Trees.{tree_of, vars_below};
ghost use Rattle.cnf_frames.specs.Facts.{IsSafe};
ghost use Rattle.wit_lasso.specs.FormulaNets.{AreOwn};
ghost use Rattle.formula_nets.specs.Posed.{IsTaken, checked_safe, is_existential};
ghost use Rattle.mc_core.specs.Answers.{IsChecked, IsWorkRefusal, answered};

use crate::ask::Ask;
use crate::checked::Checked;
use crate::deciding::decide;
use crate::decision::Decision;
use crate::mc_error::McError;
use aig_net::{Net, RunList, Signals};
use cnf_frames::InductionProof;
use formula_nets::{find_witnesses, paths_decide};
use hy_base::List;
use hy_formula::Formula;
use hy_lasso::LassoList;
use live_safe::SafeNet;
use std::alloc::Global;

/// Judges a formula by its safe net.
pub fn judge(
    alloc: Global,
    net: &Net,
    formula: &Formula,
    existential: bool,
    signals: &Signals,
    safe: &SafeNet,
    ask: &Ask,
) -> Result<Checked, McError>
    requires taken { IsTaken formula.now.prefix }
    requires small { IsTrue (vars_below (length formula.now.prefix) (tree_of formula.now.body)) }
    requires kind { existential ≡ is_existential formula.now.prefix }
    requires own { AreOwn net.now signals.now }
    requires safe { safe.now ≡ checked_safe net.now signals.now formula.now.prefix
        (tree_of formula.now.body) }
    requires good { IsSafe safe.now }
    requires conflicts { ask.now.conflicts < 2 ^ 31 }
    ensures checked { IfOk result (IsChecked net.now signals.now formula.now.prefix
        (tree_of formula.now.body) ask.now) }
    ensures refused { IfErr result (IsWorkRefusal safe.now ask.now) }
{
    net.variables(); // what each net keeps
    formula.prefix.len(); // and each prefix
    paths_decide(); // what paths of the safe net say
    match decide(alloc, safe, ask)? {
        Decision::Safe(proof) => Ok(answer(
            !existential,
            List::new(alloc),
            List::new(alloc),
            Some(proof),
        )),
        Decision::Path(path) | Decision::FarPath(path) => {
            let found = find_witnesses(alloc, net, formula, signals, safe, &path)?;
            Ok(answer(existential, found.traces, found.runs, None))
        }
        Decision::Depth { kept, path } => Ok(Checked::UnknownDepth {
            depth: ask.depth,
            kept,
            path,
        }),
        Decision::Spent { k, step, kept, log } => Ok(Checked::UnknownConflicts {
            conflicts: ask.conflicts,
            k,
            step,
            kept,
            log,
        }),
    }
}

/// The answer that the circuit satisfies the formula, or that it does not.
fn answer(holds: bool, traces: LassoList, runs: RunList, proof: Option<InductionProof>) -> Checked
    ensures { result ≡ answered holds traces runs proof }
{
    if holds {
        Checked::Holds {
            traces,
            runs,
            proof,
        }
    } else {
        Checked::Violated {
            traces,
            runs,
            proof,
        }
    }
}
