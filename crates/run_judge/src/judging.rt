//! Whether the runs of a certificate are witnesses.

ghost use Rattle.std.specs.Prelude.{◌≡◌, ◌↔◌, ◌<◌, ◌≤◌, List, [], ◌∷◌, ◌++◌, length, All, IfOk, IsTrue};
ghost use Rattle.hy_formula.specs.Normals.{Signed};
ghost use Rattle.hy_formula.specs.Trees.{tree_of, vars_below};
ghost use Rattle.hy_text.specs.Lines.{lines_of};
ghost use Rattle.hy_lasso.specs.Joint.{IsJudged};
ghost use Rattle.hy_lasso.specs.Words.{Meets, picked};
ghost use Rattle.aig_net.specs.declared.run.Run.{Run as OneRun};
ghost use Rattle.aig_net.specs.Nets.{variables};
ghost use Rattle.sym_tableau.specs.Places.{AreWithin};
ghost use Rattle.formula_nets.specs.Witnesses.{AreWitnesses};
ghost use Rattle.cert_text.specs.Lines.{Line};
ghost use Rattle.cert_text.specs.RunLines.{SayRuns};

use crate::traced::are_traced;
use aig_net::{Net, Signals};
use hy_base::{List, M, Memory, NumList};
use hy_formula::{Body, Formula};
use hy_lasso::{HoldsError, LassoList, holds_body};
use hy_text::split_line;
use std::alloc::Global;

/// Whether the runs whose lines are the text, behind their head, are witnesses of the formula, with
/// these traces, or of its contrary where `positive` is false: as many as it has quantifiers, each a
/// run of a lasso execution whose visible trace has the normal form at its place, and these satisfy
/// the body or fail it.
///
/// In time linear in the text, in the net and the signals for each step of the runs, and in the size
/// of the body for each position of the joint period of the traces. The text's counts take no memory.
pub fn judge_runs(
    alloc: Global,
    net: &Net,
    signals: &Signals,
    formula: &Formula,
    positive: bool,
    traces: &LassoList,
    text: &[u8],
) -> M<bool>
    requires within { AreWithin (variables net.now) signals.now }
    requires judged { IsJudged traces.now }
    ensures { IfOk result (λ good. (lines : List Line) (runs : List OneRun)
        → lines_of text.now ≡ lines ++ [] ∷ [] → SayRuns lines runs
        → IsTrue good ↔ AreWitnesses net.now signals.now (length formula.now.prefix)
        (tree_of formula.now.body) positive traces.now runs) }
{
    if traces.len() != formula.prefix.len() {
        return Ok(false);
    }
    let (_, behind) = split_line(text);
    let Some(rest) = behind else {
        return Ok(false);
    };
    if !are_traced(alloc, net, signals, traces.as_slice(), rest)? {
        return Ok(false);
    }
    say(alloc, &formula.body, positive, traces)
}

/// Whether the traces satisfy the body, or fail it where `positive` is false.
fn say(alloc: Global, body: &Body, positive: bool, traces: &LassoList) -> M<bool>
    requires bound { IsTrue (vars_below (length traces.now) (tree_of body.now)) }
    requires judged { IsJudged traces.now }
    requires few { length traces.now ≤ 8 }
    ensures { IfOk result
        (λ yes. IsTrue yes ↔ Signed positive (Meets (tree_of body.now) traces.now)) }
{
    let holds = satisfy(alloc, body, traces)?;
    if positive { Ok(holds) } else { Ok(!holds) }
}

/// Whether the traces satisfy the body, each variable by the trace at its place.
fn satisfy(alloc: Global, body: &Body, traces: &LassoList) -> M<bool>
    requires bound { IsTrue (vars_below (length traces.now) (tree_of body.now)) }
    requires judged { IsJudged traces.now }
    requires few { length traces.now ≤ 8 }
    ensures { IfOk result (λ holds. IsTrue holds ↔ Meets (tree_of body.now) traces.now) }
{
    let places = places_of(alloc, traces)?;
    match holds_body(alloc, body, traces, places.as_slice()) {
        Ok(holds) => Ok(holds),
        Err(HoldsError::Memory) => Err(Memory),
        Err(HoldsError::Limit(_)) => unreachable!(),
    }
}

/// The places of the traces, in their order.
fn places_of(alloc: Global, traces: &LassoList) -> M<NumList>
    requires { length traces.now ≤ 8 }
    ensures members { IfOk result (All (λ k. k < length traces.now)) }
    ensures all { IfOk result (λ places. picked traces.now places ≡ traces.now) }
    ensures many { IfOk result (λ places. length places ≡ length traces.now) }
{
    let mut places = List::new(alloc);
    for k in 0..traces.len() as u32 {
        places.push(k)?;
    }
    Ok(places)
}
