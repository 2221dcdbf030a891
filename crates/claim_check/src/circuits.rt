//! The judge of claims about circuits.

ghost use Rattle.std.specs.Prelude.{◌≡◌, ◌↔◌, ◌<◌, ◌≤◌, ◌^◌, ◌++◌, ◌∷◌, [], List, length, IfErr, IfOk, IsTrue, OnOk};
ghost use Rattle.hy_base.specs.declared.reading.TheConstants.{BYTES_LIMIT};
ghost use Rattle.hy_formula.specs.Formulas.{plain_formula};
ghost use Rattle.hy_formula.specs.Trees.{tree_of};
ghost use Rattle.hy_text.specs.Lines.{lines_of};
ghost use Rattle.ltl_closure.specs.Bodies.{body_closure};
ghost use Rattle.aig_net.specs.Nets.{variables};
ghost use Rattle.net_names.specs.Names.{AreSignals};
ghost use Rattle.wit_lasso.specs.FormulaNets.{AreOwn, formula_safe};
ghost use Rattle.cnf_frames.specs.declared.inductions.InductionProof.{InductionProof};
ghost use Rattle.formula_nets.specs.Posed.{IsTaken, is_existential};
ghost use Rattle.cert_text.specs.declared.question.Question.TheVariants.{Circuit};
ghost use Rattle.cert_text.specs.Certificates.{Certificate};
ghost use Rattle.cert_text.specs.InductionLines.{SayInductionProof};
ghost use Rattle.cert_text.specs.Lines.{Line};
ghost use Rattle.induction_judge.specs.Good.{IsGoodInduction};
ghost use Rattle.claim_check.specs.Claims.{circuit};
ghost use Rattle.claim_check.specs.Counting.{IsQueryRefusal, IsWeighed, IsWithin, Stops};
ghost use Rattle.claim_check.specs.Reading.{IsRead};
ghost use Rattle.claim_check.specs.Verdicts.{HasRoom, IsJudgement};

use crate::error::CertError;
use crate::reading::Reading;
use aig_net::{Net, Signals};
use formula_nets::{safe_for, signals_are_own};
use hy_formula::{Class, Formula, NameTable, class};
use hy_lasso::{LassoList, are_judged};
use induction_judge::judge_induction;
use ltl_closure::Closure;
use net_names::signals_of;
use run_judge::judge_runs;
use std::alloc::Global;

/// A formula posed to a circuit: its closure, and what its names stand for.
#[derive(Drop)]
struct Posed {
    closure: Closure,
    signals: Signals,
}

/// Whether the certificate shows that the circuit satisfies the formula, or that it does not.
pub fn judge_circuit(
    alloc: Global,
    net: &Net,
    f: &Formula,
    names: &NameTable,
    read: &Reading,
) -> Result<bool, CertError>
    requires room { HasRoom names.now (circuit net.now (plain_formula f.now)) }
    requires short { length read.now.evidence.now ≤ BYTES_LIMIT }
    ensures { (c : Certificate)
        → IsRead names.now Circuit c read.now.head.now read.now.list read.now.evidence.now
        → IsJudgement names.now (circuit net.now (plain_formula f.now)) c result }
{
    match class(f) {
        Class::Exists => judge_as(alloc, net, f, true, names, read),
        Class::Forall => judge_as(alloc, net, f, false, names, read),
        class => Err(CertError::Prefix {
            second: false,
            class,
        }),
    }
}

/// The same of a formula whose quantifiers are all existential, or all universal.
fn judge_as(
    alloc: Global,
    net: &Net,
    f: &Formula,
    existential: bool,
    names: &NameTable,
    read: &Reading,
) -> Result<bool, CertError>
    requires taken { IsTaken f.now.prefix }
    requires kind { existential ≡ is_existential f.now.prefix }
    requires room { HasRoom names.now (circuit net.now (plain_formula f.now)) }
    requires short { length read.now.evidence.now ≤ BYTES_LIMIT }
    ensures { (c : Certificate)
        → IsRead names.now Circuit c read.now.head.now read.now.list read.now.evidence.now
        → IsJudgement names.now (circuit net.now (plain_formula f.now)) c result }
{
    let posed = pose(alloc, net, f, existential, names, &read.list)?;
    weigh(alloc, net, f, existential, names, &posed, read)
}

/// The formula posed to the circuit, where its closure and the lassos are within their limits, and
/// its names stand for literals.
fn pose(
    alloc: Global,
    net: &Net,
    f: &Formula,
    existential: bool,
    names: &NameTable,
    list: &LassoList,
) -> Result<Posed, CertError>
    requires taken { IsTaken f.now.prefix }
    requires kind { existential ≡ is_existential f.now.prefix }
    ensures closure { IfOk result
        (λ posed. posed.closure ≡ body_closure (tree_of f.now.body) existential) }
    ensures signals { IfOk result
        (λ posed. AreSignals net.now names.now (tree_of f.now.body) posed.signals) }
    ensures within { OnOk result (IsWithin (circuit net.now (plain_formula f.now)) list.now) }
    ensures stopped { IfErr result
        (Stops names.now (circuit net.now (plain_formula f.now)) list.now) }
{
    let variables = f.prefix.len() as u8;
    let closure = Closure::of_body(alloc, &f.body, variables, existential)?;
    if !are_judged(list) {
        return Err(CertError::joint());
    }
    let signals = signals_of(alloc, net, &f.body, names)?;
    Ok(Posed { closure, signals })
}

/// Whether the evidence is that which the verdict wants, and good: runs for an existential formula
/// that holds or a universal one that does not, and else a proof by induction.
fn weigh(
    alloc: Global,
    net: &Net,
    f: &Formula,
    existential: bool,
    names: &NameTable,
    posed: &Posed,
    read: &Reading,
) -> Result<bool, CertError>
    requires taken { IsTaken f.now.prefix }
    requires kind { existential ≡ is_existential f.now.prefix }
    requires closure { posed.now.closure ≡ body_closure (tree_of f.now.body) existential }
    requires signals { AreSignals net.now names.now (tree_of f.now.body) posed.now.signals }
    requires within { IsWithin (circuit net.now (plain_formula f.now)) read.now.list }
    requires room { HasRoom names.now (circuit net.now (plain_formula f.now)) }
    requires short { length read.now.evidence.now ≤ BYTES_LIMIT }
    ensures { (c : Certificate)
        → IsRead names.now Circuit c read.now.head.now read.now.list read.now.evidence.now
        → IsWeighed names.now (circuit net.now (plain_formula f.now)) c result }
{
    net.variables(); // what each net keeps
    signals_are_own(); // and the signals of names
    let wants_runs = (read.head == b"holds".as_slice()) == existential;
    if wants_runs == read.list.is_empty() {
        return Ok(false);
    }
    if wants_runs {
        let evidence = read.evidence;
        let runs = judge_runs(
            alloc,
            net,
            &posed.signals,
            f,
            existential,
            &read.list,
            evidence,
        )?;
        return Ok(runs);
    }
    is_unreached(alloc, net, f, existential, posed, read.evidence)
}

/// Whether the evidence is a good proof by induction that the formula's safe net has no path to bad.
fn is_unreached(
    alloc: Global,
    net: &Net,
    f: &Formula,
    existential: bool,
    posed: &Posed,
    evidence: &[u8],
) -> Result<bool, CertError>
    requires closure { posed.now.closure ≡ body_closure (tree_of f.now.body) existential }
    requires own { AreOwn net.now posed.now.signals }
    requires room { variables (formula_safe net.now posed.now.signals (length f.now.prefix)
        (tree_of f.now.body) existential).net ≤ 2 ^ 31 }
    requires short { length evidence.now ≤ BYTES_LIMIT }
    ensures judged { IfOk result (λ good. (lines : List Line) (proof : InductionProof)
        → lines_of evidence.now ≡ lines ++ [] ∷ [] → SayInductionProof lines proof
        → IsTrue good ↔ IsGoodInduction (formula_safe net.now posed.now.signals
        (length f.now.prefix) (tree_of f.now.body) existential) proof) }
    ensures refused { IfErr result (λ e. (lines : List Line) (proof : InductionProof)
        → lines_of evidence.now ≡ lines ++ [] ∷ [] → SayInductionProof lines proof
        → IsQueryRefusal (formula_safe net.now posed.now.signals
        (length f.now.prefix) (tree_of f.now.body) existential) proof e) }
{
    let variables = f.prefix.len() as u8;
    let safe = safe_for(
        alloc,
        net,
        variables,
        &f.body,
        existential,
        &posed.closure,
        &posed.signals,
    )?;
    Ok(judge_induction(alloc, &safe, evidence)?)
}
