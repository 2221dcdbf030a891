//! Whether a certificate is good for the claim that the other files of a command make.

ghost use Rattle.std.specs.Prelude.{◌≡◌, ◌≤◌, ◌∷◌, [], length, if◌then◌else◌};
ghost use Rattle.hy_base.specs.Shelf.{KeepsShelf};
ghost use Rattle.hy_base.specs.declared.reading.TheConstants.{BYTES_LIMIT};
ghost use Rattle.hy_formula.specs.Formulas.{plain_formula};
ghost use Rattle.claim_check.specs.Claims.{claim_of, equivalence, implication};
ghost use Rattle.claim_check.specs.Verdicts.{HasRoom};
ghost use Rattle.hy_run.specs.Runs.{Follows};
ghost use Rattle.hy_check.specs.Judging.{IsJudged};
ghost use Rattle.hy_check.specs.Rules.{check_rules};

use crate::answer::{CheckFault, CheckVerdict};
use crate::refusal::judging_refusal;
use cert_text::Question;
use circuit_files::circuit_in;
use claim_check::{Claim, certify};
use formula_nets::circuits_have_room;
use hy_base::Shelf;
use hy_files::{bytes_in, formula_in};
use hy_formula::{Formula, NameTable};
use hy_read::formulas_are_over_names;
use hy_run::file_refusal;
use std::alloc::Global;

/// Most quantifiers of a formula that is posed to no circuit.
const MOST_QUANTIFIERS: u8 = 8;

/// Most quantifiers of a formula that is posed to a circuit.
const MOST_ON_CIRCUITS: u8 = 4;

/// Whether a certificate is good for what it says of a formula, whose names are added to the empty
/// table.
pub fn judge_formula<S: Shelf>(
    alloc: Global,
    shelf: &mut S,
    formula: &str,
    out: &str,
    names: &mut NameTable,
) -> Result<CheckVerdict, CheckFault>
    requires { names.old ≡ [] }
    ensures keeps { KeepsShelf S.Shelf shelf.old shelf.new }
    ensures follows { Follows check_rules S.Shelf shelf.old shelf.new Question.Formula
        (formula.now ∷ out.now ∷ []) names.new result }
{
    let formula = match formula_in(alloc, shelf, formula, MOST_QUANTIFIERS, names) {
        Ok(formula) => formula,
        Err(fault) => return Err(file_refusal(0, fault)),
    };
    match bytes_in(alloc, shelf, out) {
        Ok(text) => judge(alloc, &Claim::Ea(&formula), names, text.as_slice()),
        Err(fault) => Err(file_refusal(1, fault)),
    }
}

/// Whether a certificate is good for what it says of whether one formula implies another, or, `both`,
/// each the other. Their names are added to the empty table.
pub fn judge_two<S: Shelf>(
    alloc: Global,
    shelf: &mut S,
    both: bool,
    formulas: (&str, &str),
    out: &str,
    names: &mut NameTable,
) -> Result<CheckVerdict, CheckFault>
    requires { names.old ≡ [] }
    ensures keeps { KeepsShelf S.Shelf shelf.old shelf.new }
    ensures follows { Follows check_rules S.Shelf shelf.old shelf.new
        (if both then Question.Equivalence else Question.Implication)
        (formulas.entry.0.now ∷ formulas.entry.1.now ∷ out.now ∷ []) names.new result }
{
    let first = match formula_in(alloc, shelf, formulas.0, MOST_QUANTIFIERS, names) {
        Ok(formula) => formula,
        Err(fault) => return Err(file_refusal(0, fault)),
    };
    let second = match formula_in(alloc, shelf, formulas.1, MOST_QUANTIFIERS, names) {
        Ok(formula) => formula,
        Err(fault) => return Err(file_refusal(1, fault)),
    };
    match bytes_in(alloc, shelf, out) {
        Ok(text) => judge_relation(alloc, both, &first, &second, names, text.as_slice()),
        Err(fault) => Err(file_refusal(2, fault)),
    }
}

/// Whether the bytes are a good certificate for what they say of whether one formula implies another,
/// or, `both`, each the other.
fn judge_relation(
    alloc: Global,
    both: bool,
    first: &Formula,
    second: &Formula,
    names: &NameTable,
    text: &[u8],
) -> Result<CheckVerdict, CheckFault>
    requires { length text.now ≤ BYTES_LIMIT }
    ensures { IsJudged names.now (if both
        then (equivalence (plain_formula first.now) (plain_formula second.now))
        else (implication (plain_formula first.now) (plain_formula second.now))) text.now result }
{
    if both {
        judge(alloc, &Claim::Equivalent(first, second), names, text)
    } else {
        judge(alloc, &Claim::Implies(first, second), names, text)
    }
}

/// Whether a certificate is good for what it says of a formula on a circuit. The formula's names are
/// added to the empty table.
pub fn judge_circuit<S: Shelf>(
    alloc: Global,
    shelf: &mut S,
    circuit: &str,
    formula: &str,
    out: &str,
    names: &mut NameTable,
) -> Result<CheckVerdict, CheckFault>
    requires { names.old ≡ [] }
    ensures keeps { KeepsShelf S.Shelf shelf.old shelf.new }
    ensures follows { Follows check_rules S.Shelf shelf.old shelf.new Question.Circuit
        (circuit.now ∷ formula.now ∷ out.now ∷ []) names.new result }
{
    let net = match circuit_in(alloc, shelf, circuit) {
        Ok(net) => net,
        Err(fault) => return Err(file_refusal(0, fault)),
    };
    let formula = match formula_in(alloc, shelf, formula, MOST_ON_CIRCUITS, names) {
        Ok(formula) => formula,
        Err(fault) => return Err(file_refusal(1, fault)),
    };
    formulas_are_over_names(); // so the formula has one to four quantifiers
    circuits_have_room(); // and there is room for the safe net
    match bytes_in(alloc, shelf, out) {
        Ok(text) => judge(alloc, &Claim::Mc(&net, &formula), names, text.as_slice()),
        Err(fault) => Err(file_refusal(2, fault)),
    }
}

/// Whether the bytes are a good certificate for the claim.
fn judge(
    alloc: Global,
    claim: &Claim<'_>,
    names: &NameTable,
    text: &[u8],
) -> Result<CheckVerdict, CheckFault>
    requires short { length text.now ≤ BYTES_LIMIT }
    requires room { HasRoom names.now (claim_of claim.now) }
    ensures { IsJudged names.now (claim_of claim.now) text.now result }
{
    match certify(alloc, claim, names, text) {
        Ok(true) => Ok(CheckVerdict::Accepted),
        Ok(false) => Ok(CheckVerdict::Rejected),
        Err(error) => Err(judging_refusal(alloc, claim.question(), names, error)),
    }
}
