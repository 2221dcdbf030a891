//! How it is answered that a certificate was not judged.

ghost use Rattle.std.specs.Prelude.{◌≡◌, ◌⊎◌, IfOk};
ghost use Rattle.net_names.specs.Names.{name_at};
ghost use Rattle.hy_check.specs.Judging.{formula_file, judging_refusal};

use crate::answer::{CertFault, CheckFault};
use cert_text::Question;
use claim_check::CertError;
use hy_base::{M, Memory, Text};
use hy_formula::NameTable;
use hy_run::Refusal;
use std::alloc::Global;

/// The refusal of a command whose certificate was not judged, by the names of the table; or memory
/// ran out over the text of one.
pub fn judging_refusal(
    alloc: Global,
    question: Question,
    names: &NameTable,
    error: CertError,
) -> CheckFault
    ensures { (result ≡ judging_refusal question names.now error) ⊎ (result ≡ Refusal.Memory) }
{
    match error {
        CertError::Prefix { second, class } => Refusal::Prefix {
            file: formula_file(question, second),
            class,
        },
        CertError::Limit(limit) => Refusal::Limit {
            kind: limit.kind,
            limit: limit.limit,
        },
        CertError::Name { name, twice } => match name_text(alloc, names, name) {
            Ok(name) => Refusal::Own(CertFault::Name { name, twice }),
            Err(Memory) => Refusal::Memory,
        },
        CertError::Text { line } => Refusal::Own(CertFault::Certificate { line }),
        CertError::Memory => Refusal::Memory,
    }
}

/// The name with a number.
fn name_text(alloc: Global, names: &NameTable, name: u8) -> M<Text>
    ensures { IfOk result (λ text. text ≡ name_at names.now name) }
{
    let mut text = Text::new(alloc);
    text.extend(names.text(name))?;
    Ok(text)
}

/// The file of a formula: of the `second` one of two, or of the other.
fn formula_file(question: Question, second: bool) -> u8
    ensures { result ≡ formula_file question second }
{
    match question {
        Question::Formula | Question::Implication | Question::Equivalence => u8::from(second),
        Question::Circuit => 1,
    }
}
