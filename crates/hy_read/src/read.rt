//! The readers: from bytes to the formulas that they are, or to what is wrong with them.

ghost use Rattle.std.specs.Prelude.{◌≡◌, ◌≤◌, ◌<◌, ◌^◌, ◌++◌, ◌∷◌, [], ℕ, List as PlainList, Bool, true, false, length};
ghost use Rattle.hy_formula.specs.Formulas.{plain_formula, plain_formulas};
ghost use Rattle.hy_read.specs.Contract.{IsAnswer};
ghost use Rattle.hy_read.specs.Judged.{HasNames, HasTooManyNames, IsJudged, IsMeasured};

use crate::build_error::BuildError;
use crate::counts::Counts;
use crate::error::ReadError;
use crate::formulas::{MAX_HEIGHT, MAX_PARENS, SpecList, build_formulas};
use crate::names::collect_names;
use crate::survey::survey;
use hy_base::{Kind, Limit};
use hy_formula::{Formula, NameError, NameTable};
use std::alloc::Global;

/// The most formulas of a specification file.
const MAX_SPECS: u32 = 16;

/// The most names of a table.
const MAX_NAMES: u32 = 64;

/// The formula that `bytes` is, with at most `quantifiers` quantifiers. Its names are added to the
/// table, and numbered by it. In time linear in the bytes, for few quantifiers.
///
/// Syntax: the bytes are no formula text. Unbound: an atom has a variable without a quantifier.
/// Limit: a count is past its number: `quantifiers` quantifiers, 200 open parentheses, height 200,
/// 64 names. After a refusal the table has its old names, and maybe new ones behind them.
pub fn read_formula(
    alloc: Global,
    bytes: &[u8],
    quantifiers: u8,
    names: &mut NameTable,
) -> Result<Formula, ReadError>
    requires small { length bytes.now < 2 ^ 32 }
    requires few { quantifiers ≤ 8 }
    ensures answer { IsAnswer
        (λ f. plain_formula f ∷ []) false quantifiers names.old names.new bytes.now result }
    ensures kept { (more : PlainList (PlainList ℕ)) × (names.new ≡ names.old ++ more) }
{
    let mut formulas = read_text(alloc, bytes, false, quantifiers, names)?;
    match formulas.pop() {
        Some(formula) => Ok(formula),
        None => unreachable!(),
    }
}

/// The formulas that `bytes` are, joined by semicolons, as `read_formula`.
///
/// Limit: also where there are more than 16 formulas.
pub fn read_specs(
    alloc: Global,
    bytes: &[u8],
    quantifiers: u8,
    names: &mut NameTable,
) -> Result<SpecList, ReadError>
    requires small { length bytes.now < 2 ^ 32 }
    requires few { quantifiers ≤ 8 }
    ensures answer { IsAnswer plain_formulas true quantifiers names.old names.new bytes.now result }
    ensures kept { (more : PlainList (PlainList ℕ)) × (names.new ≡ names.old ++ more) }
{
    read_text(alloc, bytes, true, quantifiers, names)
}

/// The formulas that `bytes` are; `many`: whether there may be several.
fn read_text(
    alloc: Global,
    bytes: &[u8],
    many: bool,
    quantifiers: u8,
    names: &mut NameTable,
) -> Result<SpecList, ReadError>
    requires small { length bytes.now < 2 ^ 32 }
    requires few { quantifiers ≤ 8 }
    ensures answer { IsAnswer plain_formulas many quantifiers names.old names.new bytes.now result }
    ensures kept { (more : PlainList (PlainList ℕ)) × (names.new ≡ names.old ++ more) }
{
    let counts = survey(alloc, bytes, many)?;
    judge_counts(counts, quantifiers)?;
    let specs = counts.semicolons + 1;
    match collect_names(alloc, bytes, names) {
        Ok(()) => build(alloc, bytes, specs, names),
        Err(NameError::Limit) => Err(judge_heights(alloc, bytes, specs)),
        Err(NameError::Memory) => Err(ReadError::Memory),
    }
}

/// Whether the counts that were taken before anything is built are within their numbers.
fn judge_counts(counts: Counts, quantifiers: u8) -> Result<(), ReadError>
    ensures { IsJudged quantifiers counts result }
{
    if counts.semicolons >= MAX_SPECS {
        return Err(past(Kind::Specs, MAX_SPECS));
    }
    if counts.most_quantifiers > u32::from(quantifiers) {
        return Err(past(Kind::Quantifiers, u32::from(quantifiers)));
    }
    if counts.most_parens > MAX_PARENS {
        return Err(past(Kind::Parens, MAX_PARENS));
    }
    Ok(())
}

/// A count is past its number.
fn past(kind: Kind, number: u32) -> ReadError
    ensures { result ≡ ReadError.Limit record { kind = kind; limit = number } }
{
    ReadError::Limit(Limit {
        kind,
        limit: u64::from(number),
    })
}

/// The first `count` formulas of `text`, all of whose names are in the table.
fn build(alloc: Global, text: &[u8], count: u32, names: &NameTable) -> Result<SpecList, ReadError>
    ensures { (many : Bool) (limit : ℕ) (old : PlainList (PlainList ℕ))
        → IsMeasured many limit text.now count
        → HasNames old names.now text.now
        → IsAnswer plain_formulas many limit old names.now text.now result }
{
    match build_formulas(alloc, text, count, Some(names)) {
        Ok(formulas) => Ok(formulas),
        Err(BuildError::TooHigh) => Err(past(Kind::Height, MAX_HEIGHT)),
        Err(BuildError::Memory) => Err(ReadError::Memory),
    }
}

/// What is wrong with a text that has too many names: a formula of it may be too high too.
fn judge_heights(alloc: Global, text: &[u8], count: u32) -> ReadError
    ensures { (many : Bool) (limit : ℕ) (old table : PlainList (PlainList ℕ))
        → IsMeasured many limit text.now count
        → HasTooManyNames old text.now
        → IsAnswer plain_formulas many limit old table text.now (Err result) }
{
    match build_formulas(alloc, text, count, None) {
        Ok(_) => past(Kind::Names, MAX_NAMES),
        Err(BuildError::TooHigh) => past(Kind::Height, MAX_HEIGHT),
        Err(BuildError::Memory) => ReadError::Memory,
    }
}
