//! From a text that is known to be one of the grammar, within its counts, to its formulas.

ghost use Rattle.std.specs.Prelude.{◌≡◌, ◌≤◌, ℕ, zero, List as PlainList, Bool, length, map, IfOk};
ghost use Rattle.std.specs.Option.{option_map};
ghost use Rattle.hy_read.specs.Builds.{AreBuilt, IsFormulaBuilt, meaning_in, most_of_quantifiers};
ghost use Rattle.hy_read.specs.Grammar.{AreFormulas, IsFormula, Read, loosest};
ghost use Rattle.hy_read.specs.Parses.{AreLeft, IsWithin, Stops};
ghost use Rattle.hy_read.specs.Results.{most_open};
ghost use Rattle.hy_read.specs.Tokens.{Token as PlainToken};

use crate::build_error::BuildError;
use crate::heading::read_heading;
use crate::operator::Rank;
use crate::parsed::Follow;
use crate::parser::Parser;
use hy_base::List;
use hy_formula::{Formula, NameTable, Prefix};
use std::alloc::Global;

/// Formulas, numbered from 0.
pub type SpecList = List<Formula>;

/// The most parentheses that stand open at once.
pub const MAX_PARENS: u32 = 200;

/// The greatest height of a body.
pub const MAX_HEIGHT: u32 = 200;

/// The most quantifiers that a formula may have.
const MAX_QUANTIFIERS: usize = 8;

/// A formula that was built, and what stands behind it.
#[derive(Drop)]
pub struct Built {
    pub formula: Formula,
    pub follow: Follow,
}

/// The formula in `text` from place `at` on. Without names each atom is read as `true`.
fn build_formula(
    alloc: Global,
    text: &[u8],
    at: usize,
    names: Option<&NameTable>,
) -> Result<Built, BuildError>
    requires { at ≤ length text.now }
    ensures within { IfOk result (λ b. IsWithin (length text.now) b.follow) }
    ensures built { (f : Read) (tokens rest : PlainList PlainToken) → AreLeft text.now at tokens
        → IsFormula (meaning_in (option_map (λ n. n.now) names.entry)) f tokens rest
        → length f.quantifiers ≤ 8
        → most_open zero tokens ≤ 200 → Stops loosest rest → IsFormulaBuilt text.now f rest result }
{
    let heading = read_heading(alloc, text, at)?;
    let count = heading.quants.len();
    if count == 0 || count > MAX_QUANTIFIERS {
        return Err(BuildError::TooHigh);
    }
    let parser = Parser {
        alloc,
        text,
        variables: heading.variables.as_slice(),
        names,
    };
    let parsed = parser.expression(heading.at, Rank::Iff, MAX_PARENS, MAX_HEIGHT)?;
    let prefix = Prefix::new(alloc, heading.quants.as_slice())?;
    Ok(Built {
        formula: Formula {
            prefix,
            body: parsed.body,
        },
        follow: parsed.follow,
    })
}

/// The first `count` formulas of `text`. Without names each atom is read as `true`.
pub fn build_formulas(
    alloc: Global,
    text: &[u8],
    count: u32,
    names: Option<&NameTable>,
) -> Result<SpecList, BuildError>
    ensures { (many : Bool) (fs : PlainList Read) (tokens : PlainList PlainToken)
        → AreLeft text.now 0 tokens
        → AreFormulas (meaning_in (option_map (λ n. n.now) names.entry)) many fs tokens
        → length fs ≡ count
        → most_of_quantifiers fs ≤ 8 → most_open zero tokens ≤ 200 → AreBuilt fs result }
{
    let mut formulas = List::new(alloc);
    let mut at = 0;
    for i in 0..count {
        let built = build_formula(alloc, text, at, names)?;
        formulas.push(built.formula)?;
        at = built.follow.past(at);
    }
    Ok(formulas)
}
