//! Runs whose steps were counted by hand, played with ample memory. A counter is not read: the
//! counts are the contracts of the functions that play the runs.

ghost use Rattle.std.specs.Prelude.{◌≡◌, ◌<◌, ◌≤◌, IfOk, length};

use hy_base::Steps;
use hy_bits::LetterMask;
use hy_formula::{Formula, NameTable};
use hy_read::read_formula;
use rv_core::Reply;
use std::alloc::Global;
use std::marker::Brand;
use std::sync::ledger::{Blank, Ledger};
use std::test::Fail;
use step_counts::runs::{made_behind, tenth_of_equals, third_of_three};

/// The formula of a text, of so many variables.
fn formula_of(
    alloc: Global,
    text: &[u8],
    names: &mut NameTable,
    variables: usize,
) -> Result<Formula, Fail>
    requires { length text.now ≤ 100 }
    ensures { IfOk result (λ formula. length formula.prefix ≡ variables) }
{
    let formula = read_formula(alloc, text, 8, names)?;
    if formula.prefix.len() != variables {
        return Err("other quantifiers")?;
    }
    Ok(formula)
}

/// That the outputs are alike where the inputs are, of two traces.
fn alike(alloc: Global) -> Result<Formula, Fail>
    ensures { IfOk result (λ formula. length formula.prefix ≡ 2) }
{
    let text = b"forall p. forall q. G (i_p <-> i_q) -> G (o_p <-> o_q)";
    formula_of(alloc, text, &mut NameTable::new(alloc)?, 2)
}

/// Whether the third trace, with the input of the second one and another output, is a violation.
fn third<B: Ledger, L: Ledger>(
    alloc: Global,
    before: &mut Steps<B>,
    steps: &mut Steps<L>,
) -> Result<bool, Fail> {
    let none = LetterMask::empty();
    let (input, output) = (none.with(0), none.with(1));
    let formula = alike(alloc)?;
    let third = third_of_three(alloc, formula, input, output, none, before, steps)?;
    Ok(matches!(
        third,
        Reply::Violation {
            spec: 0,
            trace: 2,
            ..
        }
    ))
}

/// Whether the tenth of equal traces arrives.
fn tenth<B: Ledger, L: Ledger>(
    alloc: Global,
    before: &mut Steps<B>,
    steps: &mut Steps<L>,
) -> Result<bool, Fail> {
    let none = LetterMask::empty();
    let formula = alike(alloc)?;
    let tenth = tenth_of_equals(alloc, formula, none.with(0), none.with(1), before, steps)?;
    Ok(matches!(tenth, Reply::Arrived { trace: 9 }))
}

/// Whether a made trace behind so many arrives: both signals hold in each made letter, or none does.
fn made<B: Ledger, L: Ledger>(
    alloc: Global,
    n: u32,
    before: &mut Steps<B>,
    steps: &mut Steps<L>,
) -> Result<bool, Fail>
    requires { n < 1000000 }
{
    let text =
        b"forall p. forall q. forall r. G ((i_p <-> i_q) & (i_q <-> i_r)) -> G (o_p <-> o_r)";
    let mut names = NameTable::new(alloc)?;
    let formula = formula_of(alloc, text, &mut names, 3)?;
    let last = made_behind(alloc, formula, &names, n, before, steps)?;
    Ok(matches!(last, Reply::Arrived { trace } if trace == n))
}

fn all<B: Ledger, L: Ledger>(alloc: Global, first: Blank, second: Blank) -> Result<[bool; 4], Fail>
    requires first_name { first.name ≡ B.name }
    requires first_parts { first.parts ≡ B.parts }
    requires first_some { 0 < first.parts }
    requires second_name { second.name ≡ L.name }
    requires second_parts { second.parts ≡ L.parts }
    requires second_some { 0 < second.parts }
{
    let mut before = Steps::<B>::new(first);
    let mut steps = Steps::<L>::new(second);
    Ok([
        third(alloc, &mut before, &mut steps)?,
        tenth(alloc, &mut before, &mut steps)?,
        made(alloc, 0, &mut before, &mut steps)?,
        made(alloc, 2999, &mut before, &mut steps)?,
    ])
}

#[test]
fn runs_stay_within_their_counts(rt: HostRuntime) -> Result<(), Fail> {
    let played = all::<Brand, Brand>(rt.alloc(), Blank::new(1), Blank::new(1))?;
    assert!(rt; played == [true, true, true, true]);
    Ok(())
}
