//! What is seen of a run.

ghost use Rattle.std.specs.Prelude.{◌≡◌, ℕ, ◌<◌, false, length, IfOk};
ghost use Rattle.hy_lasso.specs.NormalForms.{IsNormal};
ghost use Rattle.aig_net.specs.Executions.{gone};
ghost use Rattle.aig_net.specs.Following.{row_at};
ghost use Rattle.aig_net.specs.Nets.{Below, variables};
ghost use Rattle.hy_base.specs.Rows.{row};
ghost use Rattle.aig_net.specs.Simulations.{IsExecutionOf, valuations};
ghost use Rattle.sym_tableau.specs.Places.{AreWithin};
ghost use Rattle.wit_lasso.specs.Seeing.{AreRunValues, AreSeen, Counts, IsSeen, IsTraceOf, ShowsTrace};

use aig_net::{Net, Row, Run, Signal, Signals, ValueLasso, simulate, value_of};
use hy_base::{List, M};
use hy_bits::{LetterMask, Letters};
use hy_lasso::Lasso;
use std::alloc::Global;

/// The visible trace of a run: at each step the names whose literals are true, by the signals of
/// variable 0, in normal form. In time linear in the net and in the signals for each step.
pub fn visible(alloc: Global, net: &Net, run: &Run, signals: &Signals) -> M<Lasso>
    requires run { (values : ValueLasso) × IsExecutionOf net.now run.now values }
    requires signals { AreWithin (variables net.now) signals.now }
    ensures { IfOk result (IsTraceOf net.now signals.now run.now) }
{
    let Some(values) = simulate(alloc, net, run)? else {
        unreachable!()
    };
    visible_in(alloc, &values, signals)
}

/// The same of a run whose values these are, so that a run that was simulated is not simulated
/// again. In time linear in the signals for each step.
pub fn visible_in(alloc: Global, values: &ValueLasso, signals: &Signals) -> M<Lasso>
    requires { AreRunValues signals.now values.now }
    ensures normal { IfOk result IsNormal }
    ensures shows { IfOk result (ShowsTrace signals.now (gone (valuations values.now))) }
{
    let stem = letters_of(alloc, values.stem.as_slice(), signals)?;
    let cycle = letters_of(alloc, values.cycle.as_slice(), signals)?;
    let Some(lasso) = Lasso::new(stem, cycle) else {
        unreachable!()
    };
    Ok(lasso.shorten())
}

/// What is seen of each row of values.
fn letters_of(alloc: Global, rows: &[Row], signals: &Signals) -> M<Letters>
    requires within { (i : ℕ) → i < length rows.now →
        AreWithin (length (row_at rows.now i)) signals.now }
    requires constant { (i : ℕ) → i < length rows.now → row (row_at rows.now i) 0 ≡ false }
    ensures { IfOk result (AreSeen signals.now rows.now) }
{
    let mut letters = List::new(alloc);
    for values in rows {
        letters.push(letter_of(values.as_slice(), signals))?;
    }
    Ok(letters)
}

/// What is seen of a row of values: the names of variable 0 whose literals are true. The first
/// signal of a name counts, so it is looked at last.
fn letter_of(values: &[bool], signals: &Signals) -> LetterMask
    requires within { AreWithin (length values.now) signals.now }
    requires constant { row values.now 0 ≡ false }
    ensures { IsSeen signals.now (row values.now) result }
{
    let mut letter = LetterMask::empty();
    for i in (0..signals.len()).rev() {
        letter = with_signal(letter, *signals.at(i), values);
    }
    letter
}

/// The letter with the name of a signal where its literal is true, and else without it. A signal of
/// another variable than 0 changes nothing.
#[tactic(auto, using(crate::proofs::Letters::counts_true, crate::proofs::Letters::counts_false, crate::proofs::Letters::counts_none))]
fn with_signal(letter: LetterMask, signal: Signal, values: &[bool]) -> LetterMask
    requires name { signal.name < 64 }
    requires within { Below (length values.now) signal.literal }
    ensures { Counts signal (row values.now) letter result }
{
    let name = usize::from(signal.name);
    if signal.var != 0 {
        return letter;
    }
    if value_of(values, signal.literal) {
        letter.with(name)
    } else {
        letter.without(name)
    }
}
