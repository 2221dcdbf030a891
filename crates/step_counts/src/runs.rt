//! Runs whose steps were counted by hand. A counter is not read, so the count of an arrival is the
//! contract of the function that makes it: `steps` counts its last event, and `before` all others.

ghost use Rattle.std.specs.Prelude.{◌≡◌, ◌+◌, ◌<◌, ◌≤◌, ◌^◌, ◌++◌, [], ◌∷◌, ℕ, List as PlainList, IfOk, All, length, map, sum};
ghost use Rattle.std.specs.List.{Contains};
ghost use Rattle.hy_formula.specs.Trees.{tree_of};
ghost use Rattle.dominance.specs.Dominance.{IsSymmetric};
ghost use Rattle.hy_finite.specs.declared.lengths.Lengths.TheVariants as rule;
ghost use Rattle.hy_finite.specs.Traces.{Trace as PlainTrace};
ghost use Rattle.rv_core.specs.declared.reply.Reply.TheVariants as replies;
ghost use Rattle.rv_core.specs.Built.{HasFewQuantifiers, spec_of_formula};
ghost use Rattle.rv_core.specs.Held.{specs_of, StandsFor};
ghost use Rattle.rv_core.specs.Seen.{held};
ghost use Rattle.step_counts.specs.Branches.{AreSymmetric, Branches, counts_of, first_steps_of, steps_of};
ghost use Rattle.step_counts.specs.Runs.{after};

use hy_base::{Remake, Steps};
use hy_bits::{LetterMask, Letters};
use hy_finite::{Event, Lengths, Trace, TraceList};
use hy_formula::{Formula, NameTable};
use made_traces::make_traces;
use rv_core::{Reply, Rv};
use std::alloc::Global;
use std::sync::ledger::Ledger;
use std::test::Fail;

/// A trace arrives at a monitor at which these have arrived.
fn arrive<L: Ledger>(
    alloc: Global,
    rv: &mut Rv,
    seen: &[Trace],
    trace: Trace,
    steps: &mut Steps<L>,
) -> Result<Reply, Fail>
    requires stands { StandsFor (held rv.old) (after seen.now) }
    requires few { length seen.now < 2 ^ 31 }
    ensures stands { IfOk result (λ reply. (n : ℕ) → reply ≡ replies.Arrived n
        → StandsFor (held rv.new) (after (seen.now ++ trace ∷ []))) }
    ensures rule { (held rv.new).rule ≡ (held rv.old).rule }
    ensures specs { specs_of (held rv.new) ≡ specs_of (held rv.old) }
    ensures joint { (words : PlainList (PlainList PlainTrace)) → Branches seen.now trace words
        → (held rv.old).rule ≡ rule.Min
        → steps.new ≤ steps.old + sum (map (steps_of (counts_of words)) (specs_of (held rv.old))) }
    ensures first { (words : PlainList (PlainList PlainTrace)) → Branches seen.now trace words
        → (held rv.old).rule ≡ rule.Min
        → AreSymmetric (held rv.old).rule (specs_of (held rv.old)) → steps.new
        ≤ steps.old + sum (map (first_steps_of (counts_of words)) (specs_of (held rv.old))) }
{
    Ok(rv.event(alloc, &Event::Whole(trace), steps)?)
}

/// A new monitor, at which these traces have arrived.
fn seen_by<L: Ledger>(
    alloc: Global,
    formulas: &[Formula],
    traces: &[Trace],
    steps: &mut Steps<L>,
) -> Result<Rv, Fail>
    requires quantifiers { All HasFewQuantifiers formulas.now }
    requires countable { length formulas.now < 2 ^ 32 }
    requires few { length traces.now < 2 ^ 31 }
    ensures stands { IfOk result (λ rv. StandsFor (held rv) (after traces.now)) }
    ensures rule { IfOk result (λ rv. (held rv).rule ≡ rule.Min) }
    ensures specs { IfOk result (λ rv. specs_of (held rv) ≡ map spec_of_formula formulas.now) }
{
    let mut rv = Rv::new(alloc, formulas, Lengths::Min, false)?;
    for k in 0..traces.len() {
        let trace = traces[k].remake(alloc)?;
        match arrive(alloc, &mut rv, &traces[..k], trace, steps)? {
            Reply::Arrived { .. } => {}
            _ => return Err("a violation")?,
        }
    }
    Ok(rv)
}

/// The trace of one letter.
fn single(alloc: Global, letter: LetterMask) -> Result<Trace, Fail>
    ensures { IfOk result (λ trace. trace ≡ letter ∷ []) }
{
    Ok(Trace::new(Letters::from_vec(vec![in alloc; letter]?)).unwrap())
}

/// The trace of two letters.
fn pair(alloc: Global, first: LetterMask, second: LetterMask) -> Result<Trace, Fail>
    ensures { IfOk result (λ trace. trace ≡ first ∷ second ∷ []) }
{
    Ok(Trace::new(Letters::from_vec(vec![in alloc; first, second]?)).unwrap())
}

/// Letter `a` arrives, and `a` before `b`. Then `a` before `c` makes at most 8 steps: there are one
/// joint prefix of length 1 and three of length 2, for each of two variables. Where the order of two
/// traces does not matter these are at most 3 steps, since two of length 2 have the new trace first.
pub fn third_of_three<B: Ledger, L: Ledger>(
    alloc: Global,
    formula: Formula,
    a: LetterMask,
    b: LetterMask,
    c: LetterMask,
    before: &mut Steps<B>,
    steps: &mut Steps<L>,
) -> Result<Reply, Fail>
    requires { length formula.prefix ≡ 2 }
    ensures joint { steps.new ≤ steps.old + 8 }
    ensures first { IsSymmetric rule.Min 2 (tree_of formula.body) → steps.new ≤ steps.old + 3 }
{
    let seen = [single(alloc, a)?, pair(alloc, a, b)?];
    let mut rv = seen_by(alloc, &[formula], &seen, before)?;
    arrive(alloc, &mut rv, &seen, pair(alloc, a, c)?, steps)
}

/// The trace so many times.
fn repeated(alloc: Global, trace: &Trace, n: usize) -> Result<TraceList, Fail>
    ensures long { IfOk result (λ list. length list ≡ n) }
    ensures same { IfOk result (λ list. (t : PlainTrace) → Contains list t → t ≡ trace.now) }
{
    let mut list = TraceList::new(alloc);
    for _k in 0..n {
        list.push(trace.remake(alloc)?)?;
    }
    Ok(list)
}

/// The tenth of equal traces of two letters makes at most 4 steps: there are one joint prefix of
/// length 1 and one of length 2.
pub fn tenth_of_equals<B: Ledger, L: Ledger>(
    alloc: Global,
    formula: Formula,
    first: LetterMask,
    second: LetterMask,
    before: &mut Steps<B>,
    steps: &mut Steps<L>,
) -> Result<Reply, Fail>
    requires { length formula.prefix ≡ 2 }
    ensures { steps.new ≤ steps.old + 4 }
{
    let trace = pair(alloc, first, second)?;
    let seen = repeated(alloc, &trace, 9)?;
    let mut rv = seen_by(alloc, &[formula], seen.as_slice(), before)?;
    arrive(alloc, &mut rv, seen.as_slice(), trace, steps)
}

/// A made trace behind any number of made ones makes at most 2,802 steps: words over two letters
/// have at most 7, 37, 169 and 721 joint prefixes of the lengths 1 to 4.
pub fn made_behind<B: Ledger, L: Ledger>(
    alloc: Global,
    formula: Formula,
    names: &NameTable,
    n: u32,
    before: &mut Steps<B>,
    steps: &mut Steps<L>,
) -> Result<Reply, Fail>
    requires three { length formula.prefix ≡ 3 }
    requires few { n < 1000000 }
    ensures { steps.new ≤ steps.old + 2802 }
{
    let mut seen = make_traces(alloc, n + 1, names)?;
    let Some(trace) = seen.pop() else {
        return Err("no trace")?;
    };
    let mut rv = seen_by(alloc, &[formula], seen.as_slice(), before)?;
    arrive(alloc, &mut rv, seen.as_slice(), trace, steps)
}
