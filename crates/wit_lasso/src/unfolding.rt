//! From a path of a safe net to runs of the copies.

ghost use Rattle.std.specs.Prelude.{◌≡◌, ℕ, suc, ◌+◌, ◌*◌, ◌<◌, ◌≤◌, ◌^◌, true, false, length, take, drop, IfOk};
ghost use Rattle.hy_base.specs.Rows.{row, listed};
ghost use Rattle.aig_net.specs.Following.{row_at};
ghost use Rattle.live_safe.specs.Safe.{is_free as free_reset};
ghost use Rattle.wit_lasso.specs.PathParts.{AreRows, free_before, own_latches, own_run, start_value as value_at_start};
ghost use Rattle.wit_lasso.specs.Unfoldings.{GoesToBad, IsSafeOf, IsUnfolding};

use aig_net::{Net, Reset, Row, Run, RunList, own_rows};
use hy_base::{List, M};
use live_safe::{Path, SafeNet};
use std::alloc::Global;

/// The runs of the `n` copies of a net in the lasso for which a path of the safe net stands. The
/// stem are the steps before the one that saves, the cycle that one and all later ones. In time and
/// memory linear in the path.
pub fn unfold(alloc: Global, net: &Net, n: u8, safe: &SafeNet, path: &Path) -> M<RunList>
    requires some { 0 < n }
    requires safe { IsSafeOf net.now n safe.now }
    requires path { GoesToBad safe.now path.now }
    ensures { IfOk result (IsUnfolding net.now n safe.now path.now) }
{
    net.variables(); // what each net keeps
    let inputs = safe.net.inputs();
    let free = free_latches(net.resets().as_slice()) * u32::from(n);
    let place = (inputs - free - 1) as usize;
    let rows = path.inputs.as_slice();
    let start = saving_step(rows, place);
    let runs = runs_of(alloc, net, n, rows, place, start)?;
    Ok(runs)
}

/// The runs of the copies, where the step `start` is the first that saves, by the input at `place`.
#[tactic(auto, using(hy_base::proofs::Listed::listed_next))]
fn runs_of(alloc: Global, net: &Net, n: u8, rows: &[Row], place: usize, start: usize) -> M<RunList>
    requires fit { AreRows net.now n place rows.now }
    requires start { start ≤ length rows.now }
    ensures { IfOk result (λ runs. runs ≡ listed 0 n (own_run net.now n place rows.now start)) }
{
    let mut runs = List::new(alloc);
    for c in 0..n {
        runs.push(run_of(alloc, net, n, c, rows, place, start)?)?;
    }
    Ok(runs)
}

/// The run of copy `c`.
fn run_of(
    alloc: Global,
    net: &Net,
    n: u8,
    c: u8,
    rows: &[Row],
    place: usize,
    start: usize,
) -> M<Run>
    requires copy { c < n }
    requires fit { AreRows net.now n place rows.now }
    requires start { start ≤ length rows.now }
    ensures { IfOk result (λ run. run ≡ own_run net.now n place rows.now start c) }
{
    let free = &rows[0].as_slice()[place + 1..];
    let inputs = net.inputs() as usize;
    let (copies, copy) = (usize::from(n), usize::from(c));
    Ok(Run {
        first: start_latches(alloc, net.resets().as_slice(), n, c, free)?,
        stem: own_rows(alloc, &rows[..start], inputs, copies, copy)?,
        cycle: own_rows(alloc, &rows[start..], inputs, copies, copy)?,
    })
}

/// Whether a latch with this reset is uninitialised.
fn is_free(reset: Reset) -> bool
    ensures { result ≡ free_reset reset }
{
    reset == Reset::Free
}

/// How many latches are uninitialised.
#[tactic(auto, using(live_safe::proofs::Counting::count_more, crate::proofs::Places::few_free))]
fn free_latches(resets: &[Reset]) -> u32
    requires { length resets.now < 2 ^ 32 }
    ensures { result ≡ free_before resets.now (length resets.now) }
{
    let mut free = 0;
    for reset in resets {
        free += u32::from(is_free(*reset));
    }
    free
}

/// The first row whose input at `place` is true, or their number.
fn saving_step(rows: &[Row], place: usize) -> usize
    requires { (i : ℕ) → i < length rows.now → place < length (row_at rows.now i) }
    ensures within { result ≤ length rows.now }
    ensures before { (i : ℕ) → i < result → row (row_at rows.now i) place ≡ false }
    ensures saves { result < length rows.now → row (row_at rows.now result) place ≡ true }
{
    for (i, given) in rows.iter().enumerate() {
        if *given.at(place) {
            return i;
        }
    }
    rows.len()
}

/// The latches of copy `c` of `n` at the start, by the inputs of the uninitialised ones.
#[tactic(auto, using(live_safe::proofs::Counting::count_more, crate::proofs::Places::free_place, hy_base::proofs::Listed::listed_next))]
fn start_latches(alloc: Global, resets: &[Reset], n: u8, c: u8, free: &[bool]) -> M<Row>
    requires copy { c < n }
    requires long { free_before resets.now (length resets.now) * n ≤ length free.now }
    requires small { free_before resets.now (length resets.now) * n < 2 ^ 32 }
    ensures { IfOk result (λ made. made ≡ own_latches resets.now n c free.now) }
{
    let mut made = List::new(alloc);
    let mut before = 0;
    for reset in resets {
        let place = before * usize::from(n) + usize::from(c);
        made.push(start_value(*reset, free, place))?;
        before += usize::from(is_free(*reset));
    }
    Ok(made)
}

/// The value of a latch at the start: that at `place` where it is uninitialised.
fn start_value(reset: Reset, free: &[bool], place: usize) -> bool
    requires { free_reset reset ≡ true → place < length free.now }
    ensures { result ≡ value_at_start reset (row free.now place) }
{
    match reset {
        Reset::Zero => false,
        Reset::One => true,
        Reset::Free => free[place],
    }
}
