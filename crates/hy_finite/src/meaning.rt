//! What a body means on a tuple of finite traces.

ghost use Rattle.std.specs.Prelude.{◌≡◌, ℕ, ◌+◌, ◌*◌, ◌<◌, ◌≤◌, ◌↔◌, [], length, IfOk, OnOk, IsTrue, All, slice_index_or};
ghost use Rattle.hy_formula.specs.Trees.{tree_of, vars_below, atom};
ghost use Rattle.hy_finite.specs.Traces.{of_two, judged, picked, Meets};
ghost use Rattle.hy_finite.specs.Rows.{IsRepeated, IsNamesWord};

use crate::lengths::Lengths;
use crate::rows::{Rows, binary, unary};
use crate::rule::{Rule, has_one};
use crate::trace::{Trace, TraceList};
use hy_base::{List, M};
use hy_formula::{Atom, Body};
use std::alloc::Global;

/// Whether the body holds of the picked traces, at their first position. `pick` has for each variable
/// of the body the number of a trace of the list. In time the size of the body times the judged length
/// over 64, and for each atom the judged length; with one buffer.
pub fn finite_holds(
    alloc: Global,
    body: &Body,
    list: &TraceList,
    pick: &[u32],
    lengths: Lengths,
) -> M<bool>
    requires some { 1 ≤ length pick.now }
    requires members { All (λ k. k < length list.now) pick.now }
    requires bound { IsTrue (vars_below (length pick.now) (tree_of body.now)) }
    ensures { IfOk result (λ holds.
        IsTrue holds ↔ Meets lengths (tree_of body.now) (picked list.now pick.now)) }
{
    let positions = judged_length(list, pick, lengths);
    let tuple = Picked {
        list,
        pick,
        positions,
        width: positions.div_ceil(64),
    };
    let mut rows = List::new(alloc);
    tuple.fill(body, &mut rows)?;
    let first = positions - 1;
    Ok(has_one(*rows.at(first / 64), first % 64))
}

/// The length on which the picked traces are judged.
#[tactic(auto, using(crate::proofs::JudgedLength::lengths))]
fn judged_length(list: &TraceList, pick: &[u32], lengths: Lengths) -> usize
    requires some { 1 ≤ length pick.now }
    requires members { All (λ k. k < length list.now) pick.now }
    ensures judged { result ≡ judged lengths (picked list.now pick.now) }
    ensures some { 1 ≤ result }
{
    let mut judged = length_of(list, pick[0]);
    for i in 1..pick.len() {
        judged = of_two(lengths, judged, length_of(list, pick[i]));
    }
    judged
}

/// The judged length of two traces, by their lengths: the least of them or the greatest, by the rule.
pub fn of_two(lengths: Lengths, a: usize, b: usize) -> usize
    ensures { result ≡ of_two lengths a b }
{
    match lengths {
        Lengths::Min => a.min(b),
        Lengths::Pad => a.max(b),
    }
}

/// The length of trace `k`.
fn length_of(list: &TraceList, k: u32) -> usize
    requires { k < length list.now }
    ensures len { result ≡ length (slice_index_or list.now k []) }
    ensures some { 1 ≤ result }
{
    list.at(k as usize).len()
}

/// A tuple of traces, how many positions it is judged on, and how many words a row has for them.
#[derive(Clone, Copy)]
struct Picked<'a> {
    list: &'a TraceList,
    pick: &'a [u32],
    positions: usize,
    width: usize,
    ghost members: { All (λ k. k < length list.now) pick.now },
    ghost some: { 1 ≤ positions },
    ghost enough: { positions ≤ 64 * width },
    ghost needed: { 64 * width < positions + 64 },
}

impl Picked<'_> {
    ghost use Rattle.hy_finite.specs.Judging.{IsRowOn};

    /// Puts on top whether the body holds at each position.
    #[tactic(auto, using(crate::proofs::RowMeanings::rows))]
    fn fill(&self, body: &Body, rows: &mut Rows) -> M<()>
        requires { IsTrue (vars_below (length self.now.pick.now) (tree_of body.now)) }
        ensures { OnOk result (IsRowOn self.now (tree_of body.now) rows.old rows.new) }
    {
        match body {
            Body::True => self.push_word(u64::MAX, rows),
            Body::False => self.push_word(0, rows),
            Body::Atom(a) => self.push_names(*a, rows),
            Body::Not(f) => {
                self.fill(f, rows)?;
                unary(Rule::Not, rows, self.width);
                Ok(())
            }
            Body::Next(f) => {
                self.fill(f, rows)?;
                unary(Rule::Next, rows, self.width);
                Ok(())
            }
            Body::Finally(f) => {
                self.fill(f, rows)?;
                unary(Rule::Finally, rows, self.width);
                Ok(())
            }
            Body::Globally(f) => {
                self.fill(f, rows)?;
                unary(Rule::Globally, rows, self.width);
                Ok(())
            }
            Body::And(f, g) => {
                self.fill(f, rows)?;
                self.fill(g, rows)?;
                binary(Rule::And, rows, self.width);
                Ok(())
            }
            Body::Or(f, g) => {
                self.fill(f, rows)?;
                self.fill(g, rows)?;
                binary(Rule::Or, rows, self.width);
                Ok(())
            }
            Body::Implies(f, g) => {
                self.fill(f, rows)?;
                self.fill(g, rows)?;
                binary(Rule::Implies, rows, self.width);
                Ok(())
            }
            Body::Iff(f, g) => {
                self.fill(f, rows)?;
                self.fill(g, rows)?;
                binary(Rule::Iff, rows, self.width);
                Ok(())
            }
            Body::Until(f, g) => {
                self.fill(f, rows)?;
                self.fill(g, rows)?;
                binary(Rule::Until, rows, self.width);
                Ok(())
            }
            Body::Release(f, g) => {
                self.fill(f, rows)?;
                self.fill(g, rows)?;
                binary(Rule::Release, rows, self.width);
                Ok(())
            }
            Body::Weak(f, g) => {
                self.fill(f, rows)?;
                self.fill(g, rows)?;
                binary(Rule::Weak, rows, self.width);
                Ok(())
            }
        }
    }

    /// Puts on top a row of the same word again and again.
    fn push_word(&self, word: u64, rows: &mut Rows) -> M<()>
        ensures { OnOk result (IsRepeated word self.now.width rows.old rows.new) }
    {
        for _k in 0..self.width {
            rows.push(word)?;
        }
        Ok(())
    }

    /// Puts on top whether the atom holds at each position.
    fn push_names(&self, a: Atom, rows: &mut Rows) -> M<()>
        requires { a.var < length self.now.pick.now }
        ensures { OnOk result (IsRowOn self.now (atom a.name a.var) rows.old rows.new) }
    {
        let trace = self.list.at(self.pick[a.var as usize] as usize);
        for k in 0..self.width {
            let to = self.positions - 64 * k;
            rows.push(names_word(trace, a.name, to.saturating_sub(64), to))?;
        }
        Ok(())
    }
}

/// Whether the name is in the letters from `from` up to `to`, the last of them at the lowest place.
fn names_word(trace: &Trace, name: u8, from: usize, to: usize) -> u64
    requires order { from ≤ to }
    requires few { to ≤ from + 64 }
    requires named { name < 64 }
    ensures { IsNamesWord trace.now name from to result }
{
    let mut word = 0;
    for i in from..to {
        word = (word << 1) | trace.letter_at(i).has(name as usize) as u64;
    }
    word
}
