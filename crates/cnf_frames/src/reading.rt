//! The path that an assignment of a query stands for.

ghost use Rattle.std.specs.Prelude.{◌≡◌, ◌+◌, ◌<◌, ◌≤◌, ◌^◌, false, length, slice_index_or, IfOk};
ghost use Rattle.aig_net.specs.Executions.{Word};
ghost use Rattle.hy_base.specs.Rows.{listed};
ghost use Rattle.chain_check.specs.Clauses.{SatisfiesAll};
ghost use Rattle.cnf_frames.specs.Facts.{IsSafe};
ghost use Rattle.cnf_frames.specs.Queries.{clauses_of};
ghost use Rattle.cnf_frames.specs.QueryPaths.{Answers, Shows, steps_of};

use crate::queries::Asked;
use aig_net::Row;
use hy_base::{List, M};
use live_safe::{Path, SafeNet};
use std::alloc::Global;

impl Asked {
    /// The path of an assignment that makes all clauses true: its first state, and the inputs of
    /// each step. A variable past the end of `values` is false. In time linear in the path.
    pub fn path(&self, alloc: Global, safe: &SafeNet, values: &List<bool>) -> M<Path>
        requires safe { IsSafe safe.now }
        requires values { SatisfiesAll values.now (clauses_of safe.now self.now) }
        ensures path { IfOk result (λ path.
            (word : Word) × Answers safe.now self.now word × Shows safe.now path word) }
        ensures steps { IfOk result (λ path. length path.inputs ≡ steps_of self.now) }
    {
        let net = &safe.net;
        let variables = net.variables() as usize;
        let inputs = net.inputs() as usize;
        let first = row_of(alloc, values.as_slice(), 1 + inputs, net.latches().len())?;
        let mut rows = List::new(alloc);
        for i in 0..steps_asked(self) {
            rows.push(row_of(alloc, values.as_slice(), i * variables + 1, inputs)?)?;
        }
        Ok(Path {
            first,
            inputs: rows,
        })
    }
}

/// How many steps the paths have that answer.
fn steps_asked(asked: &Asked) -> usize
    ensures steps { result ≡ steps_of asked.now }
    ensures few { result ≤ 2 ^ 32 }
{
    match asked {
        Asked::Base { k } => *k as usize,
        Asked::Step { inv: _, k } => *k as usize + 1,
        Asked::Keep { inv: _, group: _ } => 1,
    }
}

/// The `n` values from place `start` on.
fn row_of(alloc: Global, values: &[bool], start: usize, n: usize) -> M<Row>
    requires { start + n < 2 ^ 64 }
    ensures { IfOk result (λ row. row ≡ listed 0 n (λ v.
        slice_index_or values.now (start + v) false)) }
{
    let mut row = List::new(alloc);
    for v in 0..n {
        row.push(value_at(values, start + v))?;
    }
    Ok(row)
}

/// The value at a place, false past the end.
fn value_at(values: &[bool], i: usize) -> bool
    ensures { result ≡ slice_index_or values.now i false }
{
    if i < values.len() { values[i] } else { false }
}
