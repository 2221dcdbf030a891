//! What the lines of a circuit text say, with the variables' numbers as in the text.

ghost use Rattle.std.specs.Prelude.{◌≡◌, ◌+◌, ◌<◌, ◌^◌, ◌≤◌, OnOk, slice_index, true};
ghost use Rattle.aig_order.specs.declared.gate.Gate.{Gate};
ghost use Rattle.aiger_body.specs.declared.content.Latch.{Latch};
ghost use Rattle.aiger_body.specs.Files.{latch_of, gate_of, is_right, reset_of};
ghost use Rattle.aiger_body.specs.Keeping.{AreWords, HasWords, keep, empty};

use crate::section::Section;
use aig_net::Reset;
use aig_order::Gate;
use hy_base::{List, M, NumList};
use std::alloc::Global;

/// The line of a latch.
#[derive(Clone, Copy, Debug)]
pub struct Latch {
    /// Its own literal.
    pub own: u32,
    /// The literal that gives its next value.
    pub next: u32,
    pub reset: Reset,
}

/// The literals of a text in the order of its lines. Those of bad and justice properties are read
/// and not kept.
#[derive(Drop)]
pub struct Content {
    pub inputs: NumList,
    pub latches: List<Latch>,
    pub outputs: NumList,
    pub constraints: NumList,
    /// How many literals the justice properties have.
    pub justice: u64,
    pub fairs: NumList,
    pub gates: List<Gate>,
}

impl Content {
    /// No line yet.
    pub fn new(alloc: Global) -> Self
        ensures { result ≡ empty }
    {
        Content {
            inputs: List::new(alloc),
            latches: List::new(alloc),
            outputs: List::new(alloc),
            constraints: List::new(alloc),
            justice: 0,
            fairs: List::new(alloc),
            gates: List::new(alloc),
        }
    }

    /// Keeps what a line of the section says, in constant time but for growth.
    pub fn keep(&mut self, section: Section, row: &[u64]) -> M<()>
        requires small { HasWords section row.now }
        requires room { self.old.justice + slice_index row.now 0 < 2 ^ 64 }
        ensures { OnOk result (self.new ≡ keep section row.now self.old) }
    {
        match section {
            Section::Inputs => self.inputs.push(literal(row, 0)),
            Section::Latches => self.latches.push(read_latch(row)),
            Section::Outputs => self.outputs.push(literal(row, 0)),
            Section::Constraints => self.constraints.push(literal(row, 0)),
            Section::Sizes => {
                self.justice += number(row, 0);
                Ok(())
            }
            Section::Fairs => self.fairs.push(literal(row, 0)),
            Section::Gates => self.gates.push(read_gate(row)),
            Section::Bads | Section::Justices => Ok(()),
        }
    }
}

/// What the line of a latch says.
fn read_latch(row: &[u64]) -> Latch
    requires { AreWords row.now }
    ensures { result ≡ latch_of row.now }
{
    Latch {
        own: literal(row, 0),
        next: literal(row, 1),
        reset: reset(row),
    }
}

/// A latch starts at 0 where its line says nothing else.
fn reset(row: &[u64]) -> Reset
    ensures { result ≡ reset_of row.now }
{
    match row {
        [_, _, 0] => Reset::Zero,
        [_, _, 1] => Reset::One,
        [_, _, _] => Reset::Free,
        _ => Reset::Zero,
    }
}

/// What the line of an and says.
fn read_gate(row: &[u64]) -> Gate
    requires { AreWords row.now }
    ensures { result ≡ gate_of row.now }
{
    Gate {
        lhs: literal(row, 0),
        left: literal(row, 1),
        right: literal(row, 2),
    }
}

/// Number `i` of the row as a literal, 0 where it has not so many.
fn literal(row: &[u64], i: usize) -> u32
    requires { AreWords row.now }
    ensures { result ≡ slice_index row.now i }
{
    number(row, i) as u32
}

/// Number `i` of the row, 0 where it has not so many.
pub fn number(row: &[u64], i: usize) -> u64
    ensures { result ≡ slice_index row.now i }
{
    if i < row.len() { row[i] } else { 0 }
}
