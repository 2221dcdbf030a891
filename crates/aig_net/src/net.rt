//! Nets: parts that fit together.

ghost use Rattle.std.specs.Prelude.{◌≡◌, ◌≤◌, ◌^◌, length};
ghost use Rattle.aig_net.specs.Nets.{IsNet, IsRight, variables};
ghost use Rattle.hy_base.specs.Rows.{row};
ghost use Rattle.aig_net.specs.Rows.{input_row, latch_row};

use crate::gates::fill;
use crate::parts::{AndList, NameList, NetParts, ResetList};
use hy_base::NumList;
use std::marker::Model;

/// A circuit of fewer than 2^31 variables, which contracts see as its parts.
#[derive(Drop)]
pub struct Net {
    parts: NetParts,
}

impl Model for Net {
    ghost use Rattle.std.specs.Prelude.{◌≤◌, ◌^◌};
    ghost use Rattle.aig_net.specs.Nets.{IsNet, variables};
    ghost use Rattle.aig_net.specs.declared.parts.NetParts.{NetParts};

    ghost Value = { NetParts };

    ghost view = { λ n. n.parts };

    ghost invariant = { λ n. IsNet n.parts × (variables n.parts ≤ 2 ^ 31) };
}

impl Net {
    /// The net of these parts.
    pub fn new(parts: NetParts) -> Net
        requires net { IsNet parts }
        requires room { variables parts ≤ 2 ^ 31 }
        ensures { result ≡ parts }
    {
        Net { parts }
    }

    /// How many variables there are, the constant too.
    pub fn variables(&self) -> u32
        ensures count { result ≡ variables self.now }
        ensures net { IsNet self.now }
        ensures room { variables self.now ≤ 2 ^ 31 }
    {
        let parts = &self.parts;
        1 + parts.inputs + parts.latches.len() as u32 + parts.ands.len() as u32
    }

    /// How many inputs there are.
    pub fn inputs(&self) -> u32
        ensures { result ≡ self.now.inputs }
    {
        self.parts.inputs
    }

    /// For each latch the literal that gives its next value.
    pub fn latches(&self) -> &NumList
        ensures { result.now ≡ self.now.latches }
    {
        &self.parts.latches
    }

    /// For each latch its value at the start.
    pub fn resets(&self) -> &ResetList
        ensures { result.now ≡ self.now.resets }
    {
        &self.parts.resets
    }

    /// The ands in the order of their variables.
    pub fn ands(&self) -> &AndList
        ensures { result.now ≡ self.now.ands }
    {
        &self.parts.ands
    }

    /// The literals of the outputs.
    pub fn outputs(&self) -> &NumList
        ensures { result.now ≡ self.now.outputs }
    {
        &self.parts.outputs
    }

    /// The literals that are true in each step.
    pub fn constraints(&self) -> &NumList
        ensures { result.now ≡ self.now.constraints }
    {
        &self.parts.constraints
    }

    /// The literals that are true again and again.
    pub fn fairs(&self) -> &NumList
        ensures { result.now ≡ self.now.fairs }
    {
        &self.parts.fairs
    }

    /// The names of the inputs, empty where there is none.
    pub fn input_names(&self) -> &NameList
        ensures { result.now ≡ self.now.input_names }
    {
        &self.parts.input_names
    }

    /// The names of the latches, empty where there is none.
    pub fn latch_names(&self) -> &NameList
        ensures { result.now ≡ self.now.latch_names }
    {
        &self.parts.latch_names
    }

    /// The names of the outputs, empty where there is none.
    pub fn output_names(&self) -> &NameList
        ensures { result.now ≡ self.now.output_names }
    {
        &self.parts.output_names
    }

    /// Gives each variable its value, in time linear in the net: the constant first, then those of
    /// the inputs, latches and ands.
    pub fn step(&self, latches: &[bool], inputs: &[bool], values: &mut [bool])
        requires latches { length latches.now ≡ length self.now.latches }
        requires inputs { length inputs.now ≡ self.now.inputs }
        requires values { length values.old ≡ variables self.now }
        ensures right { IsRight self.now (row values.new) }
        ensures inputs { input_row self.now values.new ≡ inputs.now }
        ensures latches { latch_row self.now values.new ≡ latches.now }
    {
        let first_latch = 1 + inputs.len();
        let first_and = first_latch + latches.len();
        values[0] = false;
        values[1..first_latch].copy_from_slice(inputs);
        values[first_latch..first_and].copy_from_slice(latches);
        fill(self.parts.ands.as_slice(), first_and, values);
    }
}
