//! The monitor of a body.

ghost use Rattle.std.specs.Prelude.{map, nat_eq, IsTrue, ◌≡◌, ◌<◌, ◌+◌, ◌*◌};
ghost use Rattle.hy_formula.specs.Trees.{tree_of};
ghost use Rattle.hy_formula.specs.Atoms.{plain_atom};
ghost use Rattle.fin_monitor.specs.Codes.{joint_letter, one_if};
ghost use Rattle.fin_monitor.specs.Machines.{IsMonitor};
ghost use Rattle.fin_monitor.specs.Parts.{AreParts};

use crate::atoms::atoms_in;
use crate::automaton::Automaton;
use crate::building::{automaton_of, closure_of, root_of};
use crate::monitor_error::MonitorError;
use crate::parts::parts_by_variable;
use crate::settling::settle;
use crate::variable_parts::VariableParts;
use hy_base::{List, NumList, Steps};
use hy_bits::LetterMask;
use hy_formula::{Atom, AtomList, Body};
use std::alloc::Global;
use std::sync::ledger::Ledger;

/// A body as states that joint letters lead on, each of which accepts or not. States are numbered
/// from 0; from the last one on nothing is rejected.
#[derive(Drop)]
pub struct Monitor {
    body: Body,
    vars: u8,
    atoms: AtomList,
    /// For each variable the parts of codes that its letters give.
    parts: List<VariableParts>,
    /// For each state and each code of a joint letter, code by code, the state that follows.
    table: NumList,
    accepting: List<bool>,
    ghost right: { IsMonitor (record {
      body = tree_of body;
      variables = vars;
      atoms = map plain_atom atoms;
      table = table;
      accepting = accepting;
    }) },
    ghost by_variable: { AreParts parts (map plain_atom atoms) vars },
}

impl Monitor {
    ghost use Rattle.std.specs.Prelude.{◌≤◌, ◌↔◌, length, IfOk, IfErr, OnOk, List as Sequence};
    ghost use Rattle.hy_formula.specs.Trees.{vars_below};
    ghost use Rattle.hy_finite.specs.declared.lengths.Lengths.{Lengths};
    ghost use Rattle.hy_finite.specs.Traces.{Trace, judged, trace_words, Meets};
    ghost use Rattle.fin_monitor.specs.Codes.{code_of, part_of};
    ghost use Rattle.fin_monitor.specs.Parts.{ArePartsOf};
    ghost use Rattle.fin_monitor.specs.Limits.{IsTaken, IsRefusal};
    ghost use Rattle.fin_monitor.specs.Machines.{codes, states_of, next_state, is_accepting, state_after, settled_state};
    ghost use Rattle.fin_monitor.specs.Seen.{machine_of};

    /// The monitor of a body, for traces of `vars` variables.
    ///
    /// `Limit` comes exactly where the closure has more than 1,024 members; or else the body has more
    /// than 16 indexed atoms; or else its residuals, times the joint letters, are more than 4,194,304.
    /// In time and memory linear in the table, times what it takes to step a residual; letters that
    /// agree where a residual asks share one step. What members leave is kept for all letters where
    /// members times letters are at most 65,536.
    pub fn build(alloc: Global, body: &Body, vars: u8) -> Result<Monitor, MonitorError>
        requires some { 1 ≤ vars }
        requires few { vars ≤ 4 }
        requires bound { IsTrue (vars_below vars (tree_of body.now)) }
        ensures body { IfOk result (λ m. (machine_of m).body ≡ tree_of body.now) }
        ensures vars { IfOk result (λ m. (machine_of m).variables ≡ vars) }
        ensures right { IfOk result (λ m. IsMonitor (machine_of m)) }
        ensures taken { OnOk result (IsTaken (tree_of body.now)) }
        ensures refused { IfErr result (IsRefusal (tree_of body.now)) }
    {
        let closure = closure_of(alloc, body, vars)?;
        let atoms = atoms_in(alloc, body)?;
        let found = automaton_of(alloc, &closure, &atoms, root_of(&closure))?;
        let automaton = settle(alloc, &found, atoms.len())?;
        let parts = parts_by_variable(alloc, atoms.as_slice(), vars)?;
        Ok(Monitor::made(body.copy(alloc)?, vars, atoms, parts, automaton))
    }

    /// The monitor of these parts.
    fn made(
        body: Body,
        vars: u8,
        atoms: AtomList,
        parts: List<VariableParts>,
        automaton: Automaton,
    ) -> Monitor
        requires parts { AreParts parts (map plain_atom atoms) vars }
        requires right { IsMonitor (record {
          body = tree_of body;
          variables = vars;
          atoms = map plain_atom atoms;
          table = automaton.table;
          accepting = automaton.accepting;
        }) }
        ensures { machine_of result ≡ record {
          body = tree_of body;
          variables = vars;
          atoms = map plain_atom atoms;
          table = automaton.table;
          accepting = automaton.accepting;
        } }
    {
        let Automaton { table, accepting } = automaton;
        Monitor {
            body,
            vars,
            atoms,
            parts,
            table,
            accepting,
        }
    }

    /// The code of the joint letter of one letter for each variable: bit i says whether atom i holds.
    /// In time linear in the atoms.
    pub fn joint(&self, letters: &[LetterMask]) -> u32
        requires { length letters.now ≡ (machine_of self.now).variables }
        ensures joint { result ≡ code_of (joint_letter letters.now) (machine_of self.now).atoms }
        ensures within { result < codes (machine_of self.now) }
    {
        let mut code = 0;
        let mut i = self.atoms.len();
        while i > 0 {
            i -= 1;
            let a = *self.atoms.at(i);
            code = with_bit(code, has_name(letters, a));
        }
        code
    }

    /// The part of the code of a joint letter that comes from the letter of one variable. The code is
    /// the bitwise or of the parts of all variables. In constant time for the eight lowest names, and
    /// linear in the variable's atoms of others.
    #[inline(always)]
    pub fn part(&self, var: u8, letter: LetterMask) -> u32
        ensures part { result ≡ part_of (machine_of self.now).atoms var letter }
        ensures within { result < codes (machine_of self.now) }
    {
        if var >= self.vars {
            return 0;
        }
        self.parts.at(var as usize).of(letter)
    }

    /// What letters of a variable give of codes, lent for a loop over letters: `of` each is `part`.
    #[inline(always)]
    pub fn parts_of(&self, var: u8) -> &VariableParts
        requires { var < (machine_of self.now).variables }
        ensures { ArePartsOf result.now (machine_of self.now).atoms var }
    {
        self.parts.at(var as usize)
    }

    /// The state before all letters.
    pub fn start(&self) -> u32
        ensures start { result ≡ 0 }
        ensures within { result < states_of (machine_of self.now) }
    {
        0
    }

    /// The state that follows state `q` after the joint letter of a code. In constant time.
    #[inline(always)]
    pub fn step<L: Ledger>(&self, q: u32, joint: u32, steps: &mut Steps<L>) -> u32
        requires state { q < states_of (machine_of self.now) }
        requires code { joint < codes (machine_of self.now) }
        ensures next { result ≡ next_state (machine_of self.now) q joint }
        ensures within { result < states_of (machine_of self.now) }
        ensures counted { steps.new ≡ steps.old + 1 }
    {
        steps.tick();
        *self
            .table
            .at(((q as usize) << self.atoms.len()) + joint as usize)
    }

    /// Whether state `q` accepts: after the joint letters of a tuple, on its judged length, whether
    /// the tuple satisfies the body.
    pub fn accepts(&self, q: u32) -> bool
        requires { q < states_of (machine_of self.now) }
        ensures accepting { result ≡ is_accepting (machine_of self.now) q }
        ensures meets { (rule : Lengths) (tuple : Sequence Trace) → 0 < judged rule tuple
            → q ≡ state_after (machine_of self.now) (trace_words tuple) (judged rule tuple)
            → IsTrue result ↔ Meets rule (machine_of self.now).body tuple }
    {
        *self.accepting.at(q as usize)
    }

    /// Whether the state is the one from which nothing is rejected.
    #[inline(always)]
    pub fn is_settled(&self, q: u32) -> bool
        ensures { result ≡ nat_eq q (settled_state (machine_of self.now)) }
    {
        q as usize == self.accepting.len() - 1
    }

    /// The number of variables that `build` was given: at most 4.
    pub fn vars(&self) -> u8
        ensures vars { result ≡ (machine_of self.now).variables }
        ensures few { result ≤ 4 }
    {
        self.vars
    }

    /// How many states there are.
    pub fn states(&self) -> u32
        ensures states { result ≡ states_of (machine_of self.now) }
        ensures some { 0 < result }
    {
        self.accepting.len() as u32
    }

    /// The different indexed atoms of the body, in the order of their first occurrence.
    pub fn atoms(&self) -> &[Atom]
        ensures atoms { map plain_atom result.now ≡ (machine_of self.now).atoms }
        ensures few { length result.now ≤ 16 }
    {
        self.atoms.as_slice()
    }
}

/// Whether the letter of the atom's variable has its name.
fn has_name(letters: &[LetterMask], a: Atom) -> bool
    ensures { result ≡ joint_letter letters.now a.name a.var }
{
    match letters.get(a.var as usize) {
        Some(letter) => letter.has(a.name as usize),
        None => false,
    }
}

/// The code with one more bit, the lowest one.
fn with_bit(code: u32, bit: bool) -> u32
    requires { code < 65536 }
    ensures { result ≡ one_if bit + 2 * code }
{
    if bit { 2 * code + 1 } else { 2 * code }
}
