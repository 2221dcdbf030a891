//! Which numbers the literals of latches have in the queries, before a step and after it, and behind
//! them further variables, by which clauses are switched on.

ghost use Rattle.std.specs.Prelude.{◌≡◌, ◌+◌, ◌<◌, ◌^◌};

use crate::constrained::constrained_latches;
use crate::cubes::Cube;
use crate::numbers::{Numbers, Pair};
use crate::question::Question;
use crate::variables::{first_and, first_latch};
use aig_net::{Net, opposite_of};
use chain_check::Literal;
use cnf_frames::Fact;
use hy_base::{List, M};
use live_safe::SafeNet;
use std::alloc::Global;

/// By literal of a latch: its literal in the queries, if it has one.
pub type Table = Vec<Option<Literal>>;

/// A latch that states are told by.
#[derive(Clone, Copy)]
struct Place {
    /// Where its value stands among those of all variables.
    value: usize,
    /// The literal that says that it is 1.
    one: u32,
    /// The literal that says that it is 0.
    zero: u32,
}

/// A variable by which clauses are switched on.
#[derive(Clone, Copy)]
pub struct Switch {
    /// The literal that switches them on.
    pub on: Literal,
    /// The number of the opposite literal, which each of them has.
    pub off: i32,
}

/// The numbers of the literals of latches.
#[derive(Drop)]
pub struct Layout {
    /// The latches before a step.
    pub now: Table,
    /// The latches after it, and behind them `bad` as if it were one.
    pub next: Table,
    /// By latch: whether a constraint depends on it.
    pub constrained: Vec<bool>,
    /// The latches that matter, but for those that are known by the facts and the others.
    places: Vec<Place>,
    /// The inputs that matter.
    inputs: Vec<Pair>,
    /// How many variables a step has.
    first: u32,
    /// How many switches there are.
    switches: u32,
    ghost room: { first + switches < 2 ^ 31 },
}

/// Adds the literals of a variable.
fn push_pair(table: &mut Table, pair: Option<Pair>) -> M<()> {
    match pair {
        Some(Pair { one, zero }) => {
            table.push(Some(one))?;
            table.push(Some(zero))?;
        }
        None => {
            table.push(None)?;
            table.push(None)?;
        }
    }
    Ok(())
}

/// The literals of the latches before a step.
fn table_before(alloc: Global, net: &Net, numbers: &Numbers) -> M<Table> {
    let mut table = Vec::new(alloc);
    for latch in first_latch(net)..first_and(net) {
        push_pair(&mut table, numbers.before(latch as usize))?;
    }
    Ok(table)
}

/// The literals of the latches after a step, and of `bad`.
fn table_after(alloc: Global, safe: &SafeNet, numbers: &Numbers) -> M<Table> {
    let net = &safe.net;
    let mut table = Vec::new(alloc);
    for latch in first_latch(net)..first_and(net) {
        push_pair(&mut table, numbers.after(latch as usize))?;
    }
    push_pair(&mut table, numbers.after_literal(safe.bad))?;
    Ok(table)
}

/// The inputs that matter before a step.
fn inputs(alloc: Global, net: &Net, numbers: &Numbers) -> M<Vec<Pair>> {
    let mut inputs = Vec::new(alloc);
    for variable in 1..first_latch(net) {
        if let Some(pair) = numbers.before(variable as usize) {
            inputs.push(pair)?;
        }
    }
    Ok(inputs)
}

/// The latch whose value is known by the fact, and by an earlier latch if it names two.
fn known_latch(fact: &Fact) -> Option<u32> {
    match fact {
        Fact::Zero(a) | Fact::One(a) => Some(*a),
        Fact::Same(a, b) | Fact::Differ(a, b) => Some((*a).max(*b)),
        Fact::AnyOf(_) => None,
    }
}

/// For each latch whether the facts leave it open.
fn open_latches(alloc: Global, latches: usize, facts: &[Fact]) -> M<Vec<bool>> {
    let mut open = vec![in alloc; true; latches]?;
    for fact in facts {
        if let Some(latch) = known_latch(fact)
            && let Some(is_open) = open.get_mut(latch as usize)
        {
            *is_open = false;
        }
    }
    Ok(open)
}

/// The latches that states are told by, in time linear in latches and facts.
fn places(alloc: Global, net: &Net, facts: &[Fact], numbers: &Numbers) -> M<Vec<Place>> {
    let first = first_latch(net);
    let open = open_latches(alloc, net.latches().len(), facts)?;
    let mut places = Vec::new(alloc);
    for latch in 0..net.latches().len() as u32 {
        if open.get(latch as usize) == Some(&true)
            && let Some(pair) = numbers.before((first + latch) as usize)
        {
            places.push(Place {
                value: pair.place(),
                one: 2 * latch,
                zero: 2 * latch + 1,
            })?;
        }
    }
    Ok(places)
}

/// Adds the literals that a table has for those of a cube.
pub(crate) fn push_cube(
    table: &[Option<Literal>],
    cube: &[u32],
    literals: &mut Vec<Literal>,
) -> M<()> {
    for literal in cube {
        if let Some(Some(number)) = table.get(*literal as usize) {
            literals.push(*number)?;
        }
    }
    Ok(())
}

/// The clause that a switch switches on, where this is the number of its opposite literal: not all
/// literals of the cube are true.
pub(crate) fn clause_outside(
    alloc: Global,
    table: &[Option<Literal>],
    off: i32,
    cube: &[u32],
) -> M<Vec<i32>> {
    let mut clause = Vec::new(alloc);
    clause.push(off)?;
    for literal in cube {
        if let Some(Some(number)) = table.get(opposite_of(*literal) as usize) {
            clause.push(number.number())?;
        }
    }
    Ok(clause)
}

impl Layout {
    /// With so many switches, in time linear in the net and the facts.
    pub(crate) fn new(
        alloc: Global,
        question: &Question<'_>,
        numbers: &Numbers,
        switches: u32,
    ) -> M<Layout>
        requires { numbers.now.many + switches < 2 ^ 31 }
    {
        let net = &question.safe.net;
        let facts = question.facts.as_slice();
        Ok(Layout {
            now: table_before(alloc, net, numbers)?,
            next: table_after(alloc, question.safe, numbers)?,
            constrained: constrained_latches(alloc, net, facts)?,
            places: places(alloc, net, facts, numbers)?,
            inputs: inputs(alloc, net, numbers)?,
            first: numbers.many,
            switches,
        })
    }

    /// The switch of this number, counted from 0, if there are so many.
    pub(crate) fn switch(&self, i: u32) -> Option<Switch> {
        if self.switches <= i {
            return None;
        }
        let number = (self.first + i + 1) as i32;
        Some(Switch {
            on: Literal::new(number),
            off: -number,
        })
    }

    /// The state before the step, by the latches that states are told by.
    pub(crate) fn state(&self, alloc: Global, values: &[bool]) -> M<Cube> {
        let mut cube = List::new(alloc);
        for place in &self.places {
            match values.get(place.value) {
                Some(true) => cube.push(place.one)?,
                Some(false) => cube.push(place.zero)?,
                None => {}
            }
        }
        Ok(cube)
    }

    /// Adds the values of the inputs before the step.
    pub(crate) fn push_inputs(&self, values: &[bool], literals: &mut Vec<Literal>) -> M<()> {
        for input in &self.inputs {
            if let Some(value) = values.get(input.place()) {
                literals.push(input.of(*value))?;
            }
        }
        Ok(())
    }

    /// Adds that all latches are 0 before the step.
    pub(crate) fn push_start(&self, literals: &mut Vec<Literal>) -> M<()> {
        for (literal, number) in self.now.iter().enumerate() {
            if literal % 2 == 1
                && let Some(number) = number
            {
                literals.push(*number)?;
            }
        }
        Ok(())
    }
}
