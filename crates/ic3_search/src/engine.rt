//! The levels of the search, and queries about steps from their states.
//!
//! Level 0 has the start alone. Level i has all states that no lemma of level i or above excludes:
//! each that is reached in at most i steps, and others.

ghost use Rattle.std.specs.Prelude.{◌*◌, ◌≤◌, ◌^◌, length};
ghost use Rattle.aig_net.specs.Nets.{variables};
ghost use Rattle.cnf_frames.specs.Facts.{AllIn};

use crate::asker::{Asker, Budget};
use crate::cubes::{Cube, part_of};
use crate::layout::{Layout, Switch, clause_outside, push_cube};
use crate::lemmas::Lemmas;
use crate::numbers::Numbers;
use crate::question::Question;
use chain_check::{Clause, Literal};
use hy_base::{List, M};
use sat_core::{Assignment, Reply};
use std::alloc::Global;

/// How many levels there may be.
pub const LEVELS: u32 = 256;
/// How many clauses are added for a single query each before the session begins anew.
const PASSING: u32 = 300;

/// What a query about a step comes to.
#[derive(Drop)]
pub enum Step {
    /// There is such a step.
    From(Assignment),
    /// There is none, and none to a state of this cube, which has all states that were asked for.
    None(Cube),
    /// It was not decided.
    Unknown,
}

/// A search on its way.
#[derive(Drop)]
pub struct Engine {
    pub layout: Layout,
    pub asker: Asker,
    /// The states that are to be excluded.
    pub target: Cube,
    pub lemmas: Lemmas,
    /// How many levels there are.
    pub levels: u32,
    /// By latch: how often it was in a lemma of late.
    pub scores: Vec<u64>,
    /// How many switches were used for single queries.
    passing: u32,
}

/// The literals of a cube whose numbers a core has or whose latches are to stay, and one that
/// excludes the start.
fn named_part(
    alloc: Global,
    table: &[Option<Literal>],
    cube: &[u32],
    core: &Clause,
    stay: &[bool],
) -> M<Cube> {
    let mut numbers = Vec::new(alloc);
    numbers.extend_from_slice(core.as_slice())?;
    numbers.sort_unstable();
    let mut named = Vec::new(alloc);
    for literal in cube {
        let is_named = match table.get(*literal as usize) {
            Some(Some(number)) => numbers.as_slice().binary_search(&number.number()).is_ok(),
            _ => true,
        };
        named.push(is_named || stay.get(*literal as usize / 2) == Some(&true))?;
    }
    part_of(alloc, cube, named.as_slice())
}

impl Engine {
    /// A search without lemmas, which may call the solver so often.
    pub(crate) fn new(
        alloc: Global,
        question: &Question<'_>,
        numbers: &Numbers,
        budget: Budget,
    ) -> M<Engine>
        requires inside { AllIn (length question.now.safe.now.net.latches) question.now.facts.now }
        requires few { 2 * variables question.now.safe.now.net ≤ 2 ^ 24 }
    {
        let switches = LEVELS + PASSING;
        Ok(Engine {
            layout: Layout::new(alloc, question, numbers, switches)?,
            asker: Asker::new(alloc, question, numbers, switches, budget)?,
            target: List::from_vec(Vec::from_slice(alloc, question.target)?),
            lemmas: Lemmas::new(alloc),
            levels: 1,
            scores: vec![in alloc; 0; question.safe.net.latches().len()]?,
            passing: 0,
        })
    }

    /// Adds a lemma's clause, switched on with its level.
    pub(crate) fn add_clause(&mut self, alloc: Global, level: u32, cube: &[u32]) -> M<()> {
        let Some(switch) = self.layout.switch(level) else {
            return Ok(());
        };
        let clause = clause_outside(alloc, self.layout.now.as_slice(), switch.off, cube)?;
        self.asker.add(alloc, clause.as_slice())
    }

    /// Begins a new session, with the lemmas.
    fn renew(&mut self, alloc: Global) -> M<()> {
        self.asker.renew(alloc)?;
        for lemma in self.lemmas.as_slice() {
            if let Some(switch) = self.layout.switch(lemma.level) {
                let cube = lemma.cube.as_slice();
                let clause = clause_outside(alloc, self.layout.now.as_slice(), switch.off, cube)?;
                self.asker.add(alloc, clause.as_slice())?;
            }
        }
        Ok(())
    }

    /// A switch for the clause of a single query.
    fn passing_switch(&mut self, alloc: Global) -> M<Option<Switch>> {
        if PASSING <= self.passing {
            self.renew(alloc)?;
            self.passing = 0;
        }
        let switch = self.layout.switch(LEVELS + self.passing);
        self.passing += 1;
        Ok(switch)
    }

    /// The assumptions that a state before the step is of a level.
    fn level(&self, alloc: Global, level: u32) -> M<Vec<Literal>> {
        let mut assumptions = Vec::new(alloc);
        if level == 0 {
            self.layout.push_start(&mut assumptions)?;
        }
        for i in level..self.levels {
            if let Some(switch) = self.layout.switch(i) {
                assumptions.push(switch.on)?;
            }
        }
        Ok(assumptions)
    }

    /// Asks for a step to a state of the cube, under assumptions.
    fn ask_into(&mut self, alloc: Global, assumptions: Vec<Literal>, cube: &[u32]) -> M<Step> {
        let mut assumptions = assumptions;
        push_cube(self.layout.next.as_slice(), cube, &mut assumptions)?;
        match self.asker.ask(alloc, assumptions.as_slice())? {
            Reply::Values(values) => Ok(Step::From(values)),
            Reply::Core(core) => Ok(Step::None(named_part(
                alloc,
                self.layout.next.as_slice(),
                cube,
                &core,
                &[],
            )?)),
            Reply::Spent => Ok(Step::Unknown),
        }
    }

    /// Asks for a step from a state of the level to one of the cube.
    pub(crate) fn step_into(&mut self, alloc: Global, level: u32, cube: &[u32]) -> M<Step> {
        let assumptions = self.level(alloc, level)?;
        self.ask_into(alloc, assumptions, cube)
    }

    /// Asks for a step from a state of the level that is not of the cube to one of the cube.
    pub(crate) fn step_from_outside(&mut self, alloc: Global, level: u32, cube: &[u32]) -> M<Step> {
        let Some(Switch { on, off }) = self.passing_switch(alloc)? else {
            return Ok(Step::Unknown);
        };
        let clause = clause_outside(alloc, self.layout.now.as_slice(), off, cube)?;
        self.asker.add(alloc, clause.as_slice())?;
        let mut assumptions = self.level(alloc, level)?;
        assumptions.push(on)?;
        let step = self.ask_into(alloc, assumptions, cube)?;
        self.asker.add(alloc, &[off])?;
        Ok(step)
    }

    /// A part of the state before a step, from whose states the inputs of the step lead where the
    /// assumption is false. It keeps all latches on which constraints depend.
    fn lifted(&mut self, alloc: Global, values: &Assignment, elsewhere: Literal) -> M<Cube> {
        let layout = &self.layout;
        let values = values.as_slice();
        let state = layout.state(alloc, values)?;
        let mut assumptions = Vec::new(alloc);
        assumptions.push(elsewhere)?;
        layout.push_inputs(values, &mut assumptions)?;
        push_cube(layout.now.as_slice(), state.as_slice(), &mut assumptions)?;
        match self.asker.ask(alloc, assumptions.as_slice())? {
            Reply::Core(core) => named_part(
                alloc,
                layout.now.as_slice(),
                state.as_slice(),
                &core,
                layout.constrained.as_slice(),
            ),
            _ => Ok(state),
        }
    }

    /// A cube of states that have a step into a cube, with that before the step.
    pub(crate) fn before(&mut self, alloc: Global, values: &Assignment, cube: &[u32]) -> M<Cube> {
        let Some(Switch { on, off }) = self.passing_switch(alloc)? else {
            return self.layout.state(alloc, values.as_slice());
        };
        let clause = clause_outside(alloc, self.layout.next.as_slice(), off, cube)?;
        self.asker.add(alloc, clause.as_slice())?;
        let before = self.lifted(alloc, values, on)?;
        self.asker.add(alloc, &[off])?;
        Ok(before)
    }
}
