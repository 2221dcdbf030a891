//! The cubes that are needed: those from which it follows that no step leads to the target, and that
//! no step leads into one of those that are needed.

ghost use Rattle.std.specs.Prelude.{◌*◌, ◌≤◌, ◌^◌, length};
ghost use Rattle.aig_net.specs.Nets.{variables};
ghost use Rattle.cnf_frames.specs.Facts.{AllIn};

use crate::asker::{Asker, Budget};
use crate::cubes::Cube;
use crate::layout::{Layout, Switch, clause_outside, push_cube};
use crate::numbers::Numbers;
use crate::question::Question;
use chain_check::{Clause, Literal};
use hy_base::M;
use sat_core::Reply;
use std::alloc::Global;

/// How many cubes are reduced at most.
const MOST_CUBES: usize = 1_048_576;

/// A cube, and whether it is needed.
#[derive(Drop)]
struct Candidate {
    cube: Cube,
    switch: Switch,
    is_needed: bool,
}

/// A reduction on its way.
#[derive(Drop)]
struct Reduction {
    layout: Layout,
    asker: Asker,
    candidates: Vec<Candidate>,
    /// The places of needed cubes that were not asked for.
    open: Vec<usize>,
}

/// The numbers of a core, ascending.
fn sorted_numbers(alloc: Global, core: &Clause) -> M<Vec<i32>> {
    let mut numbers = Vec::new(alloc);
    numbers.extend_from_slice(core.as_slice())?;
    numbers.sort_unstable();
    Ok(numbers)
}

impl Reduction {
    /// Adds cubes, each with the clause that no state before a step is in it.
    fn add(&mut self, alloc: Global, cubes: &[Cube]) -> M<()> {
        for (i, cube) in cubes.iter().enumerate() {
            let Ok(number) = u32::try_from(i) else {
                return Ok(());
            };
            if let Some(switch) = self.layout.switch(number) {
                let now = self.layout.now.as_slice();
                let clause = clause_outside(alloc, now, switch.off, cube.as_slice())?;
                self.asker.add(alloc, clause.as_slice())?;
                self.candidates.push(Candidate {
                    cube: cube.copy(alloc)?,
                    switch,
                    is_needed: false,
                })?;
            }
        }
        Ok(())
    }

    /// Adds the switches of the cubes that are needed, or of the others.
    fn push_switches(&self, needed: bool, literals: &mut Vec<Literal>) -> M<()> {
        for candidate in &self.candidates {
            if candidate.is_needed == needed {
                literals.push(candidate.switch.on)?;
            }
        }
        Ok(())
    }

    /// The cubes whose switches a core has are needed.
    fn need(&mut self, alloc: Global, core: &Clause) -> M<()> {
        let numbers = sorted_numbers(alloc, core)?;
        for i in 0..self.candidates.len() {
            if let Some(candidate) = self.candidates.get_mut(i) {
                let number = candidate.switch.on.number();
                if !candidate.is_needed && numbers.as_slice().binary_search(&number).is_ok() {
                    candidate.is_needed = true;
                    self.open.push(i)?;
                }
            }
        }
        Ok(())
    }

    /// Finds what excludes a step to where these literals are true. False where that does not
    /// succeed.
    fn exclude(&mut self, alloc: Global, ends: Vec<Literal>) -> M<bool> {
        let mut assumptions = ends;
        self.push_switches(true, &mut assumptions)?;
        self.push_switches(false, &mut assumptions)?;
        match self.asker.ask(alloc, assumptions.as_slice())? {
            Reply::Core(core) => {
                self.need(alloc, &core)?;
                Ok(true)
            }
            _ => Ok(false),
        }
    }

    /// The literals that are true after a step into the cube at this place.
    fn into_cube(&self, alloc: Global, i: usize) -> M<Vec<Literal>> {
        let mut ends = Vec::new(alloc);
        if let Some(candidate) = self.candidates.get(i) {
            let cube = candidate.cube.as_slice();
            push_cube(self.layout.next.as_slice(), cube, &mut ends)?;
        }
        Ok(ends)
    }

    /// Finds all that is needed. False where that does not succeed.
    fn run(&mut self, alloc: Global, target: &[u32]) -> M<bool> {
        let mut ends = Vec::new(alloc);
        push_cube(self.layout.next.as_slice(), target, &mut ends)?;
        if !self.exclude(alloc, ends)? {
            return Ok(false);
        }
        for _cube in 0..self.candidates.len() {
            let Some(i) = self.open.pop() else {
                return Ok(true);
            };
            let ends = self.into_cube(alloc, i)?;
            if !self.exclude(alloc, ends)? {
                return Ok(false);
            }
        }
        Ok(self.open.is_empty())
    }

    /// The cubes that are needed.
    fn needed(&self, alloc: Global) -> M<Vec<Cube>> {
        let mut needed = Vec::new(alloc);
        for candidate in &self.candidates {
            if candidate.is_needed {
                needed.push(candidate.cube.copy(alloc)?)?;
            }
        }
        Ok(needed)
    }
}

/// The cubes that are needed, if no step from outside all cubes leads into one or to the target, and
/// so many calls of the solver show it; else all cubes. A call for each needed cube and one more.
pub(crate) fn reduced(
    alloc: Global,
    question: &Question<'_>,
    numbers: &Numbers,
    cubes: Vec<Cube>,
    budget: Budget,
) -> M<Vec<Cube>>
    requires inside { AllIn (length question.now.safe.now.net.latches) question.now.facts.now }
    requires few { 2 * variables question.now.safe.now.net ≤ 2 ^ 24 }
{
    if MOST_CUBES < cubes.len() {
        return Ok(cubes);
    }
    let switches = cubes.len() as u32;
    let mut reduction = Reduction {
        layout: Layout::new(alloc, question, numbers, switches)?,
        asker: Asker::new(alloc, question, numbers, switches, budget)?,
        candidates: Vec::new(alloc),
        open: Vec::new(alloc),
    };
    reduction.add(alloc, cubes.as_slice())?;
    if reduction.run(alloc, question.target)? {
        reduction.needed(alloc)
    } else {
        Ok(cubes)
    }
}
