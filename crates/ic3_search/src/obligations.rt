//! Cubes that are to be excluded from levels, since they lead to the target.

use crate::cubes::{Cube, excludes_start, is_part, without};
use crate::engine::{Engine, Step};
use crate::lemmas::Lemma;
use hy_base::M;
use std::alloc::Global;

/// What a lemma adds to the score of each of its latches.
const WEIGHT: u64 = 1_048_576;

/// A cube that is to be excluded from a level, since so many steps lead from it to the target.
#[derive(Drop)]
struct Obligation {
    level: u32,
    cube: Cube,
    steps: u32,
}

/// What comes of it that states are to be excluded.
#[derive(Clone, Copy)]
pub enum Course {
    /// They are excluded.
    Excluded,
    /// A path of so many steps leads to the target.
    Path(u32),
    /// It was not decided.
    Open,
}

/// Takes the last obligation of the lowest level out, in time linear in their number.
fn take_lowest(open: &mut Vec<Obligation>) -> Option<Obligation> {
    let mut lowest = 0;
    let mut level = u32::MAX;
    for (i, obligation) in open.iter().enumerate() {
        if obligation.level <= level {
            lowest = i;
            level = obligation.level;
        }
    }
    if lowest < open.len() {
        Some(open.swap_remove(lowest))
    } else {
        None
    }
}

impl Engine {
    /// A lemma's cube at the level, of the states of a cube and perhaps others, if there is one.
    fn excluded(&mut self, alloc: Global, level: u32, cube: &[u32]) -> M<Option<Cube>> {
        if level == 0 || !excludes_start(cube) {
            return Ok(None);
        }
        match self.step_from_outside(alloc, level - 1, cube)? {
            Step::None(larger) => Ok(Some(larger)),
            _ => Ok(None),
        }
    }

    /// The literals of a cube, those of the latches with the least scores first.
    fn by_score(&self, alloc: Global, cube: &[u32]) -> M<Vec<(u64, u32)>> {
        let mut order = Vec::new(alloc);
        for literal in cube {
            let score = self.scores.get(*literal as usize / 2);
            order.push((score.copied().unwrap_or(0), *literal))?;
        }
        order.sort_unstable();
        Ok(order)
    }

    /// A lemma's cube with as few literals as dropping one after the other leaves.
    fn widened(&mut self, alloc: Global, level: u32, cube: Cube) -> M<Cube> {
        let order = self.by_score(alloc, cube.as_slice())?;
        let mut cube = cube;
        for (_, literal) in &order {
            if !is_part(&[*literal], cube.as_slice()) {
                continue;
            }
            let fewer = without(alloc, cube.as_slice(), *literal)?;
            if let Some(larger) = self.excluded(alloc, level, fewer.as_slice())? {
                cube = larger;
            }
        }
        Ok(cube)
    }

    /// The highest level that is found to exclude a cube which this level excludes.
    fn highest(&mut self, alloc: Global, level: u32, cube: &[u32]) -> M<u32> {
        let mut highest = level;
        for above in level..self.levels {
            if level < above && self.excluded(alloc, above, cube)?.is_none() {
                return Ok(highest);
            }
            highest = above;
        }
        Ok(highest)
    }

    /// Lowers all scores a little, and raises those of the latches of a cube.
    fn count(&mut self, cube: &[u32]) {
        for score in self.scores.iter_mut() {
            *score -= *score / 64;
        }
        for literal in cube {
            if let Some(score) = self.scores.get_mut(*literal as usize / 2) {
                *score = score.saturating_add(WEIGHT);
            }
        }
    }

    /// Makes a lemma of a cube that a level excludes.
    fn learn(&mut self, alloc: Global, level: u32, cube: Cube) -> M<()> {
        let cube = self.widened(alloc, level, cube)?;
        let level = self.highest(alloc, level, cube.as_slice())?;
        self.count(cube.as_slice());
        self.add_clause(alloc, level, cube.as_slice())?;
        self.lemmas.add(Lemma { level, cube })
    }

    /// Takes up an obligation again, one level above, if there is one.
    fn take_up(&self, obligation: Obligation, open: &mut Vec<Obligation>) -> M<()> {
        let above = obligation.level.saturating_add(1);
        if above < self.levels {
            open.push(Obligation {
                level: above,
                ..obligation
            })?;
        }
        Ok(())
    }

    /// Deals with an obligation: it is excluded, or others were added.
    fn meet(&mut self, alloc: Global, due: Obligation, open: &mut Vec<Obligation>) -> M<Course> {
        if due.level == 0 || !excludes_start(due.cube.as_slice()) {
            return Ok(Course::Path(due.steps));
        }
        if self.lemmas.exclude(due.level, due.cube.as_slice()) {
            self.take_up(due, open)?;
            return Ok(Course::Excluded);
        }
        match self.step_from_outside(alloc, due.level - 1, due.cube.as_slice())? {
            Step::From(values) => {
                let level = due.level - 1;
                let cube = self.before(alloc, &values, due.cube.as_slice())?;
                let steps = due.steps.saturating_add(1);
                open.push(due)?;
                open.push(Obligation { level, cube, steps })?;
                Ok(Course::Excluded)
            }
            Step::None(larger) => {
                self.learn(alloc, due.level, larger)?;
                self.take_up(due, open)?;
                Ok(Course::Excluded)
            }
            Step::Unknown => Ok(Course::Open),
        }
    }

    /// Excludes a cube, from which one step leads to the target, from the last level, and what leads
    /// to it from those before.
    pub(crate) fn exclude(&mut self, alloc: Global, cube: Cube) -> M<Course> {
        let mut open = Vec::new(alloc);
        open.push(Obligation {
            level: self.levels.saturating_sub(1),
            cube,
            steps: 1,
        })?;
        let turns = 256 * (self.asker.left().calls as u64 + 1);
        for _turn in 0..turns {
            let Some(due) = take_lowest(&mut open) else {
                return Ok(Course::Excluded);
            };
            match self.meet(alloc, due, &mut open)? {
                Course::Excluded => {}
                course => return Ok(course),
            }
        }
        Ok(Course::Open)
    }
}
