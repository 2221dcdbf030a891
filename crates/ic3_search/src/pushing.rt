//! Lemmas go up from level to level, until one level has as many states as the next.

use crate::cubes::Cube;
use crate::engine::{Engine, Step};
use hy_base::M;
use std::alloc::Global;

impl Engine {
    /// Raises the lemma at this place to the next level if that excludes its cube. Whether it does.
    fn push_lemma(&mut self, alloc: Global, i: usize, level: u32, cube: &Cube) -> M<bool> {
        match self.step_into(alloc, level, cube.as_slice())? {
            Step::None(_) => {
                let above = level.saturating_add(1);
                self.lemmas.raise(i, above);
                self.add_clause(alloc, above, cube.as_slice())?;
                Ok(true)
            }
            _ => Ok(false),
        }
    }

    /// Raises the lemmas of a level to the next, as far as that excludes their cubes. Whether all of
    /// them do.
    fn push_level(&mut self, alloc: Global, level: u32) -> M<bool> {
        let mut all = true;
        for i in 0..self.lemmas.as_slice().len() {
            if let Some(cube) = self.lemmas.cube_at(alloc, i, level)? {
                all = self.push_lemma(alloc, i, level, &cube)? && all;
            }
        }
        Ok(all)
    }

    /// Raises the lemmas of all levels but the last, the lowest first. A level that keeps none of its
    /// own, if there is one: its lemmas exclude what each step from its states leads to.
    pub(crate) fn push_levels(&mut self, alloc: Global) -> M<Option<u32>> {
        for level in 1..self.levels.saturating_sub(1) {
            if self.push_level(alloc, level)? {
                return Ok(Some(level));
            }
        }
        Ok(None)
    }
}
