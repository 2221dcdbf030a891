//! Lemmas: cubes that no state of a level is in.

use crate::cubes::{Cube, is_part};
use hy_base::M;
use std::alloc::Global;

/// No state that is reached in at most `level` steps is in the cube.
#[derive(Drop)]
pub struct Lemma {
    pub level: u32,
    pub cube: Cube,
}

/// The lemmas that were found.
#[derive(Drop)]
pub struct Lemmas {
    items: Vec<Lemma>,
}

impl Lemmas {
    /// No lemma. Takes no memory.
    pub(crate) fn new(alloc: Global) -> Lemmas {
        Lemmas {
            items: Vec::new(alloc),
        }
    }

    /// The lemmas, in the order in which they were found.
    pub(crate) fn as_slice(&self) -> &[Lemma] {
        self.items.as_slice()
    }

    /// Whether a lemma says that no state of the level is in the cube.
    pub(crate) fn exclude(&self, level: u32, cube: &[u32]) -> bool {
        self.items.iter().any(|lemma| level <= lemma.level && is_part(lemma.cube.as_slice(), cube))
    }

    /// Adds a lemma, in the place of those that say less.
    pub(crate) fn add(&mut self, lemma: Lemma) -> M<()> {
        self.items.retain(|other| {
            lemma.level < other.level || !is_part(lemma.cube.as_slice(), other.cube.as_slice())
        });
        self.items.push(lemma)?;
        Ok(())
    }

    /// The cube of the lemma at this place, if it is of the level.
    pub(crate) fn cube_at(&self, alloc: Global, i: usize, level: u32) -> M<Option<Cube>> {
        match self.items.get(i) {
            Some(lemma) if lemma.level == level => Ok(Some(lemma.cube.copy(alloc)?)),
            _ => Ok(None),
        }
    }

    /// Raises the lemma at this place to a level.
    pub(crate) fn raise(&mut self, i: usize, level: u32) {
        if let Some(lemma) = self.items.get_mut(i) {
            lemma.level = level;
        }
    }

    /// The cubes of the lemmas above a level.
    pub(crate) fn above(&self, alloc: Global, level: u32) -> M<Vec<Cube>> {
        let mut cubes = Vec::new(alloc);
        for lemma in &self.items {
            if level < lemma.level {
                cubes.push(lemma.cube.copy(alloc)?)?;
            }
        }
        Ok(cubes)
    }
}
