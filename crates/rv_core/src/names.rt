//! The names of a body.

ghost use Rattle.std.specs.Prelude.{◌≡◌, IfOk, IsTrue};
ghost use Rattle.std.specs.FinSet.{intersection};
ghost use Rattle.hy_formula.specs.Trees.{tree_of};
ghost use Rattle.rv_core.specs.Masks.{AreNamesOf};

use hy_base::M;
use hy_bits::LetterMask;
use hy_formula::{Body, names_of};
use std::alloc::Global;
use std::marker::Model;

/// Names, as a set and one after another. Contracts see the set.
#[derive(Drop)]
pub(crate) struct Names {
    all: LetterMask,
    each: Vec<usize>,
}

impl Model for Names {
    ghost use Rattle.std.specs.Coded.{coded_ℕ};
    ghost use Rattle.std.specs.FinSet as set;
    ghost use Rattle.hy_bits.specs.Letter.{Letter};
    ghost use Rattle.rv_core.specs.Masks.{AreListed};

    ghost Value = { Letter };

    ghost coded = { set.code coded_ℕ };

    ghost view = { λ n. n.all };

    ghost invariant = { λ n. AreListed n.each.items n.all };
}

impl Names {
    /// The names of a body. In time linear in it.
    pub(crate) fn of(alloc: Global, body: &Body) -> M<Names>
        ensures { IfOk result (λ names. AreNamesOf names (tree_of body.now)) }
    {
        let all = names_of(body);
        all.names_below();
        let mut each = Vec::new(alloc);
        for name in 0..64 {
            if all.has(name) {
                each.push(name)?;
            }
        }
        Ok(Names { all, each })
    }

    /// Whether each name of a letter is one of these.
    pub(crate) fn have(&self, letter: LetterMask) -> bool
        ensures { IsTrue result → intersection letter self.now ≡ letter }
    {
        letter.is_subset(&self.all)
    }

    /// Those of these that a letter has. In constant time where it has no other, and else linear in
    /// these.
    pub(crate) fn of_letter(&self, letter: LetterMask) -> LetterMask
        ensures { result ≡ intersection letter self.now }
    {
        if self.have(letter) {
            return letter;
        }
        self.all.names_below();
        let mut found = LetterMask::empty();
        for name in &self.each {
            if letter.has(*name) {
                found = found.with(*name);
            }
        }
        found
    }
}
